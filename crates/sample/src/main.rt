//! The sample record in 15 columns, written by the recorder, printed and read back, and texts damaged from it with the reader's verdicts.
#![tactic(auto)]

use recorder::Recorder;
use runs::Step;
use settings::Kind;

// The sample run: train 1 comes, goes inside at 3, and leaves at 4.
const STEPS: [Step; 8] = [
    Step::Approach(Kind::Loaded, 1),
    Step::Clock(90.0),
    Step::Clock(45.0),
    Step::Clock(0.0),
    Step::Occupy(1),
    Step::Clock(0.0),
    Step::Leave(1),
    Step::Clock(90.0),
];

// The sample, whole.
fn write_sample(out: &mut [u8]) {
    let Ok(mut recorder) = Recorder::start(&worked::settings_k(), out) else {
        return;
    };
    for step in &STEPS {
        let _ = recorder.take(*step, out);
    }
}

// A text on standard output.
fn print<R: Print>(rt: &R, text: &[u8]) {
    let _ = rt.write_all(text);
}

// A text's name and the reader's verdict on it.
fn show<R: Print>(rt: &R, name: &[u8], text: &[u8]) {
    print(rt, name);
    let _ = match reader::read(text).verdict {
        Ok(()) => println!(rt; ": accepted"),
        Err(fault) => { println!(rt; ": {} at line {}", fault.refusal.number(), fault.line) }
    };
}

// Where a line's column stands in a text, both counted from 1; the beginning for a line or a column that it has not.
fn place(line: usize, column: usize) -> usize {
    if (1..=26).contains(&line) && (1..=16).contains(&column) {
        16 * (line - 1) + (column - 1)
    } else {
        0
    }
}

// The sample with other bytes from a line's column on.
fn changed<R: Print>(rt: &R, name: &[u8], sample: &[u8], line: usize, column: usize, bytes: &[u8]) {
    let mut text = [0u8; 400];
    let _ = lines::put_bytes(&mut text, 0, sample);
    let _ = lines::put_bytes(&mut text, place(line, column), bytes);
    show(rt, name, &text);
}

// The first `n` bytes of a text.
fn cut<R: Print>(rt: &R, name: &[u8], text: &[u8], n: usize) {
    if n <= text.len() {
        show(rt, name, &text[..n]);
    }
}

// The sample with bytes after it.
fn longer<R: Print>(rt: &R, name: &[u8], sample: &[u8], bytes: &[u8]) {
    let mut text = [0u8; 416];
    let _ = lines::put_bytes(&mut text, 0, sample);
    let _ = lines::put_bytes(&mut text, 400, bytes);
    if bytes.len() <= 16 {
        cut(rt, name, &text, 400 + bytes.len());
    }
}

// The sample without its lines from `first` on up to `next`.
fn without<R: Print>(rt: &R, name: &[u8], sample: &[u8], first: usize, next: usize) {
    let from = place(first, 1);
    let to = place(next, 1);
    if to < from {
        return;
    }
    if sample.len() < to {
        return;
    }
    let mut text = [0u8; 400];
    let _ = lines::put_bytes(&mut text, 0, sample);
    let _ = lines::put_bytes(&mut text, from, &sample[to..]);
    cut(rt, name, &text, sample.len() - (to - from));
}

// Lines out of their columns, and the fixed first line.
fn column_cases<R: Print>(rt: &R, sample: &[u8]) {
    changed(rt, b"line 1 with another last letter", sample, 1, 15, b"E");
    changed(rt, b"leading zero", sample, 2, 7, b"0");
    changed(rt, b"column 9 not blank", sample, 3, 9, b"0");
    changed(rt, b"blank for 0", sample, 6, 8, b" ");
    changed(rt, b"blank for byte 10", sample, 18, 16, b" ");
    changed(
        rt,
        b"last line among the settings",
        sample,
        5,
        1,
        b"  END OF RECORD",
    );
}

// Lines of 14 columns among those of 15.
fn old_form_cases<R: Print>(rt: &R, sample: &[u8]) {
    changed(
        rt,
        b"first line of the old form",
        sample,
        1,
        1,
        b"   GATE RECORD\n",
    );
    changed(rt, b"angle of the old form", sample, 16, 11, b"5760\n");
    changed(
        rt,
        b"last line of the old form",
        sample,
        25,
        1,
        b" END OF RECORD\n",
    );
}

// Settings lines, and settings that are refused.
fn settings_cases<R: Print>(rt: &R, sample: &[u8]) {
    changed(rt, b"settings index 4 for 3", sample, 4, 15, b"4");
    changed(rt, b"settings letter T for S", sample, 5, 10, b"T");
    changed(rt, b"settings Y 0", sample, 8, 8, b"0");
    changed(rt, b"settings E 2", sample, 2, 8, b"2");
    changed(rt, b"settings X 2", sample, 7, 8, b"2");
    changed(rt, b"settings Q 2880", sample, 5, 5, b"2880");
}

// The times of kinds 2 to 4.
fn kind_cases<R: Print>(rt: &R, sample: &[u8]) {
    changed(rt, b"settings index 12 for 13", sample, 14, 15, b"2");
    changed(
        rt,
        b"latest of kind 4 below its earliest",
        sample,
        14,
        8,
        b"2",
    );
    changed(rt, b"earliest of kind 4 not above D", sample, 13, 8, b"2");
    changed(rt, b"latest of kind 4 beyond X", sample, 14, 8, b"5");
    changed(rt, b"latest of kind 3 beyond X", sample, 12, 8, b"5");
    changed(rt, b"approach of kind 2", sample, 15, 10, b"B");
    changed(rt, b"approach of kind 3", sample, 15, 10, b"E");
    changed(rt, b"approach of kind 4", sample, 15, 10, b"F");
    changed(rt, b"approach of kind 5", sample, 15, 10, b"G");
    without(rt, b"seven settings", sample, 9, 15);
}

// Letters that name no step and no command.
fn letter_cases<R: Print>(rt: &R, sample: &[u8]) {
    changed(rt, b"letter S on line 15", sample, 15, 10, b"S");
    changed(rt, b"lower letter", sample, 16, 10, b"t");
    changed(rt, b"letter X", sample, 20, 10, b"X");
    changed(rt, b"letter X and a wrong instant", sample, 20, 8, b"4 X");
    changed(rt, b"digit as letter", sample, 22, 10, b"7");
}

// Instants and command lines that the recorder would not put there.
fn recorder_cases<R: Print>(rt: &R, sample: &[u8]) {
    changed(rt, b"A line one instant late", sample, 15, 8, b"1");
    changed(rt, b"T line one instant late", sample, 18, 8, b"3");
    changed(
        rt,
        b"A line with a wrong instant and train 65536",
        sample,
        15,
        8,
        b"1 A65536",
    );
    changed(rt, b"D line with number 0", sample, 17, 15, b"0");
    changed(rt, b"D line with train 2", sample, 17, 15, b"2");
    changed(rt, b"D line with train 11", sample, 17, 14, b"11");
    changed(rt, b"U line with train 1", sample, 23, 15, b"1");
    changed(rt, b"U line for the D line", sample, 17, 10, b"U");
    changed(rt, b"U line that is not due", sample, 20, 10, b"U    0");
    without(rt, b"D line missing", sample, 17, 18);
    without(rt, b"U line missing before the last line", sample, 23, 25);
}

// Steps of a train that the bench refuses.
fn train_cases<R: Print>(rt: &R, sample: &[u8]) {
    changed(rt, b"train 65536", sample, 15, 11, b"65536");
    changed(rt, b"train 0", sample, 15, 15, b"0");
    changed(rt, b"approach of a coming train", sample, 20, 10, b"A");
    changed(rt, b"occupy of a train inside", sample, 22, 10, b"O");
    changed(rt, b"occupy too early", sample, 19, 1, b"       2 O    1");
    changed(rt, b"leave of a coming train", sample, 20, 10, b"L");
}

// Steps of the clock that the bench refuses.
fn clock_cases<R: Print>(rt: &R, sample: &[u8]) {
    changed(
        rt,
        b"clock past a train's latest",
        sample,
        20,
        1,
        b"       4 T    0\n       5 T    0",
    );
    changed(rt, b"angle 5761", sample, 16, 15, b"1");
    changed(rt, b"angle 15760", sample, 16, 11, b"1");
    changed(
        rt,
        b"angle 2881 with the command down",
        sample,
        18,
        15,
        b"1",
    );
    changed(
        rt,
        b"angle 5759 with the command up",
        sample,
        24,
        12,
        b"5759",
    );
}

// Missing ends, text after the last line, and two shorter records that are accepted.
fn end_cases<R: Print>(rt: &R, sample: &[u8]) {
    cut(rt, b"empty text", sample, 0);
    cut(rt, b"line 1 alone", sample, 16);
    cut(rt, b"no steps and no last line", sample, 224);
    cut(rt, b"last line missing", sample, 384);
    cut(rt, b"last line without byte 10", sample, 399);
    longer(rt, b"byte 10 after the last line", sample, b"\n");
    longer(rt, b"last line twice", sample, b"  END OF RECORD\n");
    without(rt, b"no steps", sample, 15, 25);
    without(rt, b"last step left out", sample, 24, 25);
}

// The sample written, printed and read, and then the texts made from it.
fn main(rt: HostRuntime) {
    let mut text = [0u8; 400];
    write_sample(&mut text);
    let sample: &[u8] = &text;
    print(&rt, sample);
    show(&rt, b"the sample", sample);
    end_cases(&rt, sample);
    column_cases(&rt, sample);
    old_form_cases(&rt, sample);
    settings_cases(&rt, sample);
    kind_cases(&rt, sample);
    letter_cases(&rt, sample);
    recorder_cases(&rt, sample);
    train_cases(&rt, sample);
    clock_cases(&rt, sample);
}
