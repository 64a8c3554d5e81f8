//! The static library: what C or Rust programs call, over numbers and lent slices.
#![tactic(auto)]

ghost use Rattle.std.specs.Prelude.{◌≡◌, ◌≤◌, ◌&&◌, leb, length};
ghost use Rattle.settings.specs.Values.{settings_of};
ghost use Rattle.runs.specs.declared.Feed.TheVariants.{ToBench};
ghost use Rattle.runs.specs.Run.{steps_of, over, told, run_refusal};
ghost use Rattle.alone.specs.Alone.{heard_of, alone_refusal};
ghost use Rattle.recording.specs.RunRecorded.{record_refusal};
ghost use Rattle.lines.specs.declared.Layout.TheVariants.{Old, New};
ghost use Rattle.recorder.specs.Text.{current};
ghost use Rattle.reader.specs.Read.{read_text};
ghost use Rattle.converter.specs.Convert.{turned};
ghost use Rattle.stretches.specs.declared.Sort.TheVariants.{Lowered, Occupied};
ghost use Rattle.stretches.specs.Walk.{start_cursor, nothing_from, answered, stretches_ahead};
ghost use Rattle.stretches.specs.Figures.{total};
ghost use Rattle.report.specs.Report.{report_of};
ghost use Rattle.stepwise.specs.Calls.{called};
ghost use Rattle.stepwise.specs.CabinetCalls as cabinetCall;
ghost use Rattle.stepwise.specs.CabinetCalls.{cabinet_started, cabinet_called};
ghost use Rattle.stepwise.specs.BenchCalls as benchCall;
ghost use Rattle.stepwise.specs.BenchCalls.{bench_started, bench_called};
ghost use Rattle.stepwise.specs.Shown.{posed, showed, pose_shown, gate_shown};
ghost use Rattle.exports.specs.Exports.{Answered, CabinetAnswered, RecordAnswered, pack, packed, pack_converted, ConvertAnswered, Reports};
ghost use Rattle.exports.specs.State.{kind_number, bench_numbers, state_refusal, StateAnswered};
ghost use Rattle.exports.specs.Look.{looks, look_refusal, LookAnswered};
ghost use Rattle.exports.specs.Places.{cursor_of, cursor_in, flag, found_numbers, next_numbers, next_from, Placed};

use bench::Bench;
use reader::Fault;
use settings::{Refusal, Settings, number};
use stretches::{Cursor, Sort, Stretch};
use trains::Entry;

// A bench under the settings, thirteen values in their order (one that is missing is 0, and so refused, 1), run through a list of steps
// (`runs::run`): the refusal number of the run, 0 where it is taken;
// each step's refusal number, command and train of a lower are written beside it.
#[unsafe(no_mangle)]
pub extern "C" fn weqhaso_run(
    values: &[u32],
    letters: &[u8],
    numbers: &[u32],
    readings: &[f32],
    answers: &mut [u8],
    orders: &mut [u8],
    named: &mut [u32],
) -> u8
    ensures { Answered (settings_of values.now) (steps_of letters.now numbers.now readings.now)
        (run_refusal ToBench (settings_of values.now) letters.now (length numbers.now) (length readings.now)
        (length answers.old) (length orders.old) (length named.old)) result
        (told answers.old orders.old named.old) (told answers.new orders.new named.new) }
{
    let settings = Settings::of_values(values);
    number(&runs::run(
        &settings, letters, numbers, readings, answers, orders, named,
    ))
}

// The kind of a train that is present, 1 to 4; 0 where it is away.
fn kind_number(entry: &Entry) -> u32
    ensures { result ≡ kind_number entry.now }
{
    if entry.standing.is_present() {
        stepwise::kind_as(entry.kind)
    } else {
        0
    }
}

// The bench by numbers: instant, angle, angle before and command, then of each entry of the table its train's number, kind, standing and
// instant of approach.
fn write_bench(bench: &Bench, state: &mut [u32])
    requires { 388 ≤ length state.old }
    ensures { state.new ≡ over (bench_numbers bench.now) state.old }
{
    let motion = bench.head.motion;
    state[0] = motion.control.now;
    state[1] = u32::from(motion.angle);
    state[2] = u32::from(motion.previous);
    state[3] = stepwise::command_number(motion.control.command);
    let mut i = 4;
    for place in 0..96 {
        let entry = bench.table.shown_at(place);
        state[i] = u32::from(entry.number);
        state[i + 1] = kind_number(&entry);
        state[i + 2] = stepwise::standing_number(entry.standing);
        state[i + 3] = entry.standing.since();
        i += 4;
    }
}

// A run as `weqhaso_run` does it, and the bench after it in the first 388 places of `state`: instant, angle, angle before, command
// (0 up, 1 down), then for each of the table's 96 entries the number of the train that has it, its kind (1 to 4), its standing (1 coming,
// 2 inside) and the instant of its approach; four zeros where no train has it. 14 last, where there are fewer places.
#[unsafe(no_mangle)]
pub extern "C" fn weqhaso_state(
    values: &[u32],
    letters: &[u8],
    numbers: &[u32],
    readings: &[f32],
    answers: &mut [u8],
    orders: &mut [u8],
    named: &mut [u32],
    state: &mut [u32],
) -> u8
    ensures { StateAnswered (settings_of values.now)
        (steps_of letters.now numbers.now readings.now)
        (state_refusal (settings_of values.now) letters.now (length numbers.now) (length readings.now)
        (length answers.old) (length orders.old) (length named.old) (length state.old)) result
        (told answers.old orders.old named.old) (told answers.new orders.new named.new)
        state.old state.new }
{
    let settings = Settings::of_values(values);
    let space = 388 <= state.len();
    match runs::run_with(
        &settings, letters, numbers, readings, answers, orders, named, space,
    ) {
        Ok(bench) => {
            write_bench(&bench, state);
            0
        }
        Err(refusal) => refusal.number(),
    }
}

// What the bench shows: the pose, then its gate by number and the trains present.
fn write_look(bench: &Bench, pose: &mut [f32], look: &mut [u32])
    requires { (2 ≤ length pose.old) × (2 ≤ length look.old) }
    ensures { (pose.new ≡ over (posed bench.now) pose.old) × (look.new ≡ over (looks bench.now) look.old) }
{
    let shown = bench.pose();
    let gate = bench.gate();
    pose[0] = shown.angle;
    pose[1] = shown.change;
    look[0] = stepwise::gate_number(gate);
    look[1] = bench.table.present();
}

// Whether there are places for a pose, and for a gate and a count.
fn has_places(pose: usize, look: usize) -> bool
    ensures { result ≡ (leb 2 pose && leb 2 look) }
{
    2 <= pose && 2 <= look
}

// A run as `weqhaso_run` does it, and what the bench after it shows: in the first two places of `pose` the angle and its change over the
// last clock step, in degrees; in the first two of `look` the gate (0 up, 1 down, 2 falling, 3 rising) and the number of trains present.
// 14 last, where there are fewer places in either.
#[unsafe(no_mangle)]
pub extern "C" fn weqhaso_look(
    values: &[u32],
    letters: &[u8],
    numbers: &[u32],
    readings: &[f32],
    answers: &mut [u8],
    orders: &mut [u8],
    named: &mut [u32],
    pose: &mut [f32],
    look: &mut [u32],
) -> u8
    ensures { LookAnswered (settings_of values.now)
        (steps_of letters.now numbers.now readings.now)
        (look_refusal (settings_of values.now) letters.now (length numbers.now) (length readings.now)
        (length answers.old) (length orders.old) (length named.old) (length pose.old)
        (length look.old)) result
        (told answers.old orders.old named.old) (told answers.new orders.new named.new)
        pose.old pose.new look.old look.new }
{
    let settings = Settings::of_values(values);
    let space = has_places(pose.len(), look.len());
    match runs::run_with(
        &settings, letters, numbers, readings, answers, orders, named, space,
    ) {
        Ok(bench) => {
            write_look(&bench, pose, look);
            0
        }
        Err(refusal) => refusal.number(),
    }
}

// A cabinet alone under the settings, taken through a list of what it hears (`alone::run`): the refusal number of the whole, 0 where it is
// taken; each answer's refusal number, command and train of a lower are written beside it.
#[unsafe(no_mangle)]
pub extern "C" fn weqhaso_cabinet(
    values: &[u32],
    letters: &[u8],
    numbers: &[u32],
    answers: &mut [u8],
    orders: &mut [u8],
    named: &mut [u32],
) -> u8
    ensures { CabinetAnswered (settings_of values.now) (heard_of letters.now numbers.now)
        (alone_refusal (settings_of values.now) letters.now (length numbers.now)
        (length answers.old) (length orders.old) (length named.old)) result
        (told answers.old orders.old named.old) (told answers.new orders.new named.new) }
{
    let settings = Settings::of_values(values);
    number(&alone::run(&settings, letters, numbers, answers, orders, named))
}

// ---- a cabinet and a bench in words that the caller lends, one call a step

// A fresh cabinet under the settings, thirteen values in their order, in 405 words (`stepwise::cabinet_start`): the refusal number, 1 to 4, or 14 last,
// where there are not 405 words; 0 where it is taken.
#[unsafe(no_mangle)]
pub extern "C" fn weqhaso_cabinet_start(words: &mut [u32], values: &[u32]) -> u64
    ensures { called result words.new ≡ cabinet_started words.old (settings_of values.now) }
{
    stepwise::cabinet_start(words, values)
}

// A train approaches it, by the record's letter of its kind (`stepwise::cabinet_approach`): the refusal number, 256 times the letter of the command
// given (D, U or 0), and 65,536 times the train of a lower. 15, 5, 6 and 17; 14 last. A refusal keeps every word.
#[unsafe(no_mangle)]
pub extern "C" fn weqhaso_cabinet_approach(words: &mut [u32], letter: u8, train: u32) -> u64
    ensures { called result words.new ≡ cabinet_called words.old (cabinetCall.approaching letter train) }
{
    stepwise::cabinet_approach(words, letter, train)
}

// A present train leaves it (`stepwise::cabinet_leave`), answered in the same way. 5 and 9; 14 last.
#[unsafe(no_mangle)]
pub extern "C" fn weqhaso_cabinet_leave(words: &mut [u32], train: u32) -> u64
    ensures { called result words.new ≡ cabinet_called words.old (cabinetCall.leaving train) }
{
    stepwise::cabinet_leave(words, train)
}

// Its clock moves by one tick (`stepwise::cabinet_clock`). 10; 14 last.
#[unsafe(no_mangle)]
pub extern "C" fn weqhaso_cabinet_clock(words: &mut [u32]) -> u64
    ensures { called result words.new ≡ cabinet_called words.old cabinetCall.ticking }
{
    stepwise::cabinet_clock(words)
}

// A fresh bench under the settings, in 411 words (`stepwise::bench_start`), answered as the cabinet's start.
#[unsafe(no_mangle)]
pub extern "C" fn weqhaso_bench_start(words: &mut [u32], values: &[u32]) -> u64
    ensures { called result words.new ≡ bench_started words.old (settings_of values.now) }
{
    stepwise::bench_start(words, values)
}

// A train approaches it (`stepwise::bench_approach`), by the record's letter of its kind, answered as the cabinet's steps. 15, 5, 6 and 17; 14 last.
#[unsafe(no_mangle)]
pub extern "C" fn weqhaso_bench_approach(words: &mut [u32], letter: u8, train: u32) -> u64
    ensures { called result words.new ≡ bench_called words.old (benchCall.approaching letter train) }
{
    stepwise::bench_approach(words, letter, train)
}

// A coming train goes inside (`stepwise::bench_occupy`). 5, 7 and 8; 14 last.
#[unsafe(no_mangle)]
pub extern "C" fn weqhaso_bench_occupy(words: &mut [u32], train: u32) -> u64
    ensures { called result words.new ≡ bench_called words.old (benchCall.occupying train) }
{
    stepwise::bench_occupy(words, train)
}

// A train inside leaves (`stepwise::bench_leave`). 5 and 9; 14 last.
#[unsafe(no_mangle)]
pub extern "C" fn weqhaso_bench_leave(words: &mut [u32], train: u32) -> u64
    ensures { called result words.new ≡ bench_called words.old (benchCall.leaving train) }
{
    stepwise::bench_leave(words, train)
}

// Its clock moves by one tick and brings a reading in degrees (`stepwise::bench_clock`). 10 to 13; 14 last.
#[unsafe(no_mangle)]
pub extern "C" fn weqhaso_bench_clock(words: &mut [u32], reading: f32) -> u64
    ensures { called result words.new ≡ bench_called words.old (benchCall.ticking reading) }
{
    stepwise::bench_clock(words, reading)
}

// Its pose in the first two places (`stepwise::bench_pose`): the angle and its change over the last clock step, in degrees. 0 or 14.
#[unsafe(no_mangle)]
pub extern "C" fn weqhaso_bench_pose(words: &[u32], pose: &mut [f32]) -> u64
    ensures { showed result pose.new ≡ pose_shown words.now pose.old }
{
    stepwise::bench_pose(words, pose)
}

// 256 times its gate (`stepwise::bench_gate`), 0 up, 1 down, 2 falling, 3 rising, and the angle of one that falls or rises in the first place. 14 otherwise.
#[unsafe(no_mangle)]
pub extern "C" fn weqhaso_bench_gate(words: &[u32], angle: &mut [f32]) -> u64
    ensures { showed result angle.new ≡ gate_shown words.now angle.old }
{
    stepwise::bench_gate(words, angle)
}

// A recorder under the settings, taken through a list of steps in the lent record (`recording::record_run`): 256 times the bytes of the
// record, up to the end of its last line, and the refusal number of the whole; each step's refusal number, command and train of a lower are
// written beside it.
#[unsafe(no_mangle)]
pub extern "C" fn weqhaso_record(
    values: &[u32],
    letters: &[u8],
    numbers: &[u32],
    readings: &[f32],
    answers: &mut [u8],
    orders: &mut [u8],
    named: &mut [u32],
    out: &mut [u8],
) -> u64
    ensures { RecordAnswered (settings_of values.now)
        (steps_of letters.now numbers.now readings.now)
        (record_refusal (settings_of values.now) letters.now (length numbers.now) (length readings.now)
        (length answers.old) (length orders.old) (length named.old) (length out.old)) result
        (told answers.old orders.old named.old) (told answers.new orders.new named.new)
        out.old out.new }
{
    let settings = Settings::of_values(values);
    match recording::record_run(
        &settings, letters, numbers, readings, answers, orders, named, out,
    ) {
        Ok(recorder) => pack(recorder.at + recorder::CURRENT.line_bytes(), 0),
        Err(refusal) => pack(0, refusal.number()),
    }
}

// 256 times a count, of which 2 ^ 56 is too much, and a refusal number.
fn pack(count: usize, number: u8) -> u64
    ensures { result ≡ pack count number }
{
    (count as u64 % 72057594037927936) * 256 + u64::from(number)
}

// The verdict on a record text (`reader::read`): 256 times the line at fault, and the refusal number; 0 where it is accepted.
#[unsafe(no_mangle)]
pub extern "C" fn weqhaso_read(text: &[u8]) -> u64
    ensures { result ≡ packed (read_text current text.now) }
{
    let outcome = reader::read(text);
    match outcome.verdict {
        Ok(()) => pack(0, 0),
        Err(Fault { refusal, line }) => pack(line, refusal.number()),
    }
}

// 256 times the bytes written, or the line at fault and the refusal number.
fn pack_converted(converted: Result<usize, Fault>) -> u64
    ensures { result ≡ pack_converted (turned converted) }
{
    match converted {
        Ok(bytes) => pack(bytes, 0),
        Err(fault) => pack(fault.line, fault.refusal.number()),
    }
}

// A record text in the old form, turned into the form that the recorder writes (`converter::to_new`): 256 times the bytes written where it is
// taken, else 256 times the line at fault and the refusal number.
#[unsafe(no_mangle)]
pub extern "C" fn weqhaso_to_new(text: &[u8], out: &mut [u8]) -> u64
    ensures { ConvertAnswered Old New text.now out.old result out.new }
{
    pack_converted(converter::to_new(text, out))
}

// And back (`converter::to_old`).
#[unsafe(no_mangle)]
pub extern "C" fn weqhaso_to_old(text: &[u8], out: &mut [u8]) -> u64
    ensures { ConvertAnswered New Old text.now out.old result out.new }
{
    pack_converted(converter::to_old(text, out))
}

// The report of a record text (`report::report`): 256 times the bytes written, and the refusal number, 14 where the buffer is too short.
#[unsafe(no_mangle)]
pub extern "C" fn weqhaso_report(text: &[u8], out: &mut [u8]) -> u64
    ensures { Reports (report_of text.now) out.old result out.new }
{
    match report::report(text, out) {
        Ok(bytes) => pack(bytes, 0),
        Err(refusal) => pack(0, refusal.number()),
    }
}

fn cursor_of(at: usize, now: usize, low: usize, inside: usize) -> Cursor
    ensures { result ≡ cursor_of at now low inside }
{
    Cursor {
        at: at,
        now: now,
        low: 0 < low,
        inside: inside,
    }
}

fn flag_of(b: bool) -> usize
    ensures { result ≡ flag b }
{
    if b { 1 } else { 0 }
}

// What is found: 0 nothing, 1 a stretch that has ended or 2 one that is running; and its first and its last instant.
fn found_numbers(found: Option<Stretch>) -> (usize, usize, usize)
    ensures { result ≡ found_numbers found }
{
    match found {
        None => (0, 0, 0),
        Some(stretch) => (
            if stretch.is_running() { 2 } else { 1 },
            stretch.first(),
            stretch.last(),
        ),
    }
}

// A cursor and what was found before it, by numbers: stored one by one, since between a text and its report
// there is no array but those that tests/arrays names.
#[tactic(auto, using(crate::proofs::Places::numbers_answered))]
fn write_next(found: Option<Stretch>, cursor: Cursor, places: &mut [usize])
    requires { 7 ≤ length places.old }
    ensures { places.new ≡ over (next_numbers (answered found cursor)) places.old }
{
    let (number, first, last) = found_numbers(found);
    places[0] = cursor.at;
    places[1] = cursor.now;
    places[2] = flag_of(cursor.low);
    places[3] = cursor.inside;
    places[4] = number;
    places[5] = first;
    places[6] = last;
}

// The next answer from the cursor in the first four places on, in their place.
fn next_into(sort: Sort, text: &[u8], places: &mut [usize]) -> u8
    ensures { Placed (next_numbers (next_from sort text.now (cursor_in places.old)))
        places.old result places.new }
{
    if places.len() < 7 {
        return Refusal::NoSpace.number();
    }
    let mut cursor = cursor_of(places[0], places[1], places[2], places[3]);
    let found = cursor.next_stretch(sort, text);
    write_next(found, cursor, places);
    0
}

// The cursor before the first step of a text (`stretches::Cursor::start`), in the first four of seven places, and nothing found in the other three:
// 0, or 14 where there are fewer places.
#[unsafe(no_mangle)]
pub extern "C" fn weqhaso_start(places: &mut [usize]) -> u8
    ensures { Placed (next_numbers (nothing_from start_cursor)) places.old result places.new }
{
    if places.len() < 7 {
        return Refusal::NoSpace.number();
    }
    write_next(None, Cursor::start(), places);
    0
}

// The next stretch with the arm below 90 degrees (`stretches::Cursor::next_stretch`), from the cursor in the first four places on: the cursor after
// it there, and in the other three 0 none, 1 ended or 2 running, its first and its last instant. 0, or 14 where there are fewer places.
#[unsafe(no_mangle)]
pub extern "C" fn weqhaso_next_lowered(text: &[u8], places: &mut [usize]) -> u8
    ensures { Placed (next_numbers (next_from Lowered text.now (cursor_in places.old)))
        places.old result places.new }
{
    next_into(Sort::Lowered, text, places)
}

// The next stretch with some train inside (`stretches::Cursor::next_stretch`), in the same way, as they happened: where one begins at the instant
// where the one before it ended, the report joins them.
#[unsafe(no_mangle)]
pub extern "C" fn weqhaso_next_occupied(text: &[u8], places: &mut [usize]) -> u8
    ensures { Placed (next_numbers (next_from Occupied text.now (cursor_in places.old)))
        places.old result places.new }
{
    next_into(Sort::Occupied, text, places)
}

// The instants below 90 degrees of an accepted text (`stretches::tally_lowered`).
#[unsafe(no_mangle)]
pub extern "C" fn weqhaso_below(text: &[u8]) -> usize
    ensures { result ≡ total (stretches_ahead Lowered text.now start_cursor) }
{
    stretches::tally_lowered(text).instants
}
