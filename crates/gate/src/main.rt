//! The program, standard input to standard output: `gate bench` runs a bench live, `gate report` writes a record's report, `gate to-new` and
//! `gate to-old` the record in the other form. Its status is 0; 1 where a text or a step was refused; 2 where it was called wrongly or could not
//! read or write. With `status-on-3` before the word it writes the status's digit to descriptor 3 too, at its end.
#![tactic(auto)]

mod keyboard;
mod words;

ghost use Rattle.std.specs.Prelude.{◌≡◌, ◌≤◌, length};
ghost use Rattle.std.specs.Io.{ReadsAtMost};
ghost use Rattle.report.specs.Report.{report_of};
ghost use Rattle.converter.specs.Convert.{turned};
ghost use Rattle.gate.specs.Word.{task_of};
ghost use Rattle.gate.specs.Status.{status_of};
ghost use Rattle.gate.specs.Held.{Held, Turned};

use lines::Layout;
use reader::Fault;
use std::env::FillError;
use std::fs::OpenOptions;
use std::io;
use std::io::{Input, Read, Write};
use std::process::ExitCode;
use std::rt::{Env, Files};
use words::{put_out, say_failure, say_refusal};

/// Why a call does not end well; as a number, its status.
#[derive(Clone, Copy, Debug, PartialEq, Eq)]
pub(crate) enum Problem {
    /// A text or a step was refused, which has been said.
    Refused = 1,
    /// The call was wrong, or a read or a write failed, which has been said.
    Failed = 2,
}

/// What the command line asks for.
#[derive(Clone, Copy)]
enum Task {
    Bench,
    Report,
    ToNew,
    ToOld,
    Usage,
}

/// What the command line asks for, and whether the status is to be told.
#[derive(Clone, Copy)]
struct Call {
    task: Task,
    tells: bool,
}

/// Reads to the end of the input, or until the buffer is full: how many bytes. Each read goes on where the one before it ended.
fn fill<I: Read>(input: &mut I, buffer: &mut [u8]) -> io::Result<usize>
    ensures { ReadsAtMost result buffer.new }
{
    let mut filled = 0;
    while filled < buffer.len() {
        let more = input.read(&mut buffer[filled..])?;
        if more == 0 {
            break;
        }
        filled += more;
    }
    Ok(filled)
}

/// Standard input, up to the buffer's end: how many bytes.
fn read_input<R: Input + Eprint + AllocGlobal>(rt: &R, buffer: &mut [u8]) -> Result<usize, Problem>
    ensures { ReadsAtMost result buffer.new }
{
    fill(&mut rt.reader(), buffer).map_err(|e| say_failure(rt, "standard input", e))
}

/// What a word of the command line asks for.
#[tactic(auto, using(crate::proofs::Tasks::word_is))]
fn task_of(word: &str) -> Task
    ensures { result ≡ task_of word.now }
{
    match word {
        "bench" => Task::Bench,
        "report" => Task::Report,
        "to-new" => Task::ToNew,
        "to-old" => Task::ToOld,
        _ => Task::Usage,
    }
}

/// Word i of the command line, the program's name being word 0. One that is no text, or longer than the buffer, is no word of the program's.
fn word_at<'a, R: Env>(rt: &R, i: usize, buffer: &'a mut [u8]) -> Option<&'a str> {
    let n = rt.arg(i, buffer).ok()?;
    str::from_utf8(&buffer[..n]).ok()
}

/// What the command line asks for: one word, or `status-on-3` and one.
fn asked<R: Env>(rt: &R) -> Call {
    let mut buffer = [0u8; 4096];
    let tells = word_at(rt, 1, &mut buffer) == Some("status-on-3");
    let last = if tells { 2 } else { 1 };
    let Err(FillError::NotPresent) = rt.arg(last + 1, &mut buffer) else {
        return Call {
            task: Task::Usage,
            tells,
        };
    };
    let task = word_at(rt, last, &mut buffer).map_or(Task::Usage, task_of);
    Call { task, tells }
}

/// The status's digit on descriptor 3, where the caller has it open: std writes to it by its name alone.
fn tell<R: Files>(rt: &R, status: u8)
where
    R::File: Drop,
{
    if let Ok(mut told) = OpenOptions::new().append(true).open(rt, "/dev/fd/3") {
        let _ = write!(told, "{status}");
    }
}

/// The report of a text, at the start of a buffer that holds every report, its other bytes as they were: how many bytes the report has.
#[tactic(auto, using(crate::proofs::Counts::report_fits, crate::proofs::Counts::report_held, report::proofs::Bounds::report_few))]
fn make_report(text: &[u8], out: &mut [u8]) -> usize
    requires { 156000 ≤ length out.old }
    ensures { Held result (report_of text.now) out.old out.new }
{
    report::report(text, out).unwrap()
}

/// Whether a report is that of a refused text: its one line has the letter R.
fn is_refusal(report: &[u8]) -> bool {
    matches!(report.get(17), Some(b'R'))
}

/// The report of standard input, on standard output. One byte above the report's limit is enough to know that a text is too long.
fn report_input<R: Input + Print + Eprint + AllocGlobal>(rt: &R) -> Result<(), Problem> {
    let mut text = zeros::<65536>();
    let mut out = zeros::<156000>();
    let n = read_input(rt, &mut text)?;
    let bytes = make_report(&text[..n], &mut out);
    put_out(rt, &out[..bytes])?;
    if is_refusal(&out[..bytes]) {
        return Err(Problem::Refused);
    }
    Ok(())
}

/// A text of the form `f` in the other form, at the start of a buffer that holds it whole, its other bytes as they were.
#[tactic(auto, using(crate::proofs::Counts::turned_held))]
fn make_text(f: Layout, text: &[u8], out: &mut [u8]) -> Result<usize, Fault>
    requires { (length text.now ≤ 1000000) × (1066800 ≤ length out.old) }
    ensures { Turned f text.now (turned result) out.old out.new }
{
    match f {
        Layout::Old => converter::to_new(text, out),
        Layout::New => converter::to_old(text, out),
    }
}

/// So many zeros.
pub(crate) fn zeros<const N: usize>() -> [u8; N]
    ensures { N ≡ length result }
{
    [0; N]
}

/// A text of the form `f` in the other form, on standard output; a refusal on standard error.
fn write_text<R: Print + Eprint + AllocGlobal>(
    rt: &R,
    f: Layout,
    text: &[u8],
) -> Result<(), Problem>
    requires { length text.now ≤ 1000000 }
{
    let mut out = zeros::<1066800>();
    match make_text(f, text, &mut out) {
        Ok(bytes) => put_out(rt, &out[..bytes]),
        Err(fault) => {
            say_refusal(
                rt,
                fault.line as u64,
                fault.refusal,
                "the line is not in the columns, is missing, or follows the last",
            );
            Err(Problem::Refused)
        }
    }
}

/// Standard input in the other form. One byte above the limit is enough to know that a text is too long.
fn convert_input<R: Input + Print + Eprint + AllocGlobal>(
    rt: &R,
    f: Layout,
) -> Result<(), Problem> {
    let mut text = zeros::<1000001>();
    let n = read_input(rt, &mut text)?;
    if 1000000 < n {
        let _ = eprintln!(rt; "gate: the record is longer than 1,000,000 bytes");
        return Err(Problem::Failed);
    }
    write_text(rt, f, &text[..n])
}

const USAGE: &str = "usage: gate WORD < INPUT > OUTPUT
bench: runs a bench, settings and steps in, the lines of its record out as they are made
report: the report of a record
to-new: a record of 14 columns in 15 columns
to-old: a record of 15 columns in 14 columns";

/// How the program is used.
fn usage<R: Eprint>(rt: &R) -> Result<(), Problem> {
    let _ = eprintln!(rt; "{USAGE}");
    Err(Problem::Failed)
}

fn run<R: Input + Print + Eprint + AllocGlobal>(rt: &R, task: Task) -> Result<(), Problem> {
    match task {
        Task::Bench => keyboard::bench_input(rt),
        Task::Report => report_input(rt),
        Task::ToNew => convert_input(rt, Layout::Old),
        Task::ToOld => convert_input(rt, Layout::New),
        Task::Usage => usage(rt),
    }
}

/// The status that a call ends with.
fn status_of(ended: Result<(), Problem>) -> u8
    ensures { result ≡ status_of ended }
{
    match ended {
        Ok(()) => 0,
        Err(problem) => problem as u8,
    }
}

fn main(rt: HostRuntime) -> ExitCode {
    let call = asked(&rt);
    let status = status_of(run(&rt, call.task));
    if call.tells {
        tell(&rt, status);
    }
    ExitCode::from(status)
}
