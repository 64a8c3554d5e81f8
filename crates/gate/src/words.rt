//! What the program says: bytes on standard output, refusals and failures in words on standard error.

use crate::Problem;
use settings::Refusal;
use std::io;

/// On standard output; a failure is said.
pub(crate) fn put_out<R: Print + Eprint + AllocGlobal>(
    rt: &R,
    bytes: &[u8],
) -> Result<(), Problem> {
    rt.write_all(bytes)
        .map_err(|e| say_failure(rt, "standard output", e))
}

/// A message of the system without its number.
fn without_number(message: &str) -> &str {
    match message.split_once(" (os error ") {
        Some((words, _)) => words,
        None => message,
    }
}

/// A read or a write that failed, in the system's words.
pub(crate) fn say_failure<R: Eprint + AllocGlobal>(rt: &R, what: &str, e: io::Error) -> Problem {
    let _ = match format!(in rt.alloc(); "{e}") {
        Ok(message) => {
            let words = without_number(message.as_str());
            eprintln!(rt; "gate: {what}: {words}")
        }
        Err(_) => eprintln!(rt; "gate: {what}"),
    };
    Problem::Failed
}

/// The line, the number and the words of a refusal; what it means that a line stands for nothing there is the caller's to say.
pub(crate) fn say_refusal<R: Eprint>(
    rt: &R,
    line: u64,
    refusal: Refusal,
    no_meaning: &'static str,
) {
    let number = refusal.number();
    let _ = match refusal {
        Refusal::NotInColumns => eprintln!(rt; "line {line}: refused {number}: {no_meaning}"),
        _ => eprintln!(rt; "line {line}: refused {number}: {refusal}"),
    };
}
