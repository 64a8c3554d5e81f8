//! What a line of the input of `gate bench` means: settings, a step, or nothing; every other line is wrong. A reading goes exactly to 64ths of a degree,
//! with no float between.
#![tactic(auto)]

mod field;
mod number;

ghost use Rattle.std.specs.Prelude.{◌≡◌, ◌∷◌, []};
ghost use Rattle.runs.specs.Letters.{letter_of};
ghost use Rattle.steplines.specs.Fields.{fields};
ghost use Rattle.steplines.specs.StepLine.{step_with, step_of, start_with, start_of, is_comment, meaning_of, meant, taken, started};

use crate::field::Fields;
use crate::number::{Decimal, whole_number};
pub use field::is_word;
use runs::{Letter, Step};
use settings::Settings;

/// What a line of the input asks for.
#[derive(Clone, Copy)]
pub enum Typed {
    /// Nothing: an empty line or a comment.
    Skip,
    /// A bench with these settings.
    Start(Settings),
    /// A step of the bench.
    Take(Step),
}

/// The line is no settings and no step: refused 15.
#[derive(Clone, Copy, Debug, PartialEq, Eq)]
pub struct NoMeaning;

/// The most bytes of a line that is no comment.
const LONGEST: usize = 1000;

/// The most values of a line of settings.
const VALUES: usize = 13;

/// What a letter means with the field beside it.
#[tactic(auto, using(crate::proofs::Lines::clock_read_law, crate::proofs::Lines::clock_wrong))]
fn step_with(letter: u8, field: &[u8]) -> Option<Step>
    ensures { taken result ≡ step_with (letter_of letter) field.now }
{
    match Letter::of(letter) {
        Some(Letter::Event(event)) => Some(Step::of_event(event, whole_number(field)?)),
        Some(Letter::Clock) => Some(Step::Clock(Decimal::parse(field)?.degrees())),
        Some(Letter::Command(_)) | None => None,
    }
}

/// A letter, and the fields after it, of which there must be one.
fn step_of(letter: u8, mut later: Fields) -> Option<Step>
    ensures { taken result ≡ step_of (letter ∷ []) (fields later.entry.rest.now) }
{
    let field = later.next()?;
    match later.next() {
        None => step_with(letter, field),
        Some(_) => None,
    }
}

/// All values, or those up to the times of kind 1, which kinds 2 to 4 get too.
#[tactic(auto, unfolding(crate::specs::StepLine::start_with))]
fn start_with(count: usize, settings: Settings) -> Option<Settings>
    ensures { started result ≡ start_with count settings }
{
    match count {
        VALUES => Some(settings),
        7 => Some(settings.with_kinds_alike()),
        _ => None,
    }
}

/// The values after the word.
fn start_of(later: Fields) -> Option<Settings>
    ensures { started result ≡ start_of (fields later.entry.rest.now) }
{
    let mut settings = Settings::none();
    let mut count = 0;
    for field in later {
        if count == VALUES {
            return None;
        }
        count += 1;
        settings.set(count, whole_number(field)?);
    }
    start_with(count, settings)
}

/// Whether the line begins with `#`.
fn is_comment(line: &[u8]) -> bool
    ensures { result ≡ is_comment line.now }
{
    matches!(line, [b'#', ..])
}

/// The meaning of a line, without its byte 10.
pub fn meaning_of(line: &[u8]) -> Result<Typed, NoMeaning>
    ensures { meant result ≡ meaning_of line.now }
{
    if is_comment(line) {
        return Ok(Typed::Skip);
    }
    if LONGEST < line.len() {
        return Err(NoMeaning);
    }
    let mut fields = Fields { rest: line };
    let Some(word) = fields.next() else {
        return Ok(Typed::Skip);
    };
    if is_word(b"settings", word) {
        return start_of(fields).map(Typed::Start).ok_or(NoMeaning);
    }
    match word {
        [letter] => step_of(*letter, fields).map(Typed::Take).ok_or(NoMeaning),
        _ => Err(NoMeaning),
    }
}
