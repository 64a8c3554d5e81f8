//! A cabinet alone, taken through a list of what it hears that lies in lent slices, as `runs::run` takes a bench.
#![tactic(auto)]

ghost use Rattle.std.specs.Prelude.{◌≡◌, length};
ghost use Rattle.cabinet.specs.Cabinet.{answered};
ghost use Rattle.runs.specs.declared.Feed.TheVariants.{ToCabinet};
ghost use Rattle.runs.specs.Claims.{cabinet_next, cabinet_answer};
ghost use Rattle.runs.specs.Run.{told, Beside, WentThrough};
ghost use Rattle.alone.specs.Alone.{heard_by, heard_of, hearing, alone_refusal, ended, AloneRan};

use bench::Event;
use cabinet::{Cabinet, Order};
use runs::{Feed, Letter};
use settings::{Refusal, Settings};

/// What the cabinet makes of a letter, with the number beside it.
fn hear(cabinet: &mut Cabinet, letter: Option<Letter>, train: u32) -> Result<Option<Order>, Refusal>
    ensures answer { answered result ≡ (hearing cabinet.old (heard_by letter train)).answer }
    ensures cabinet { cabinet.new ≡ (hearing cabinet.old (heard_by letter train)).cabinet }
{
    match letter {
        Some(Letter::Event(Event::Approach(kind))) => cabinet.approach(kind, train),
        Some(Letter::Event(Event::Leave)) => cabinet.leave(train),
        Some(Letter::Clock) => cabinet.clock(),
        Some(Letter::Event(Event::Occupy) | Letter::Command(_)) | None => {
            Err(Refusal::NotInColumns)
        }
    }
}

/// The cabinet taken through the list, each answer, command and train of a lower written beside what it heard.
// The slices lie beside one another, and no struct of them is lent: so C lends them (`weqhaso_cabinet`), each by itself.
fn go_through(
    cabinet: &mut Cabinet,
    letters: &[u8],
    numbers: &[u32],
    answers: &mut [u8],
    orders: &mut [u8],
    named: &mut [u32],
)
    requires { Beside ToCabinet letters.now (length numbers.now) (length numbers.now) (length answers.old) (length orders.old)
        (length named.old) }
    ensures { WentThrough cabinet_next cabinet_answer cabinet.old (heard_of letters.now numbers.now) cabinet.new
        (told answers.old orders.old named.old) (told answers.new orders.new named.new) }
{
    for i in 0..letters.len() {
        let answer = hear(cabinet, Letter::of(letters[i]), numbers[i]);
        let order = runs::given(answer);
        answers[i] = settings::number(&answer);
        orders[i] = runs::letter_byte(order);
        named[i] = runs::train_of(order);
    }
}

/// A fresh cabinet under the settings, taken through the list: A, B, E, F approach of kinds 1 to 4, L leave, T clock. Each answer's refusal
/// number (0 taken), command (D, U or 0) and train of a lower (or 0) are written beside it, all other places keep their contents, and the
/// cabinet after the list comes back. Refused as a whole, nothing is written: as the settings are, `NotInColumns` for any other letter, O too,
/// `NoSpace` for a slice that is too short.
pub fn run(
    settings: &Settings,
    letters: &[u8],
    numbers: &[u32],
    answers: &mut [u8],
    orders: &mut [u8],
    named: &mut [u32],
) -> Result<Cabinet, Refusal>
    ensures { AloneRan settings.now (heard_of letters.now numbers.now)
        (alone_refusal settings.now letters.now (length numbers.now) (length answers.old) (length orders.old)
        (length named.old)) (ended settings.now result)
        (told answers.old orders.old named.old) (told answers.new orders.new named.new) }
{
    runs::check_run(
        Feed::ToCabinet,
        settings,
        letters,
        numbers.len(),
        numbers.len(),
        answers.len(),
        orders.len(),
        named.len(),
    )?;
    let mut cabinet = Cabinet::fresh(*settings);
    go_through(&mut cabinet, letters, numbers, answers, orders, named);
    Ok(cabinet)
}
