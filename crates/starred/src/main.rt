//! The starred cases through the built functions, as three tables. Each check is proved: by the contracts of what it calls, and by what the rules
//! give for the whole table.
#![tactic(auto)]

ghost use Rattle.std.specs.Prelude.{◌≡◌};
ghost use Rattle.starred.specs.Tables.{FallsRight, ChangesRight, ruled, expected, ListsRight};

// a: a fall rate, and D.
#[derive(Clone, Copy)]
struct Fall(u32, u32);

const FALLS: [Fall; 5] = [
    Fall(5760, 1),
    Fall(2880, 2),
    Fall(1921, 3),
    Fall(1919, 4),
    Fall(1, 5760),
];

// b, c, d: E, Q, X and Y of settings that are K but for these, and their refusal number.
#[derive(Clone, Copy)]
struct Change(u32, u32, u32, u32, u8);

const CHANGES: [Change; 5] = [
    Change(3, 5760, 3, 1, 0),
    Change(2, 5760, 3, 1, 2),
    Change(3, 5760, 2, 1, 3),
    Change(3, 2880, 3, 1, 4),
    Change(3, 5760, 3, 0, 1),
];

// e to j: a list of so many steps under K, the refusal number of each, 0 where it is taken, the letter of its command, 0 where it gives
// none, and the train of a lower, 0 for none. The places past its steps are blank or 0.
#[derive(Clone, Copy)]
struct Listed {
    steps: usize,
    letters: [u8; 9],
    numbers: [u32; 9],
    readings: [f32; 9],
    answers: [u8; 9],
    orders: [u8; 9],
    named: [u32; 9],
}

const LISTS: [Listed; 7] = [
    // e: an occupy at 2 is refused, 8, and taken at 3.
    Listed {
        steps: 6,
        letters: *b"ATTOTO   ",
        numbers: [1, 0, 0, 1, 0, 1, 0, 0, 0],
        readings: [0.0, 90.0, 45.0, 0.0, 0.0, 0.0, 0.0, 0.0, 0.0],
        answers: [0, 0, 0, 8, 0, 0, 0, 0, 0],
        orders: [0, b'D', 0, 0, 0, 0, 0, 0, 0],
        named: [0, 1, 0, 0, 0, 0, 0, 0, 0],
    },
    // f: the same train still coming at 4: clock 11.
    Listed {
        steps: 6,
        letters: *b"ATTTTT   ",
        numbers: [1, 0, 0, 0, 0, 0, 0, 0, 0],
        readings: [0.0, 90.0, 45.0, 0.0, 0.0, 0.0, 0.0, 0.0, 0.0],
        answers: [0, 0, 0, 0, 0, 11, 0, 0, 0],
        orders: [0, b'D', 0, 0, 0, 0, 0, 0, 0],
        named: [0, 1, 0, 0, 0, 0, 0, 0, 0],
    },
    // g: train 0 or 65,536: 5; train 65,535 is taken.
    Listed {
        steps: 3,
        letters: *b"AAA      ",
        numbers: [0, 65536, 65535, 0, 0, 0, 0, 0, 0],
        readings: [0.0, 0.0, 0.0, 0.0, 0.0, 0.0, 0.0, 0.0, 0.0],
        answers: [5, 5, 0, 0, 0, 0, 0, 0, 0],
        orders: [0, 0, 0, 0, 0, 0, 0, 0, 0],
        named: [0, 0, 0, 0, 0, 0, 0, 0, 0],
    },
    // h: command down from 5,760: 2,881 is refused, 13, and 2,880 taken.
    Listed {
        steps: 4,
        letters: *b"ATTT     ",
        numbers: [1, 0, 0, 0, 0, 0, 0, 0, 0],
        readings: [0.0, 90.0, 45.015625, 45.0, 0.0, 0.0, 0.0, 0.0, 0.0],
        answers: [0, 0, 13, 0, 0, 0, 0, 0, 0],
        orders: [0, b'D', 0, 0, 0, 0, 0, 0, 0],
        named: [0, 1, 0, 0, 0, 0, 0, 0, 0],
    },
    // i: command down at 0: an angle of 1 is refused, 13.
    Listed {
        steps: 5,
        letters: *b"ATTTT    ",
        numbers: [1, 0, 0, 0, 0, 0, 0, 0, 0],
        readings: [0.0, 90.0, 45.0, 0.0, 0.015625, 0.0, 0.0, 0.0, 0.0],
        answers: [0, 0, 0, 0, 13, 0, 0, 0, 0],
        orders: [0, b'D', 0, 0, 0, 0, 0, 0, 0],
        named: [0, 1, 0, 0, 0, 0, 0, 0, 0],
    },
    // j: train 1 inside at 4, approach of 2 and then leave of 1: no raise.
    Listed {
        steps: 8,
        letters: *b"ATTTOTAL ",
        numbers: [1, 0, 0, 0, 1, 0, 2, 1, 0],
        readings: [0.0, 90.0, 45.0, 0.0, 0.0, 0.0, 0.0, 0.0, 0.0],
        answers: [0, 0, 0, 0, 0, 0, 0, 0, 0],
        orders: [0, b'D', 0, 0, 0, 0, 0, 0, 0],
        named: [0, 1, 0, 0, 0, 0, 0, 0, 0],
    },
    // j, the other order: raise, then lower at 5.
    Listed {
        steps: 9,
        letters: *b"ATTTOTLAT",
        numbers: [1, 0, 0, 0, 1, 0, 1, 2, 0],
        readings: [0.0, 90.0, 45.0, 0.0, 0.0, 0.0, 0.0, 0.0, 90.0],
        answers: [0, 0, 0, 0, 0, 0, 0, 0, 0],
        orders: [0, b'D', 0, 0, 0, 0, b'U', 0, b'D'],
        named: [0, 1, 0, 0, 0, 0, 0, 0, 2],
    },
];

// D for each fall rate, and the refusal number of each settings.
fn check_settings(falls: &[Fall], changes: &[Change])
    requires { FallsRight falls.now × ChangesRight changes.now }
{
    for fall in falls {
        check::expect(settings::ticks_for(fall.0) == fall.1);
    }
    for change in changes {
        let settings = worked::settings_like(change.0, change.1, change.2, change.3);
        check::expect(settings::number(&settings.check()) == change.4);
    }
}

// A run of the list under K writes its numbers, its commands and the trains of its lowers.
fn check_list(list: &Listed)
    requires { ruled list.now ≡ expected list.now }
{
    let mut answers = [0u8; 9];
    let mut orders = [0u8; 9];
    let mut named = [0u32; 9];
    let _ = runs::run(
        &worked::settings_k(),
        &list.letters[..list.steps],
        &list.numbers,
        &list.readings,
        &mut answers,
        &mut orders,
        &mut named,
    );
    check::expect(answers == list.answers);
    check::expect(orders == list.orders);
    check::expect(named == list.named);
}

// Each list of the table.
fn check_lists(lists: &[Listed])
    requires { ListsRight lists.now }
{
    for list in lists {
        check_list(list);
    }
}

fn main() {
    check_settings(&FALLS, &CHANGES);
    check_lists(&LISTS);
}
