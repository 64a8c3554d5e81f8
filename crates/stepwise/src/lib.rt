//! A cabinet and a bench in words that the caller lends, one call a step. A clock step reads and writes words beside the table alone; a
//! train's step reads the table, and writes the words of one entry.
//!
//! The words may hold anything, and are read as some cabinet or bench whatever they hold. What C lends and gets stays words: an exported
//! function takes no enum, and a struct of numbers by value costs as much again as a step.
#![tactic(auto)]

ghost use Rattle.std.specs.Prelude.{◌+◌, ◌<◌, ◌≤◌, ◌≡◌, true, ◌++◌, length, map, position, IfSome, IfOk, IfErr};
ghost use Rattle.lines.specs.Bytes.{splice};
ghost use Rattle.settings.specs.Refusal.{judged};
ghost use Rattle.settings.specs.Settings.{number_of};
ghost use Rattle.settings.specs.Values.{thirteen, settings_of};
ghost use Rattle.arm.specs.Shown as arm;
ghost use Rattle.trains.specs.Table.{is_of, is_free, found_for};
ghost use Rattle.trains.specs.First.{own_but, first_but, rest_of};
ghost use Rattle.cabinet.specs.Cabinet.{answered, order, looked_at};
ghost use Rattle.runs.specs.Letters.{letter_of};
ghost use Rattle.stepwise.specs.Words.{soonest_at, table_at, place_at, cabinet_length, bench_length, command_from, command_number, kind_from, kind_as, standing_from, standing_number, entry_in, entry_words, table_from};
ghost use Rattle.stepwise.specs.Words.{entries_words, first_in, first_words, settings_from, ticks_from, ticks_words, control_from};
ghost use Rattle.stepwise.specs.Words.{cabinet_words, head_from, arm_words, bench_words};
ghost use Rattle.stepwise.specs.Calls.{called, packed_answer, QuietTick, StillTick, lent, put_clock, put_control, put_motion, put_step, kind_named};
ghost use Rattle.stepwise.specs.CabinetCalls as cabinetCall;
ghost use Rattle.stepwise.specs.CabinetCalls.{cabinet_started, cabinet_called};
ghost use Rattle.stepwise.specs.BenchCalls as benchCall;
ghost use Rattle.stepwise.specs.BenchCalls.{bench_started, bench_reads, bench_called};
ghost use Rattle.stepwise.specs.Shown.{gate_number, showed, pose_shown, gate_shown};

use arm::{Command, Gate, Pose};
use bench::{Bench, Event, Head, Motion};
use cabinet::{Cabinet, Control, LAST_INSTANT, Order};
use runs::{Letter, given, letter_byte, train_of};
use settings::{Kind, Refusal, Settings, Ticks, Times, number};
use trains::{Due, Entry, Question, Standing, Table, train_number};

// Where the words lie: the thirteen settings from 0 on, D and U; then the instant and the command, the soonest train, and the table.
const TICKS: usize = 13;

const CONTROL: usize = 15;

const SOONEST: usize = 17;

const TABLE: usize = 21;

const CABINET: usize = 405;

// A bench has six more: the arm's two angles, and the coming train that is first at its latest.
const ARM: usize = 405;

const LATEST: usize = 407;

const BENCH: usize = 411;

// ---- numbers: functions here and no `From`, since both types of each belong to other crates

/// 0 up, otherwise down.
fn command_from(word: u32) -> Command
    ensures { result ≡ command_from word }
{
    match word {
        0 => Command::Up,
        _ => Command::Down,
    }
}

/// 0 up, 1 down.
pub fn command_number(command: Command) -> u32
    ensures { result ≡ command_number command }
{
    match command {
        Command::Up => 0,
        Command::Down => 1,
    }
}

/// 2 to 4 are kinds 2 to 4, otherwise kind 1.
fn kind_from(word: u32) -> Kind
    ensures { result ≡ kind_from word }
{
    match word {
        2 => Kind::Empty,
        3 => Kind::Engine,
        4 => Kind::RailCar,
        _ => Kind::Loaded,
    }
}

/// 1 to 4.
pub fn kind_as(kind: Kind) -> u32
    ensures { result ≡ kind_as kind }
{
    match kind {
        Kind::Loaded => 1,
        Kind::Empty => 2,
        Kind::Engine => 3,
        Kind::RailCar => 4,
    }
}

/// 0 away, 1 coming, otherwise inside, since the instant.
fn standing_from(word: u32, instant: u32) -> Standing
    ensures { result ≡ standing_from word instant }
{
    match word {
        0 => Standing::Away,
        1 => Standing::Coming(instant),
        _ => Standing::Inside(instant),
    }
}

/// 0 away, 1 coming, 2 inside.
pub fn standing_number(standing: Standing) -> u32
    ensures { result ≡ standing_number standing }
{
    match standing {
        Standing::Away => 0,
        Standing::Coming(_) => 1,
        Standing::Inside(_) => 2,
    }
}

// ---- from words

/// The entry that four words hold.
fn entry_from(words: &[u32; 4]) -> Entry
    ensures { result ≡ entry_in words.now 0 }
{
    Entry {
        standing: standing_from(words[2], words[3]),
        number: (words[0] % 65_536) as u16,
        kind: kind_from(words[1]),
    }
}

/// The train that is first, if any, by the four words from `at` on.
fn first_from(words: &[u32], at: usize) -> Option<Due>
    requires { at + 4 ≤ length words.now }
    ensures { result ≡ first_in words.now at }
{
    if words[at] == 0 {
        return None;
    }
    let low = u64::from(words[at + 2]);
    let high = u64::from(words[at + 3]);
    Some(Due {
        instant: low + 4_294_967_296 * high,
        train: words[at + 1],
    })
}

#[tactic(auto, unfolding(crate::specs::Words::settings_from))]
fn settings_from(words: &[u32]) -> Settings
    requires { cabinet_length ≤ length words.now }
    ensures { result ≡ settings_from words.now }
{
    Settings {
        loaded: Times {
            earliest: words[0],
            latest: words[1],
        },
        fall: words[2],
        rise: words[3],
        worthwhile: words[4],
        ahead: words[5],
        behind: words[6],
        empty: Times {
            earliest: words[7],
            latest: words[8],
        },
        engine: Times {
            earliest: words[9],
            latest: words[10],
        },
        railcar: Times {
            earliest: words[11],
            latest: words[12],
        },
    }
}

fn ticks_from(words: &[u32]) -> Ticks
    requires { cabinet_length ≤ length words.now }
    ensures { result ≡ ticks_from words.now }
{
    Ticks {
        fall: words[TICKS],
        rise: words[TICKS + 1],
    }
}

fn control_from(words: &[u32]) -> Control
    requires { cabinet_length ≤ length words.now }
    ensures { result ≡ control_from words.now }
{
    Control {
        now: words[CONTROL],
        command: command_from(words[CONTROL + 1]),
    }
}

#[tactic(auto, unfolding(crate::specs::Words::head_from))]
fn motion_from(words: &[u32]) -> Motion
    requires { bench_length ≤ length words.now }
    ensures { result ≡ (head_from words.now).motion }
{
    Motion {
        control: control_from(words),
        angle: (words[ARM] % 65_536) as u16,
        previous: (words[ARM + 1] % 65_536) as u16,
    }
}

/// The bench without its table.
#[tactic(auto, unfolding(crate::specs::Words::head_from))]
fn head_from(words: &[u32]) -> Head
    requires { bench_length ≤ length words.now }
    ensures { result ≡ head_from words.now }
{
    Head {
        settings: settings_from(words),
        ticks: ticks_from(words),
        motion: motion_from(words),
        soonest: first_from(words, SOONEST),
        latest: first_from(words, LATEST),
    }
}

// ---- the table, asked where it lies

/// The words of its entries.
#[tactic(auto, using(crate::proofs::Search::chunks_there))]
fn entries(words: &[u32]) -> &[[u32; 4]]
    requires { cabinet_length ≤ length words.now }
    ensures entries { map (λ entry. entry_in entry 0) result.now ≡ (table_from words.now).places }
    ensures many { length result.now ≡ 96 }
{
    let (entries, _) = words[TABLE..CABINET].as_chunks::<4>();
    entries
}

/// The entry at a place.
fn entry_at(words: &[u32], place: usize) -> Entry
    requires { (cabinet_length ≤ length words.now) × (place < 96) }
    ensures { result ≡ entry_in words.now (place_at place) }
{
    let i = TABLE + 4 * place;
    entry_from(&[words[i], words[i + 1], words[i + 2], words[i + 3]])
}

/// The place of a train, if it is present.

fn place_of(words: &[u32], train: u32) -> Option<usize>
    requires { cabinet_length ≤ length words.now }
    ensures place { result ≡ position (is_of train) (table_from words.now).places }
    ensures room { IfSome result (λ place. place < 96) }
{
    entries(words)
        .iter()
        .position(|entry| entry_from(entry).is_of(train))
}

/// The first place that no train has.

fn free_place(words: &[u32]) -> Option<usize>
    requires { cabinet_length ≤ length words.now }
    ensures place { result ≡ position is_free (table_from words.now).places }
    ensures room { IfSome result (λ place. place < 96) }
{
    entries(words)
        .iter()
        .position(|entry| entry_from(entry).is_free())
}

/// As `Table::find` of the table that the words hold.
#[tactic(auto, using(crate::proofs::Search::find_own, crate::proofs::Search::find_free))]
fn find(words: &[u32], train: u32) -> Result<usize, Option<usize>>
    requires { cabinet_length ≤ length words.now }
    ensures found { result ≡ found_for (table_from words.now) train }
    ensures own { IfOk result (λ place. place < 96) }
    ensures free { IfErr result (λ free. IfSome free (λ place. place < 96)) }
{
    match place_of(words, train) {
        Some(place) => Ok(place),
        None => Err(free_place(words)),
    }
}

/// The train of an entry with the instant that is asked for, where it has one and is another than this one.
#[tactic(auto, unfolding(trains::specs::First::own_but, trains::specs::First::own_of))]
fn own_but(entry: &[u32; 4], settings: &Settings, question: Question, train: u32) -> Option<Due>
    ensures { result ≡ own_but settings.now question train (entry_in entry.now 0) }
{
    entry_from(entry)
        .own(settings, question)
        .filter(|due| due.train != train)
}

/// As `Table::rest` of the table that the words hold.
#[tactic(auto, unfolding(trains::specs::First::rest_of))]
fn rest(
    words: &[u32],
    settings: &Settings,
    question: Question,
    was: Option<Due>,
    train: u32,
) -> Option<Due>
    requires { cabinet_length ≤ length words.now }
    ensures { result ≡ rest_of settings.now question was train (table_from words.now) }
{
    if Due::is_named(was, train) {
        first_but(words, settings, question, train)
    } else {
        was
    }
}

/// As `Table::first_but` of the table that the words hold.
fn first_but(words: &[u32], settings: &Settings, question: Question, train: u32) -> Option<Due>
    requires { cabinet_length ≤ length words.now }
    ensures { result ≡ first_but settings.now question train (table_from words.now) }
{
    let own = |entry: &[u32; 4]| own_but(entry, settings, question, train);
    entries(words).iter().filter_map(own).min()
}

// ---- to words

fn entry_words(entry: Entry) -> [u32; 4]
    ensures { result ≡ entry_words entry }
{
    [
        u32::from(entry.number),
        kind_as(entry.kind),
        standing_number(entry.standing),
        entry.standing.since(),
    ]
}

fn first_words(first: Option<Due>) -> [u32; 4]
    ensures { result ≡ first_words first }
{
    match first {
        None => [0; 4],
        Some(due) => [
            1,
            due.train,
            (due.instant % 4_294_967_296) as u32,
            (due.instant / 4_294_967_296) as u32,
        ],
    }
}

fn arm_words(motion: Motion) -> [u32; 2]
    ensures { result ≡ arm_words motion.angle motion.previous }
{
    [u32::from(motion.angle), u32::from(motion.previous)]
}

fn settings_words(settings: &Settings, ticks: Ticks) -> [u32; 15]
    ensures { result ≡ thirteen settings.now ++ ticks_words ticks }
{
    [
        settings.loaded.earliest,
        settings.loaded.latest,
        settings.fall,
        settings.rise,
        settings.worthwhile,
        settings.ahead,
        settings.behind,
        settings.empty.earliest,
        settings.empty.latest,
        settings.engine.earliest,
        settings.engine.latest,
        settings.railcar.earliest,
        settings.railcar.latest,
        ticks.fall,
        ticks.rise,
    ]
}

/// Writes values from `at` on.
#[inline(always)]
fn put(words: &mut [u32], at: usize, values: &[u32])
    requires { at + length values.now ≤ length words.old }
    ensures { words.new ≡ splice words.old at values.now }
{
    words[at..at + values.len()].copy_from_slice(values);
}

fn put_control(words: &mut [u32], control: Control)
    requires { cabinet_length ≤ length words.old }
    ensures { words.new ≡ put_control words.old control }
{
    put(
        words,
        CONTROL,
        &[control.now, command_number(control.command)],
    );
}

fn put_entry(words: &mut [u32], place: usize, entry: Entry)
    requires { (cabinet_length ≤ length words.old) × (place < 96) }
    ensures { words.new ≡ splice words.old (place_at place) (entry_words entry) }
{
    put(words, TABLE + 4 * place, &entry_words(entry));
}

// By value: of a table behind a reference no proof knows that it has 96 places.
#[tactic(auto, using(trains::proofs::Lists::length_mapped, crate::proofs::Words::writing_start, crate::proofs::Words::writing_next, crate::proofs::Words::writing_end, crate::proofs::Words::writing_length))]
fn put_table(words: &mut [u32], table: Table)
    requires { cabinet_length ≤ length words.old }
    ensures { words.new ≡ splice words.old table_at (entries_words table.places) }
{
    for (place, entry) in table.places.iter().enumerate() {
        put_entry(words, place, *entry);
    }
}

/// All words of a cabinet.
#[tactic(auto, using(lines::proofs::Splices::length_splice, crate::proofs::Words::cabinet_spliced))]
fn put_cabinet(words: &mut [u32], cabinet: Cabinet)
    requires { cabinet_length ≤ length words.old }
    ensures { words.new ≡ splice words.old 0 (cabinet_words cabinet) }
{
    put(words, 0, &settings_words(&cabinet.settings, cabinet.ticks));
    put_control(words, cabinet.control);
    put(words, SOONEST, &first_words(cabinet.soonest));
    put_table(words, cabinet.table);
}

/// All words of a bench.
fn put_bench(words: &mut [u32], bench: Bench)
    requires { bench_length ≤ length words.old }
    ensures { words.new ≡ splice words.old 0 (bench_words bench) }
{
    let motion = bench.head.motion;
    let cabinet = Cabinet {
        settings: bench.head.settings,
        ticks: bench.head.ticks,
        control: motion.control,
        soonest: bench.head.soonest,
        table: bench.table,
    };
    put_cabinet(words, cabinet);
    put(words, ARM, &arm_words(motion));
    put(words, LATEST, &first_words(bench.head.latest));
}

/// What a train's step changes of a cabinet: instant and command, the soonest train, and the entry at the train's place.
fn put_step(words: &mut [u32], control: Control, soonest: Option<Due>, place: usize, entry: Entry)
    requires { (cabinet_length ≤ length words.old) × (place < 96) }
    ensures { words.new ≡ put_step words.old control soonest place entry }
{
    put_control(words, control);
    put(words, SOONEST, &first_words(soonest));
    put_entry(words, place, entry);
}

/// What a clock step changes: the instant, and the command where one is given.
fn put_clock(words: &mut [u32], order: Option<Order>, control: Control)
    requires { cabinet_length ≤ length words.old }
    ensures { words.new ≡ put_clock words.old order control }
{
    match order {
        None => words[CONTROL] = control.now,
        Some(_) => put_control(words, control),
    }
}

/// And of a bench: the arm too.
fn put_motion(words: &mut [u32], order: Option<Order>, motion: Motion)
    requires { bench_length ≤ length words.old }
    ensures { words.new ≡ put_motion words.old order motion }
{
    put(words, ARM, &arm_words(motion));
    put_clock(words, order, motion.control);
}

// ---- answers

/// The refusal number, 256 times the letter of the command, and 65,536 times the train of a lower.
fn pack(answer: Result<Option<Order>, Refusal>) -> u64
    ensures { result ≡ packed_answer (answered answer) }
{
    let order = given(answer);
    let number = u64::from(number(&answer));
    let letter = u64::from(letter_byte(order));
    let train = u64::from(train_of(order));
    number + 256 * letter + 65536 * train
}

/// The kind of approach that a letter names: A, B, E, F.
fn kind_named(byte: u8) -> Option<Kind>
    ensures { result ≡ kind_named (letter_of byte) }
{
    match Letter::of(byte) {
        Some(Letter::Event(Event::Approach(kind))) => Some(kind),
        _ => None,
    }
}

// ---- the cabinet

#[tactic(auto, using(crate::proofs::CabinetCalls::cabinet_refused, crate::proofs::CabinetCalls::cabinet_short, crate::proofs::CabinetCalls::cabinet_taken))]
fn start_cabinet(words: &mut [u32], settings: Settings) -> Result<(), Refusal>
    ensures { called (number_of (judged result)) words.new ≡ cabinet_started words.old settings }
{
    let cabinet = Cabinet::start(settings)?;
    if words.len() != CABINET {
        return Err(Refusal::NoSpace);
    }
    put_cabinet(words, cabinet);
    Ok(())
}

/// A fresh cabinet under the settings, thirteen values in their order (one that is missing is 0, and so refused, 1), in 405 words
/// (`Cabinet::start`). Refusals 1 to 4; 14 last, where there are not 405 words.
pub fn cabinet_start(words: &mut [u32], values: &[u32]) -> u64
    ensures { called result words.new ≡ cabinet_started words.old (settings_of values.now) }
{
    u64::from(number(&start_cabinet(words, Settings::of_values(values))))
}

/// A train's step that is taken: the look with the train that is then soonest, and what the step changes.
fn take_step(
    words: &mut [u32],
    settings: &Settings,
    soonest: Option<Due>,
    place: usize,
    entry: Entry,
) -> Option<Order>
    requires { (cabinet_length ≤ length words.old) × (place < 96) }
    ensures order { result ≡ order settings.now (ticks_from words.old) soonest (control_from words.old) }
    ensures words { words.new ≡ put_step words.old (looked_at settings.now (ticks_from words.old) soonest (control_from words.old)).control soonest place entry }
{
    let mut control = control_from(words);
    let order = control.look(settings, ticks_from(words), soonest);
    put_step(words, control, soonest, place, entry);
    order
}

#[tactic(auto, using(crate::proofs::Search::put_there), unfolding(crate::specs::CabinetCalls::cabinet_called, crate::specs::CabinetCalls::cabinet_hears, crate::specs::Words::cabinet_from, cabinet::specs::Cabinet::approached, cabinet::specs::Cabinet::looked, cabinet::specs::Cabinet::approach_refusal, cabinet::specs::Cabinet::looked_at, trains::specs::Table::put, trains::specs::Table::found_for, trains::specs::Trains::train_number))]
fn hear_approach(words: &mut [u32], letter: u8, train: u32) -> Result<Option<Order>, Refusal>
    ensures { called (packed_answer (answered result)) words.new ≡ cabinet_called words.old (cabinetCall.approaching letter train) }
{
    let kind = kind_named(letter).ok_or(Refusal::NotInColumns)?;
    let number = train_number(train)?;
    if words.len() != CABINET {
        return Err(Refusal::NoSpace);
    }
    let Err(free) = find(words, train) else {
        return Err(Refusal::NotAway);
    };
    let place = free.ok_or(Refusal::TableFull)?;
    let settings = settings_from(words);
    let entry = Entry::coming(number, kind, words[CONTROL]);
    let due = entry.own(&settings, Question::Due);
    let soonest = Due::earlier(due, first_from(words, SOONEST));
    Ok(take_step(words, &settings, soonest, place, entry))
}

#[tactic(auto, using(crate::proofs::Search::put_there), unfolding(crate::specs::CabinetCalls::cabinet_called, crate::specs::CabinetCalls::cabinet_hears, crate::specs::Words::cabinet_from, cabinet::specs::Cabinet::left, cabinet::specs::Cabinet::looked, cabinet::specs::Cabinet::leave_refusal, cabinet::specs::Cabinet::looked_at, trains::specs::Table::put, trains::specs::Table::found_for, trains::specs::Trains::train_number))]
fn hear_leave(words: &mut [u32], train: u32) -> Result<Option<Order>, Refusal>
    ensures { called (packed_answer (answered result)) words.new ≡ cabinet_called words.old (cabinetCall.leaving train) }
{
    train_number(train)?;
    if words.len() != CABINET {
        return Err(Refusal::NoSpace);
    }
    let place = find(words, train).or(Err(Refusal::NotInside))?;
    let settings = settings_from(words);
    let soonest = rest(
        words,
        &settings,
        Question::Due,
        first_from(words, SOONEST),
        train,
    );
    Ok(take_step(words, &settings, soonest, place, Entry::AWAY))
}

/// A train approaches, by the record's letter of its kind (`Cabinet::approach`). 15 first, another letter; refusals 5, 6 and 17; 14 last,
/// where there are not 405 words.
pub fn cabinet_approach(words: &mut [u32], letter: u8, n: u32) -> u64
    ensures { called result words.new ≡ cabinet_called words.old (cabinetCall.approaching letter n) }
{
    pack(hear_approach(words, letter, n))
}

/// A present train leaves (`Cabinet::leave`). Refusals 5 and 9; 14 last, where there are not 405 words.
pub fn cabinet_leave(words: &mut [u32], n: u32) -> u64
    ensures { called result words.new ≡ cabinet_called words.old (cabinetCall.leaving n) }
{
    pack(hear_leave(words, n))
}

/// Whether a tick surely gives no command: the command is up, the clock goes on, and nobody is due by the look's horizon.
#[tactic(auto, using(crate::proofs::CabinetCalls::quiet_words))]
fn is_quiet(words: &[u32]) -> bool
    requires { cabinet_length ≤ length words.now }
    ensures { result ≡ true → QuietTick (ticks_from words.now) (first_in words.now soonest_at) (control_from words.now) }
{
    if words[CONTROL + 1] != 0 {
        return false;
    }
    let now = words[CONTROL];
    if now >= LAST_INSTANT {
        return false;
    }
    let horizon = u64::from(now) + 1 + u64::from(ticks_from(words).fall);
    !Due::is_by(first_from(words, SOONEST), horizon)
}

#[tactic(auto, unfolding(crate::specs::CabinetCalls::cabinet_called, crate::specs::CabinetCalls::cabinet_hears, crate::specs::Words::cabinet_from, cabinet::specs::Cabinet::clocked))]
fn hear_clock(words: &mut [u32]) -> Result<Option<Order>, Refusal>
    ensures { called (packed_answer (answered result)) words.new ≡ cabinet_called words.old cabinetCall.ticking }
{
    if words.len() != CABINET {
        return Err(Refusal::NoSpace);
    }
    let mut control = control_from(words);
    let soonest = first_from(words, SOONEST);
    let order = control.tick(&settings_from(words), ticks_from(words), soonest)?;
    put_clock(words, order, control);
    Ok(order)
}

// Out of line, so that `cabinet_clock` keeps no stack for it.
#[inline(never)]
fn pack_clock(words: &mut [u32]) -> u64
    ensures { called result words.new ≡ cabinet_called words.old cabinetCall.ticking }
{
    pack(hear_clock(words))
}

/// The clock moves by one tick (`Cabinet::clock`). Refusal 10; 14 last, where there are not 405 words.
#[tactic(auto, using(crate::proofs::CabinetCalls::clock_still))]
pub fn cabinet_clock(words: &mut [u32]) -> u64
    ensures { called result words.new ≡ cabinet_called words.old cabinetCall.ticking }
{
    // a way of its own that packs nothing: without it such a tick takes 62 instructions, with it 29, and plain C in place 22
    if words.len() == CABINET && is_quiet(words) {
        words[CONTROL] += 1;
        return 0;
    }
    pack_clock(words)
}

// ---- the bench

#[tactic(auto, using(crate::proofs::BenchCalls::bench_refused, crate::proofs::BenchCalls::bench_short, crate::proofs::BenchCalls::bench_taken))]
fn start_bench(words: &mut [u32], settings: Settings) -> Result<(), Refusal>
    ensures { called (number_of (judged result)) words.new ≡ bench_started words.old settings }
{
    let bench = Bench::start(settings)?;
    if words.len() != BENCH {
        return Err(Refusal::NoSpace);
    }
    put_bench(words, bench);
    Ok(())
}

/// A fresh bench under the settings, in 411 words (`Bench::start`). Refusals 1 to 4; 14 last, where there are not 411 words.
pub fn bench_start(words: &mut [u32], values: &[u32]) -> u64
    ensures { called result words.new ≡ bench_started words.old (settings_of values.now) }
{
    u64::from(number(&start_bench(words, Settings::of_values(values))))
}

#[tactic(auto, using(crate::proofs::Search::put_there), unfolding(crate::specs::BenchCalls::bench_called, crate::specs::BenchCalls::bench_takes, crate::specs::BenchCalls::bench_senses, crate::specs::Words::bench_from, crate::specs::Words::head_from, bench::specs::Bench::sensed, bench::specs::Bench::head_approached, bench::specs::Bench::head_looked, cabinet::specs::Cabinet::approach_refusal, cabinet::specs::Cabinet::looked_at, trains::specs::Table::put, trains::specs::Table::found_for, trains::specs::Trains::train_number))]
fn sense_approach(words: &mut [u32], letter: u8, train: u32) -> Result<Option<Order>, Refusal>
    ensures { called (packed_answer (answered result)) words.new ≡ bench_called words.old (benchCall.approaching letter train) }
{
    let kind = kind_named(letter).ok_or(Refusal::NotInColumns)?;
    let number = train_number(train)?;
    if words.len() != BENCH {
        return Err(Refusal::NoSpace);
    }
    let Err(free) = find(words, train) else {
        return Err(Refusal::NotAway);
    };
    let place = free.ok_or(Refusal::TableFull)?;
    let settings = settings_from(words);
    let entry = Entry::coming(number, kind, words[CONTROL]);
    let due = entry.own(&settings, Question::Due);
    let soonest = Due::earlier(due, first_from(words, SOONEST));
    let at_latest = entry.own(&settings, Question::Latest);
    let latest = Due::earlier(at_latest, first_from(words, LATEST));
    let order = take_step(words, &settings, soonest, place, entry);
    put(words, LATEST, &first_words(latest));
    Ok(order)
}

#[tactic(auto, using(crate::proofs::Search::put_there, crate::proofs::Search::entry_here), unfolding(crate::specs::BenchCalls::bench_called, crate::specs::BenchCalls::bench_takes, crate::specs::BenchCalls::bench_senses, crate::specs::Words::bench_from, crate::specs::Words::head_from, bench::specs::Bench::sensed, bench::specs::Bench::head_occupied, bench::specs::Bench::occupy_refusal, trains::specs::First::instant_of, trains::specs::Table::put, trains::specs::Table::found_for, trains::specs::Trains::train_number))]
fn sense_occupy(words: &mut [u32], train: u32) -> Result<Option<Order>, Refusal>
    ensures { called (packed_answer (answered result)) words.new ≡ bench_called words.old (benchCall.occupying train) }
{
    train_number(train)?;
    if words.len() != BENCH {
        return Err(Refusal::NoSpace);
    }
    let place = find(words, train).or(Err(Refusal::NotComing))?;
    let entry = entry_at(words, place);
    if !entry.standing.is_coming() {
        return Err(Refusal::NotComing);
    }
    let settings = settings_from(words);
    if u64::from(words[CONTROL]) < entry.instant_of(&settings, Question::Due) {
        return Err(Refusal::TooEarly);
    }
    let control = control_from(words);
    let soonest = first_from(words, SOONEST);
    let latest = rest(
        words,
        &settings,
        Question::Latest,
        first_from(words, LATEST),
        train,
    );
    put_step(words, control, soonest, place, entry.inside());
    put(words, LATEST, &first_words(latest));
    Ok(None)
}

#[tactic(auto, using(crate::proofs::Search::put_there, crate::proofs::Search::entry_here), unfolding(crate::specs::BenchCalls::bench_called, crate::specs::BenchCalls::bench_takes, crate::specs::BenchCalls::bench_senses, crate::specs::Words::bench_from, crate::specs::Words::head_from, bench::specs::Bench::sensed, bench::specs::Bench::head_left, bench::specs::Bench::head_looked, bench::specs::Bench::bench_leave_refusal, cabinet::specs::Cabinet::looked_at, trains::specs::Table::put, trains::specs::Table::found_for, trains::specs::Trains::train_number))]
fn sense_leave(words: &mut [u32], train: u32) -> Result<Option<Order>, Refusal>
    ensures { called (packed_answer (answered result)) words.new ≡ bench_called words.old (benchCall.leaving train) }
{
    train_number(train)?;
    if words.len() != BENCH {
        return Err(Refusal::NoSpace);
    }
    let place = find(words, train).or(Err(Refusal::NotInside))?;
    if !entry_at(words, place).standing.is_inside() {
        return Err(Refusal::NotInside);
    }
    let settings = settings_from(words);
    let latest = first_from(words, LATEST);
    let soonest = rest(
        words,
        &settings,
        Question::Due,
        first_from(words, SOONEST),
        train,
    );
    let order = take_step(words, &settings, soonest, place, Entry::AWAY);
    put(words, LATEST, &first_words(latest));
    Ok(order)
}

/// A train approaches, by the record's letter of its kind. 15 first, another letter; refusals 5, 6 and 17; 14 last, where there are not 411
/// words.
pub fn bench_approach(words: &mut [u32], letter: u8, n: u32) -> u64
    ensures { called result words.new ≡ bench_called words.old (benchCall.approaching letter n) }
{
    pack(sense_approach(words, letter, n))
}

/// A coming train goes inside, at its due instant or later. Refusals 5, 7 and 8; 14 last, where there are not 411 words.
pub fn bench_occupy(words: &mut [u32], n: u32) -> u64
    ensures { called result words.new ≡ bench_called words.old (benchCall.occupying n) }
{
    pack(sense_occupy(words, n))
}

/// A train inside leaves. Refusals 5 and 9; 14 last, where there are not 411 words.
pub fn bench_leave(words: &mut [u32], n: u32) -> u64
    ensures { called result words.new ≡ bench_called words.old (benchCall.leaving n) }
{
    pack(sense_leave(words, n))
}

/// Whether a tick with this angle surely gives no command: it gives a cabinet none, nobody is at its latest instant, and the arm may go there.
#[tactic(auto, using(crate::proofs::BenchCalls::still_words))]
fn is_still(words: &[u32], angle: u16) -> bool
    requires { (bench_length ≤ length words.now) × (angle ≤ 5760) }
    ensures { result ≡ true → StillTick (head_from words.now) angle }
{
    if !is_quiet(words) {
        return false;
    }
    if Due::is_by(first_from(words, LATEST), u64::from(words[CONTROL])) {
        return false;
    }
    let was = (words[ARM] % 65_536) as u16;
    Command::Up.may_move(&settings_from(words), was, angle)
}

/// A clock step with a reading in 64ths (`Head::tick`).
#[tactic(auto, unfolding(crate::specs::Words::bench_from, bench::specs::Bench::clock_read))]
fn read_clock(words: &mut [u32], reading: Option<u16>) -> Result<Option<Order>, Refusal>
    requires { IfSome reading (λ angle. angle ≤ 5760) }
    ensures { called (packed_answer (answered result)) words.new ≡ lent bench_length words.old (arm.number_of reading) (bench_reads words.old reading) }
{
    if words.len() != BENCH {
        reading.ok_or(Refusal::NotAReading)?;
        return Err(Refusal::NoSpace);
    }
    let mut head = head_from(words);
    let order = head.tick(reading)?;
    put_motion(words, order, head.motion);
    Ok(order)
}

/// The clock moves by one tick and brings a reading in degrees. Refusals 10 to 13; 14 last, where there are not 411 words.
#[tactic(auto, using(arm::proofs::Readings::angle_in_range, crate::proofs::BenchCalls::still_goes_on, crate::proofs::BenchCalls::reads_still), unfolding(crate::specs::BenchCalls::bench_called, crate::specs::BenchCalls::bench_takes))]
pub fn bench_clock(words: &mut [u32], reading: f32) -> u64
    ensures { called result words.new ≡ bench_called words.old (benchCall.ticking reading) }
{
    let read = arm::to_64ths(reading);
    if let Some(angle) = read {
        // a way of its own that packs nothing: where it surely gives no command, only the arm and the instant are written
        if words.len() == BENCH && is_still(words, angle) {
            let now = words[CONTROL];
            let was = words[ARM] % 65_536;
            put(words, ARM, &[u32::from(angle), was]);
            words[CONTROL] = now + 1;
            return 0;
        }
    }
    pack(read_clock(words, read))
}

// ---- what the bench shows

/// The number of the refusal where there are too few words or places, as C gets it.
fn no_space() -> u64
    ensures { result ≡ 14 }
{
    Refusal::NoSpace.number().into()
}

/// The pose in the first two places of `pose`: the angle and its change over the last clock step, in degrees. 0, or 14 where there are not
/// 411 words or fewer than two places.
#[tactic(auto, using(crate::proofs::Shown::pose_wrong, crate::proofs::Shown::pose_few, crate::proofs::Shown::pose_there))]
pub fn bench_pose(words: &[u32], pose: &mut [f32]) -> u64
    ensures { showed result pose.new ≡ pose_shown words.now pose.old }
{
    if words.len() != BENCH {
        return no_space();
    }
    if pose.len() < 2 {
        return no_space();
    }
    let motion = motion_from(words);
    let shown = Pose::of(motion.previous, motion.angle);
    pose[0] = shown.angle;
    pose[1] = shown.change;
    0
}

/// 0 up, 1 down, 2 falling, 3 rising.
pub fn gate_number(gate: Gate) -> u32
    ensures { result ≡ gate_number gate }
{
    match gate {
        Gate::Up => 0,
        Gate::Down => 1,
        Gate::Falling(_) => 2,
        Gate::Rising(_) => 3,
    }
}

/// 256 times the gate, and in the first place of `angle` that of a gate that falls or rises, in degrees; up and down leave it. 14 where
/// there are not 411 words or no place.
#[tactic(auto, using(crate::proofs::Shown::gate_wrong, crate::proofs::Shown::gate_few, crate::proofs::Shown::gate_there))]
pub fn bench_gate(words: &[u32], angle: &mut [f32]) -> u64
    ensures { showed result angle.new ≡ gate_shown words.now angle.old }
{
    if words.len() != BENCH {
        return no_space();
    }
    if angle.is_empty() {
        return no_space();
    }
    let motion = motion_from(words);
    let gate = Gate::of(motion.control.command, motion.angle);
    if let Gate::Falling(degrees) | Gate::Rising(degrees) = gate {
        angle[0] = degrees;
    }
    256 * u64::from(gate_number(gate))
}
