//! The bench cases a to m through the built functions, one line each; what the bench shows along the sample run, and a cabinet alone; trains of four
//! kinds; the train of a lower; 96 trains; reports of stretches that touch; a record with a five-digit train; records of the old form turned into the
//! new one and back (the longer one is read on standard input); and the new form with the report.
//! A step shows 0 (taken with no command), D with its train or U (taken, with that command) or its refusal number; `second/expected` has the
//! same lines.
#![tactic(auto)]

use arm::Gate;
use bench::Bench;
use cabinet::{Cabinet, Order};
use reader::Fault;
use runs::Step;
use settings::{Kind, Refusal, Settings, Times};
use std::io::{Input, Read};

// ---- what is shown

fn print<R: Print>(rt: &R, text: &[u8]) {
    let _ = rt.write_all(text);
}

fn show<R: Print>(rt: &R, n: u64) {
    let _ = print!(rt; " {n}");
}

fn show_check<R: Print>(rt: &R, settings: &Settings) {
    show(rt, u64::from(settings::number(&settings.check())));
}

// A step by its refusal number, the letter of its command and the train of a lower.
fn show_step<R: Print>(rt: &R, number: u8, letter: u8, train: u32) {
    if letter == 0 {
        show(rt, number as u64);
    } else {
        print(rt, &[b' ', letter]);
    }
    if 0 < train {
        let _ = print!(rt; "{train}");
    }
}

fn show_answer<R: Print>(rt: &R, answer: Result<Option<Order>, Refusal>) {
    let order = runs::given(answer);
    show_step(
        rt,
        settings::number(&answer),
        runs::letter_byte(order),
        runs::train_of(order),
    );
}

// Number and line of a text's refusal, 0 and 0 where it has none.
fn show_fault<R: Print>(rt: &R, fault: Option<Fault>) {
    let (number, line) = fault.map_or((0, 0), |fault| (fault.refusal.number(), fault.line));
    show(rt, u64::from(number));
    show(rt, line as u64);
}

// What each step answered, and the bench after them.
fn shown<R: Print>(rt: &R, mut bench: Bench, steps: &[Step]) -> Bench {
    for step in steps {
        let answer = step.take(&mut bench);
        show_answer(rt, answer);
    }
    bench
}

// ---- settings

// D for five fall rates.
fn case_a<R: Print>(rt: &R) {
    print(rt, b"a");
    show(rt, settings::ticks_for(5760) as u64);
    show(rt, settings::ticks_for(2880) as u64);
    show(rt, settings::ticks_for(1921) as u64);
    show(rt, settings::ticks_for(1919) as u64);
    show(rt, settings::ticks_for(1) as u64);
    print(rt, b"\n");
}

// K, and K with E 2; with X 2; with Q 2880 and with Y 0.
fn cases_b_c_d<R: Print>(rt: &R) {
    print(rt, b"b");
    show_check(rt, &worked::settings_k());
    show_check(rt, &worked::settings_like(2, 5760, 3, 1));
    print(rt, b"\nc");
    show_check(rt, &worked::settings_like(3, 5760, 2, 1));
    print(rt, b"\nd");
    show_check(rt, &worked::settings_like(3, 2880, 3, 1));
    show_check(rt, &worked::settings_like(3, 5760, 3, 0));
    print(rt, b"\n");
}

// ---- benches under K

fn fresh() -> Bench {
    Bench::fresh(worked::settings_k())
}

// The bench after steps that are taken.
fn after(mut bench: Bench, steps: &[Step]) -> Bench {
    for step in steps {
        let _ = step.take(&mut bench);
    }
    bench
}

// From a fresh bench: train 1 approaches at 0; the command down at 1.
fn at_1(start: Bench) -> Bench {
    after(start, &[Step::Approach(Kind::Loaded, 1), Step::Clock(90.0)])
}

fn at_2(start: Bench) -> Bench {
    after(at_1(start), &[Step::Clock(45.0)])
}

fn at_3(start: Bench) -> Bench {
    after(at_2(start), &[Step::Clock(0.0)])
}

// Train 1 inside at 4.
fn inside_at_4(start: Bench) -> Bench {
    after(at_3(start), &[Step::Occupy(1), Step::Clock(0.0)])
}

// Train 1 leaves at 4, under K with Q 2880 and Y 2: the command up and the arm at 0, so that 45 degrees and more may follow.
fn left_at_4() -> Bench {
    let start = Bench::fresh(worked::settings_like(3, 2880, 3, 2));
    after(inside_at_4(start), &[Step::Leave(1)])
}

// Nothing at the last instant.
fn at_last_instant() -> Bench {
    let mut bench = fresh();
    bench.head.motion.control.now = cabinet::LAST_INSTANT;
    bench
}

// An occupy at 2 and at 3; the clock at 4 with the train still coming.
fn cases_e_f<R: Print>(rt: &R) {
    print(rt, b"e");
    let bench = shown(rt, at_2(fresh()), &[Step::Occupy(1)]);
    let coming = after(bench, &[Step::Clock(0.0)]);
    shown(rt, coming, &[Step::Occupy(1)]);
    print(rt, b"\nf");
    let late = after(coming, &[Step::Clock(0.0)]);
    shown(rt, late, &[Step::Clock(0.0)]);
    print(rt, b"\n");
}

// Approaches of trains 0, 65,536 and 65,535.
fn case_g<R: Print>(rt: &R) {
    print(rt, b"g");
    shown(
        rt,
        fresh(),
        &[
            Step::Approach(Kind::Loaded, 0),
            Step::Approach(Kind::Loaded, 65536),
            Step::Approach(Kind::Loaded, 65535),
        ],
    );
    print(rt, b"\n");
}

// The command down at 5760: 2880, and 2881; at 0: 1.
fn cases_h_i<R: Print>(rt: &R) {
    print(rt, b"h");
    shown(rt, at_1(fresh()), &[Step::Clock(45.0)]);
    shown(rt, at_1(fresh()), &[Step::Clock(45.015625)]);
    print(rt, b"\ni");
    shown(rt, at_3(fresh()), &[Step::Clock(0.015625)]);
    print(rt, b"\n");
}

// Train 1 inside at 4: approach of 2, leave of 1, clock; and leave of 1, approach of 2, clock.
fn case_j<R: Print>(rt: &R) {
    print(rt, b"j");
    shown(
        rt,
        inside_at_4(fresh()),
        &[
            Step::Approach(Kind::Loaded, 2),
            Step::Leave(1),
            Step::Clock(0.0),
        ],
    );
    shown(
        rt,
        inside_at_4(fresh()),
        &[
            Step::Leave(1),
            Step::Approach(Kind::Loaded, 2),
            Step::Clock(90.0),
        ],
    );
    print(rt, b"\n");
}

// The angle that a clock step brings to the bench in 64ths, or its refusal number.
fn show_reading<R: Print>(rt: &R, degrees: f32) {
    let mut bench = left_at_4();
    match bench.clock(degrees) {
        Ok(_) => show(rt, u64::from(bench.head.motion.angle)),
        Err(refusal) => show(rt, u64::from(refusal.number())),
    }
}

// Readings; the empty text, number and line; the clock at the last instant.
fn cases_k_l_m<R: Print>(rt: &R) {
    print(rt, b"k");
    show_reading(rt, 45.015625);
    show_reading(rt, 0.0078125);
    show_reading(rt, 90.015625);
    show_reading(rt, 0.0 / 0.0);
    print(rt, b"\nl");
    show_fault(rt, reader::read(b"").verdict.err());
    print(rt, b"\nm");
    shown(rt, at_last_instant(), &[Step::Clock(90.0)]);
    print(rt, b"\n");
}

// ---- what the bench shows along the sample run

// Degrees from 0 to 90 in 64ths, behind this sign.
fn show_degrees<R: Print>(rt: &R, sign: &[u8], degrees: f32) {
    match arm::to_64ths(degrees) {
        Some(angle) => {
            print(rt, sign);
            let _ = print!(rt; "{angle}");
        }
        None => print(rt, b" none"),
    }
}

fn show_pose<R: Print>(rt: &R, bench: &Bench) {
    let pose = bench.pose();
    show_degrees(rt, b" ", pose.angle);
    if pose.change < 0.0 {
        show_degrees(rt, b" -", 0.0 - pose.change);
    } else {
        show_degrees(rt, b" ", pose.change);
    }
}

fn show_gate<R: Print>(rt: &R, bench: &Bench) {
    match bench.gate() {
        Gate::Up => print(rt, b" up"),
        Gate::Down => print(rt, b" down"),
        Gate::Falling(degrees) => show_degrees(rt, b" falling ", degrees),
        Gate::Rising(degrees) => show_degrees(rt, b" rising ", degrees),
    }
}

// What is shown of a bench.
#[derive(Clone, Copy)]
enum Display {
    Pose,
    Gate,
}

fn show_bench<R: Print>(rt: &R, what: Display, bench: &Bench) {
    match what {
        Display::Pose => show_pose(rt, bench),
        Display::Gate => show_gate(rt, bench),
    }
}

// The sample run.
const SAMPLE_STEPS: [Step; 8] = [
    Step::Approach(Kind::Loaded, 1),
    Step::Clock(90.0),
    Step::Clock(45.0),
    Step::Clock(0.0),
    Step::Occupy(1),
    Step::Clock(0.0),
    Step::Leave(1),
    Step::Clock(90.0),
];

// At each of the nine moments of the sample run.
fn sample_moments<R: Print>(rt: &R, what: Display) {
    let mut bench = fresh();
    show_bench(rt, what, &bench);
    for step in &SAMPLE_STEPS {
        let _ = step.take(&mut bench);
        show_bench(rt, what, &bench);
    }
    print(rt, b"\n");
}

// ---- the cabinet alone

// A step that the cabinet hears: an approach of kind 1, a leave, or the clock's.
#[derive(Clone, Copy)]
enum Heard {
    Approach(u32),
    Leave(u32),
    Clock,
}

fn hear(cabinet: &mut Cabinet, step: Heard) -> Result<Option<Order>, Refusal> {
    match step {
        Heard::Approach(train) => cabinet.approach(Kind::Loaded, train),
        Heard::Leave(train) => cabinet.leave(train),
        Heard::Clock => cabinet.clock(),
    }
}

// What each step answered.
fn show_heard<R: Print>(rt: &R, mut cabinet: Cabinet, steps: &[Heard]) {
    for step in steps {
        let answer = hear(&mut cabinet, *step);
        show_answer(rt, answer);
    }
}

// The trains present after each step.
fn counted<R: Print>(rt: &R, cabinet: &mut Cabinet, steps: &[Heard]) {
    for step in steps {
        let _ = hear(cabinet, *step);
        show(rt, u64::from(cabinet.trains_present()));
    }
}

// At each of the nine moments of the sample run: the cabinet does not hear the occupy.
fn present_along_sample<R: Print>(rt: &R) {
    let mut cabinet = Cabinet::fresh(worked::settings_k());
    print(rt, b"present");
    show(rt, u64::from(cabinet.trains_present()));
    counted(
        rt,
        &mut cabinet,
        &[Heard::Approach(1), Heard::Clock, Heard::Clock, Heard::Clock],
    );
    show(rt, u64::from(cabinet.trains_present()));
    counted(
        rt,
        &mut cabinet,
        &[Heard::Clock, Heard::Leave(1), Heard::Clock],
    );
    print(rt, b"\n");
}

// What it hears of the sample run; its refusals, and a leave of a train that only came; the clock at the last instant.
fn cabinet_alone<R: Print>(rt: &R) {
    let fresh = Cabinet::fresh(worked::settings_k());
    print(rt, b"cabinet");
    show_heard(
        rt,
        fresh,
        &[
            Heard::Approach(1),
            Heard::Clock,
            Heard::Clock,
            Heard::Clock,
            Heard::Clock,
            Heard::Leave(1),
            Heard::Clock,
        ],
    );
    show_heard(
        rt,
        fresh,
        &[
            Heard::Approach(0),
            Heard::Approach(65536),
            Heard::Approach(1),
            Heard::Approach(1),
            Heard::Leave(2),
            Heard::Leave(1),
            Heard::Leave(1),
        ],
    );
    let mut last = fresh;
    last.control.now = cabinet::LAST_INSTANT;
    show_heard(rt, last, &[Heard::Clock]);
    print(rt, b"\n");
}

// ---- four kinds of train

// Kinds with times of their own: 6 and 9, 3 and 4, 4 and 6, and of kind 4 these.
fn mixed(earliest: u32, latest: u32) -> Settings {
    worked::settings_mixed(Times { earliest, latest })
}

// What each of so many steps answered.
fn show_steps<R: Print>(rt: &R, n: usize, answers: &[u8], orders: &[u8], named: &[u32]) {
    for ((answer, order), train) in answers.iter().zip(orders).zip(named).take(n) {
        show_step(rt, *answer, *order, *train);
    }
    print(rt, b"\n");
}

// A list of at most 17 steps from a fresh bench.
fn show_list<R: Print>(rt: &R, letters: &[u8], numbers: &[u32], readings: &[f32]) {
    let mut answers = [0u8; 17];
    let mut orders = [0u8; 17];
    let mut named = [0u32; 17];
    let _ = runs::run(
        &mixed(5, 11),
        letters,
        numbers,
        readings,
        &mut answers,
        &mut orders,
        &mut named,
    );
    show_steps(rt, letters.len(), &answers, &orders, &named);
}

// Four trains, one of each kind, come together: each may go inside from its own due instant on.
fn together<R: Print>(rt: &R) {
    print(rt, b"kinds");
    show_list(
        rt,
        b"ABEFTTTOOTOOTOOTO",
        &[1u32, 2, 3, 4, 0, 0, 0, 2, 3, 0, 3, 4, 0, 4, 1, 0, 1],
        &[
            0.0f32, 0.0, 0.0, 0.0, 90.0, 45.0, 0.0, 0.0, 0.0, 0.0, 0.0, 0.0, 0.0, 0.0, 0.0, 0.0,
            0.0,
        ],
    );
}

// A train of kind 1 approaches at 0 and one of kind 2 at 1, which is due before it and goes inside before it.
fn due_order<R: Print>(rt: &R) {
    print(rt, b"order");
    show_list(
        rt,
        b"ATBTTTOOLTTOL",
        &[1u32, 0, 2, 0, 0, 0, 1, 2, 2, 0, 0, 1, 1],
        &[
            0.0f32, 90.0, 0.0, 90.0, 45.0, 0.0, 0.0, 0.0, 0.0, 0.0, 0.0, 0.0, 0.0,
        ],
    );
}

// The train of the fast kind is at its latest, and the slow one that approached before it still has time.
fn latest_first<R: Print>(rt: &R) {
    print(rt, b"latest");
    show_list(
        rt,
        b"ATBTTTTTOT",
        &[1u32, 0, 2, 0, 0, 0, 0, 0, 2, 0],
        &[0.0f32, 90.0, 0.0, 90.0, 45.0, 0.0, 0.0, 0.0, 0.0, 0.0],
    );
}

// Refusals 1, 2 and 3 by the times of kind 4 alone.
fn fourth_kind<R: Print>(rt: &R) {
    print(rt, b"kind4");
    show_check(rt, &mixed(5, 11));
    show_check(rt, &mixed(0, 11));
    show_check(rt, &mixed(5, 4));
    show_check(rt, &mixed(5, 60001));
    show_check(rt, &mixed(2, 8));
    show_check(rt, &mixed(5, 12));
    print(rt, b"\n");
}

// A cabinet alone hears both approach, and the fast one leave.
fn kinds_alone<R: Print>(rt: &R) {
    print(rt, b"alone");
    let mut answers = [0u8; 17];
    let mut orders = [0u8; 17];
    let mut named = [0u32; 17];
    let _ = alone::run(
        &mixed(5, 11),
        b"ATBTLTT",
        &[1u32, 0, 2, 0, 2, 0, 0],
        &mut answers,
        &mut orders,
        &mut named,
    );
    show_steps(rt, 7, &answers, &orders, &named);
}

// ---- the train of a lower

// Two of kind 1 that are due together: the lower number. A train of a faster kind that approaches later and is due sooner.
fn named_first<R: Print>(rt: &R) {
    print(rt, b"equal");
    show_list(
        rt,
        b"AATTTT",
        &[7u32, 3, 0, 0, 0, 0],
        &[0.0f32, 0.0, 90.0, 90.0, 90.0, 90.0],
    );
    print(rt, b"sooner");
    show_list(rt, b"ATBT", &[5u32, 0, 9, 0], &[0.0f32, 90.0, 0.0, 90.0]);
}

// Two kinds that approach apart and are due in the same tick: the lower number. One due first while another has the lower number.
fn named_of_two<R: Print>(rt: &R) {
    print(rt, b"apart");
    show_list(
        rt,
        b"ATTETT",
        &[6u32, 0, 0, 4, 0, 0],
        &[0.0f32, 90.0, 90.0, 0.0, 90.0, 90.0],
    );
    print(rt, b"later");
    show_list(
        rt,
        b"ATATTT",
        &[8u32, 0, 2, 0, 0, 0],
        &[0.0f32, 90.0, 0.0, 90.0, 90.0, 90.0],
    );
}

// ---- 96 trains

// 65,535 down to 65,440.
fn numbers() -> [u32; 96] {
    let mut numbers = [0u32; 96];
    for (number, train) in numbers.iter_mut().zip((65440..=65535).rev()) {
        *number = train;
    }
    numbers
}

// These trains approach at 0.
fn crowd() -> Bench {
    let mut bench = fresh();
    for train in numbers() {
        let _ = bench.approach(Kind::Loaded, train);
    }
    bench
}

// One more, a present one again, and no train's number; then the arm falls, one goes inside and leaves, and its entry serves a new number.
fn full<R: Print>(rt: &R) {
    let bench = crowd();
    print(rt, b"full");
    show(rt, u64::from(bench.table.present()));
    shown(
        rt,
        bench,
        &[
            Step::Approach(Kind::Loaded, 7),
            Step::Approach(Kind::Loaded, 65500),
            Step::Approach(Kind::Loaded, 0),
            Step::Approach(Kind::Loaded, 65536),
            Step::Clock(90.0),
            Step::Clock(45.0),
            Step::Clock(0.0),
            Step::Occupy(65500),
            Step::Approach(Kind::Loaded, 65500),
            Step::Approach(Kind::Loaded, 7),
            Step::Leave(65500),
            Step::Approach(Kind::Loaded, 7),
            Step::Approach(Kind::Loaded, 8),
            Step::Approach(Kind::Loaded, 7),
            Step::Approach(Kind::Loaded, 65500),
        ],
    );
    print(rt, b"\n");
}

// A cabinet alone that hears the same 96.
fn crowd_alone() -> Cabinet {
    let mut cabinet = Cabinet::fresh(worked::settings_k());
    for train in numbers() {
        let _ = cabinet.approach(Kind::Loaded, train);
    }
    cabinet
}

fn full_alone<R: Print>(rt: &R) {
    let cabinet = crowd_alone();
    print(rt, b"fullalone");
    show(rt, u64::from(cabinet.trains_present()));
    show_heard(
        rt,
        cabinet,
        &[
            Heard::Approach(7),
            Heard::Approach(65500),
            Heard::Approach(0),
            Heard::Approach(65536),
            Heard::Leave(65500),
            Heard::Leave(65500),
            Heard::Approach(7),
            Heard::Approach(8),
            Heard::Approach(7),
            Heard::Clock,
            Heard::Leave(7),
            Heard::Approach(65500),
        ],
    );
    print(rt, b"\n");
}

// ---- stretches that touch

// The report of a list of at most 16 steps from a fresh bench under K; its record and its report fill the two buffers.
fn show_report<R: Print>(
    rt: &R,
    letters: &[u8],
    numbers: &[u32],
    readings: &[f32],
    text: &mut [u8],
    lines: &mut [u8],
) {
    let mut answers = [0u8; 16];
    let mut orders = [0u8; 16];
    let mut named = [0u32; 16];
    let _ = recording::record_run(
        &worked::settings_k(),
        letters,
        numbers,
        readings,
        &mut answers,
        &mut orders,
        &mut named,
        text,
    );
    let _ = report::report(text, lines);
    print(rt, b"\n");
    print(rt, lines);
}

// The arm where two trains are inside from 3 to 5: half way down at 2, down from 3 on, up again at 6.
fn arm_of_two() -> [f32; 12] {
    [
        0.0, 0.0, 90.0, 45.0, 0.0, 0.0, 0.0, 0.0, 0.0, 0.0, 0.0, 90.0,
    ]
}

// Train 2 goes inside at the instant where train 1 leaves; trains 2 and 3 in the same way after train 1.
fn joined_ended<R: Print>(rt: &R) {
    print(rt, b"touching");
    show_report(
        rt,
        b"AATTTOTLOTLT",
        &[1u32, 2, 0, 0, 0, 1, 0, 1, 2, 0, 2, 0],
        &arm_of_two(),
        &mut [0u8; 464],
        &mut [0u8; 57],
    );
    print(rt, b"chain");
    show_report(
        rt,
        b"AATATTOTLOTLOTLT",
        &[1u32, 2, 0, 3, 0, 0, 1, 0, 1, 2, 0, 2, 3, 0, 3, 0],
        &[
            0.0f32, 0.0, 90.0, 0.0, 45.0, 0.0, 0.0, 0.0, 0.0, 0.0, 0.0, 0.0, 0.0, 0.0, 0.0, 90.0,
        ],
        &mut [0u8; 528],
        &mut [0u8; 57],
    );
}

// Train 2 is still inside when the record ends; and it is inside for no tick between trains 1 and 3.
fn joined_running<R: Print>(rt: &R) {
    print(rt, b"running");
    show_report(
        rt,
        b"AATTTOTLOT",
        &[1u32, 2, 0, 0, 0, 1, 0, 1, 2, 0],
        &arm_of_two(),
        &mut [0u8; 416],
        &mut [0u8; 57],
    );
    print(rt, b"instant");
    show_report(
        rt,
        b"AAATTTOTLOLOTLT",
        &[1u32, 2, 3, 0, 0, 0, 1, 0, 1, 2, 2, 3, 0, 3, 0],
        &[
            0.0f32, 0.0, 0.0, 90.0, 45.0, 0.0, 0.0, 0.0, 0.0, 0.0, 0.0, 0.0, 0.0, 0.0, 90.0,
        ],
        &mut [0u8; 512],
        &mut [0u8; 57],
    );
}

// Train 2 goes inside before train 1 leaves, one stretch without joining; and a tick after it, two.
fn not_joined<R: Print>(rt: &R) {
    print(rt, b"overlap");
    show_report(
        rt,
        b"AATTTOTOLTLT",
        &[1u32, 2, 0, 0, 0, 1, 0, 2, 1, 0, 2, 0],
        &arm_of_two(),
        &mut [0u8; 464],
        &mut [0u8; 57],
    );
    print(rt, b"gap");
    show_report(
        rt,
        b"ATATTOTLTOTLT",
        &[1u32, 0, 2, 0, 0, 1, 0, 1, 0, 2, 0, 2, 0],
        &[
            0.0f32, 90.0, 0.0, 45.0, 0.0, 0.0, 0.0, 0.0, 0.0, 0.0, 0.0, 0.0, 90.0,
        ],
        &mut [0u8; 480],
        &mut [0u8; 76],
    );
}

// ---- the sample record

// The sample run of this train: 25 lines of 16 bytes.
fn sample_record(train: u32) -> [u8; 400] {
    let mut answers = [0u8; 8];
    let mut orders = [0u8; 8];
    let mut named = [0u32; 8];
    let mut text = [0u8; 400];
    let _ = recording::record_run(
        &worked::settings_k(),
        b"ATTTOTLT",
        &[train, 0, 0, 0, train, 0, train, 0],
        &[0.0f32, 90.0, 45.0, 0.0, 0.0, 0.0, 0.0, 90.0],
        &mut answers,
        &mut orders,
        &mut named,
        &mut text,
    );
    text
}

// With the highest train number.
fn five_digits<R: Print>(rt: &R) {
    print(rt, b"five\n");
    print(rt, &sample_record(65535));
}

// As it is, and its report: 3 lines of 19 bytes.
fn sample<R: Print>(rt: &R) {
    let text = sample_record(1);
    let mut lines = [0u8; 57];
    let _ = report::report(&text, &mut lines);
    print(rt, &text);
    print(rt, &lines);
}

// ---- the sample record of the old form, in both forms

// As it stands there: 19 lines of 15 bytes.
const OLD_SAMPLE: [u8; 285] = *b"   GATE RECORD
       3 S   1
       4 S   2
    2880 S   3
    5760 S   4
       0 S   5
       3 S   6
       1 S   7
       0 A   1
       1 T5760
       1 D   0
       2 T2880
       3 T   0
       3 O   1
       4 T   0
       4 L   1
       4 U   0
       5 T5760
 END OF RECORD
";

// As the recorder would write it: 25 lines of 16 bytes.
fn new_sample() -> [u8; 400] {
    let mut text = [0u8; 400];
    let _ = converter::to_new(&OLD_SAMPLE, &mut text);
    text
}

// Into the new form, and back.
fn both_ways<R: Print>(rt: &R) {
    let new = new_sample();
    let mut old = [0u8; 285];
    let _ = converter::to_old(&new, &mut old);
    print(rt, b"forward\n");
    print(rt, &new);
    print(rt, b"back\n");
    print(rt, &old);
}

// A text in the old form, with space for the sample in the new one.
fn show_to_new<R: Print>(rt: &R, text: &[u8]) {
    show_fault(rt, converter::to_new(text, &mut [0u8; 400]).err());
}

// The sample with this line in place of its own from byte `at` on.
fn show_old_with<R: Print>(rt: &R, at: usize, n: u32, letter: u8, m: u32) {
    let mut text = OLD_SAMPLE;
    let _ = lines::put_line(&mut text, at, 4, n, letter, m);
    show_to_new(rt, &text);
}

// The sample; the empty text; the new form; on line 9 train 97, on line 11 the train of the lower, on line 9 the letter of kind 2, and on
// line 7 X 2; the sample with a byte of space too few.
fn old_texts<R: Print>(rt: &R) {
    print(rt, b"old");
    show_to_new(rt, &OLD_SAMPLE);
    show_to_new(rt, b"");
    show_to_new(rt, &new_sample());
    show_old_with(rt, 8 * 15, 0, b'A', 97);
    show_old_with(rt, 10 * 15, 1, b'D', 1);
    show_old_with(rt, 8 * 15, 0, b'B', 1);
    show_old_with(rt, 6 * 15, 2, b'S', 6);
    show_fault(rt, converter::to_new(&OLD_SAMPLE, &mut [0u8; 399]).err());
    print(rt, b"\n");
}

// A text in the new form, with space for the sample in the old one.
fn show_to_old<R: Print>(rt: &R, text: &[u8]) {
    show_fault(rt, converter::to_old(text, &mut [0u8; 285]).err());
}

// A record like the sample's new form, with this line in place of its own from byte `at` on.
fn show_new_with<R: Print>(rt: &R, mut text: [u8; 400], at: usize, n: u32, letter: u8, m: u32) {
    let _ = lines::put_line(&mut text, at, 5, n, letter, m);
    show_to_old(rt, &text);
}

// The new form; of train 97; with setting 10 as 4, setting 13 as 3, and on line 15 the letter of kind 2; the old form; of train 97, with
// the angle 2881 on line 18, and with setting 13 as 3; the new form with a byte of space too few.
fn new_texts<R: Print>(rt: &R) {
    let text = new_sample();
    let of_97 = sample_record(97);
    print(rt, b"new");
    show_to_old(rt, &text);
    show_to_old(rt, &of_97);
    show_new_with(rt, text, 10 * 16, 4, b'S', 10);
    show_new_with(rt, text, 13 * 16, 3, b'S', 13);
    show_new_with(rt, text, 14 * 16, 0, b'B', 1);
    show_to_old(rt, &OLD_SAMPLE);
    show_new_with(rt, of_97, 17 * 16, 2, b'T', 2881);
    show_new_with(rt, of_97, 13 * 16, 3, b'S', 13);
    show_fault(rt, converter::to_old(&text, &mut [0u8; 284]).err());
    print(rt, b"\n");
}

// The longer example of the old form, which is standard input, forward and back: the bytes each way, and whether every byte is back.
fn quarry<R: Input + Print>(rt: &R) {
    let mut text = [0u8; 5760];
    let mut new = [0u8; 6240];
    let mut back = [0u8; 5760];
    let _ = rt.reader().read_exact(&mut text);
    let forward = converter::to_new(&text, &mut new);
    let backward = converter::to_old(&new, &mut back);
    print(rt, b"quarry");
    show(rt, forward.unwrap_or(0) as u64);
    show(rt, backward.unwrap_or(0) as u64);
    if lines::stands(&back, 0, &text) {
        print(rt, b" same\n");
    } else {
        print(rt, b" other\n");
    }
}

fn main(rt: HostRuntime) {
    case_a(&rt);
    cases_b_c_d(&rt);
    cases_e_f(&rt);
    case_g(&rt);
    cases_h_i(&rt);
    case_j(&rt);
    cases_k_l_m(&rt);
    print(&rt, b"pose");
    sample_moments(&rt, Display::Pose);
    print(&rt, b"gate");
    sample_moments(&rt, Display::Gate);
    present_along_sample(&rt);
    cabinet_alone(&rt);
    together(&rt);
    due_order(&rt);
    fourth_kind(&rt);
    latest_first(&rt);
    kinds_alone(&rt);
    named_first(&rt);
    named_of_two(&rt);
    full(&rt);
    full_alone(&rt);
    joined_ended(&rt);
    joined_running(&rt);
    not_joined(&rt);
    five_digits(&rt);
    both_ways(&rt);
    old_texts(&rt);
    new_texts(&rt);
    quarry(&rt);
    sample(&rt);
}
