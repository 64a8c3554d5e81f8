ghost use Rattle.std.specs.Prelude.{◌≡◌};
ghost use Rattle.settings.specs.Refusal.{number_of};

use std::error::Error;
use std::fmt;

/// Why a call is refused. Where it meets several refusals, each function says which comes first; `NoSpace` comes last.
#[derive(Clone, Copy, Debug, PartialEq, Eq, Hash, PartialOrd, Ord)]
pub enum Refusal {
    /// A setting lies outside its range.
    SettingOutOfRange = 1,
    /// Some kind's earliest time is not above the ticks of a fall.
    EarliestTooSoon,
    /// The ahead margin is below the ticks of a fall and the largest difference of a kind's latest and earliest time.
    AheadTooSmall,
    /// The behind margin is below the ticks of a rise.
    BehindTooSmall,
    /// No train has this number: a train's is 1 to 65,535.
    NoSuchTrain,
    /// An approach of a train that is not away.
    NotAway,
    /// An occupy of a train that is not coming.
    NotComing,
    /// An occupy before the train is due.
    TooEarly,
    /// A leave of a train that is not inside; at a cabinet alone, of one that is away.
    NotInside,
    /// A clock step at the last instant.
    ClockAtEnd,
    /// A clock step while a coming train is at its latest instant.
    TrainAtLatest,
    /// A reading that is no whole number of 64ths of a degree from 0 to 90 degrees.
    NotAReading,
    /// A reading that the arm cannot have reached in one tick under its command.
    MovementRule,
    /// A lent buffer that is too short for what is written, or a text that is too long.
    NoSpace,
    /// A letter, a line or a text that stands for nothing that is expected there.
    NotInColumns,
    /// A line of a record that the recorder would not have put there.
    NotAsRecorded,
    /// An approach while 96 trains are present.
    TableFull,
    /// A line of a record that the old form cannot hold.
    NotInOldForm,
}

impl Refusal {
    /// The number that stands for it in records' reports and at the C interface, 1 to 18.
    pub fn number(self) -> u8
        ensures { result ≡ number_of self }
    {
        self as u8
    }
}

impl fmt::Display for Refusal {
    fn fmt<W: fmt::Write>(&self, f: &mut fmt::Formatter<W>) -> fmt::Result {
        f.write_str(match self {
            Refusal::SettingOutOfRange => "a setting is outside its range",
            Refusal::EarliestTooSoon => "an earliest time is not above the ticks of a fall",
            Refusal::AheadTooSmall => "the ahead margin is too small",
            Refusal::BehindTooSmall => "the behind margin is too small",
            Refusal::NoSuchTrain => "there is no such train number",
            Refusal::NotAway => "an approach of a train that is not away",
            Refusal::NotComing => "an occupy of a train that is not coming",
            Refusal::TooEarly => "an occupy before the train's earliest time",
            Refusal::NotInside => "a leave of a train that is not inside",
            Refusal::ClockAtEnd => "the clock is at its end",
            Refusal::TrainAtLatest => "a coming train is at its latest",
            Refusal::NotAReading => "not an allowed reading",
            Refusal::MovementRule => "the arm breaks the movement rule",
            Refusal::NoSpace => "the text does not fit",
            Refusal::NotInColumns => "the line is not in the columns",
            Refusal::NotAsRecorded =>
                "not the instant or the command that the recorder would put there",
            Refusal::TableFull => "96 trains are present",
            Refusal::NotInOldForm => "the old form cannot hold this line",
        })
    }
}

impl Error for Refusal {}
