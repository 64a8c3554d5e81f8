//! The rows of a report, one after another.

ghost use Rattle.std.specs.Prelude.{◌≡◌, ◌<◌};
ghost use Rattle.report.specs.Report.{row_line, rows};
ghost use Rattle.report.specs.Rows.{stretch_of, letter_of, comes_first};

use crate::joined::Joined;
use crate::line::Line;
use stretches::{Stretch, Stretches};

/// A stretch's row.
#[derive(Clone, Copy, Debug, PartialEq, Eq)]
pub enum Row {
    /// N: the arm is below 90 degrees.
    Lowered(Stretch),
    /// O: some train is inside.
    Occupied(Stretch),
}

impl Row {
    ghost use Rattle.report.specs.Lines.{text_of};

    fn stretch(&self) -> Stretch
        ensures { result ≡ stretch_of self.now }
    {
        match self {
            Row::Lowered(stretch) | Row::Occupied(stretch) => *stretch,
        }
    }

    // The capital, or the small letter of a stretch that is still running.
    fn letter(&self) -> u8
        ensures { result ≡ letter_of self.now }
    {
        match self {
            Row::Lowered(stretch) if stretch.is_running() => b'n',
            Row::Lowered(_) => b'N',
            Row::Occupied(stretch) if stretch.is_running() => b'o',
            Row::Occupied(_) => b'O',
        }
    }

    /// Its line: the first and the last instant of the stretch, and the letter.
    #[tactic(auto, using(crate::proofs::Rows::row_text))]
    pub(crate) fn line(&self) -> Line
        requires { (stretch_of self.now).last < 100000000 }
        ensures { text_of result ≡ row_line self.now }
    {
        let stretch = self.stretch();
        Line {
            first: stretch.first() as u32,
            second: stretch.last() as u32,
            letter: self.letter(),
        }
    }
}

/// The rows that are still to come: the next stretch of each kind, and those after it.
#[derive(Debug, Drop)]
pub struct Rows<'a> {
    pub next_lowered: Option<Stretch>,
    pub next_occupied: Option<Stretch>,
    pub lowered: Stretches<'a>,
    pub occupied: Joined<'a>,
}

impl<'a> Rows<'a> {
    ghost use Rattle.stretches.specs.Left.{stretches_left};
    ghost use Rattle.report.specs.Touching.{joined};
    ghost use Rattle.report.specs.Left.{rows_left};

    /// The rows of these stretches, the occupied ones joined, merged.
    pub fn merge(mut lowered: Stretches<'a>, occupied: Stretches<'a>) -> Self
        ensures { rows_left result ≡ rows (stretches_left lowered.entry) (joined (stretches_left occupied.entry)) }
    {
        let mut joined = Joined::new(occupied);
        let next_lowered = lowered.next();
        let next_occupied = joined.next();
        Rows {
            next_lowered,
            next_occupied,
            lowered,
            occupied: joined,
        }
    }
}

// Whether the N stretch comes before the O stretch: at equal first instants too.
fn comes_first(lowered: Option<Stretch>, occupied: Option<Stretch>) -> bool
    ensures { result ≡ comes_first lowered occupied }
{
    match (lowered, occupied) {
        (Some(lowered), Some(occupied)) => lowered.first() <= occupied.first(),
        (lowered, _) => lowered.is_some(),
    }
}

impl<'a> Iterator for Rows<'a> {
    ghost use Rattle.std.specs.Iterator.{YieldsFirst, item_count};
    ghost use Rattle.report.specs.Left.{rows_left};

    type Item = Row;

    ghost next_gives = { YieldsFirst rows_left };

    ghost remaining = { item_count rows_left };

    #[tactic(auto, unfolding(crate::specs::Report::rows))]
    #[inline(always)]
    fn next(&mut self) -> Option<Row> {
        if comes_first(self.next_lowered, self.next_occupied) {
            let stretch = self.next_lowered?;
            self.next_lowered = self.lowered.next();
            Some(Row::Lowered(stretch))
        } else {
            let stretch = self.next_occupied?;
            self.next_occupied = self.occupied.next();
            Some(Row::Occupied(stretch))
        }
    }
}
