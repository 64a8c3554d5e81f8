//! The report of a record: the stretches of its accepted text, one by one off the text, those with a train inside joined where they touch,
//! merged and written into a lent buffer.
#![tactic(auto)]

mod joined;
mod line;
mod row;

ghost use Rattle.std.specs.Prelude.{◌≡◌, ◌<◌, ◌≤◌, length};
ghost use Rattle.recorder.specs.Text.{current};
ghost use Rattle.reader.specs.Read.{read_text};
ghost use Rattle.reader.specs.Round.{run_of};
ghost use Rattle.report.specs.Report.{run_report, refusal_report, report_of, reported, ReportWritten};
ghost use Rattle.settings.specs.Refusal.{Taken};

use joined::Joined;
use line::Line;
use row::Rows;
use std::error::Error;
use std::fmt;
use stretches::{Sort, Stretches};

/// The lent bytes are too short for the report: nothing is written.
#[derive(Clone, Copy, Debug, PartialEq, Eq)]
pub struct NoSpace;

impl NoSpace {
    /// The number of this refusal.
    pub fn number(self) -> u8
        ensures { result ≡ 14 }
    {
        14
    }
}

impl fmt::Display for NoSpace {
    fn fmt<W: fmt::Write>(&self, f: &mut fmt::Formatter<W>) -> fmt::Result {
        f.write_str("the report does not fit")
    }
}

impl Error for NoSpace {}

// The report of an accepted text: its stretches are counted first, so that nothing is written where they do not fit.
fn report_text(text: &[u8], out: &mut [u8]) -> Result<usize, NoSpace>
    requires { (length text.now ≤ 65535) × ((read_text current text.now).verdict ≡ Taken) }
    ensures { ReportWritten (run_report (run_of current text.now)) out.old (reported result) out.new }
{
    let lowered = stretches::tally_lowered(text);
    let joined = Joined::new(Stretches::new(Sort::Occupied, text)).count();
    let end = (lowered.stretches + joined) * Line::BYTES;
    if out.len() < end + Line::BYTES {
        return Err(NoSpace);
    }
    let rows = Rows::merge(
        Stretches::new(Sort::Lowered, text),
        Stretches::new(Sort::Occupied, text),
    );
    let mut at = 0;
    for row in rows {
        row.line().write(&mut out[at..at + Line::BYTES]);
        at += Line::BYTES;
    }
    let total = Line {
        first: joined as u32,
        second: lowered.instants as u32,
        letter: b'Z',
    };
    total.write(&mut out[end..end + Line::BYTES]);
    Ok(end + Line::BYTES)
}

// The report of a refused text: R alone.
fn report_refusal(number: u8, line: usize, out: &mut [u8]) -> Result<usize, NoSpace>
    requires { line < 100000000 }
    ensures { ReportWritten (refusal_report number line) out.old (reported result) out.new }
{
    if out.len() < Line::BYTES {
        return Err(NoSpace);
    }
    let refusal = Line {
        first: number as u32,
        second: line as u32,
        letter: b'R',
    };
    refusal.write(&mut out[..Line::BYTES]);
    Ok(Line::BYTES)
}

/// The report of a record text of any bytes, into a lent buffer: how many bytes it has, from the first on. A text above 65,535 bytes is
/// refused; a refused text's report is one line, with its number and the line at fault.
#[tactic(auto, using(crate::proofs::Answers::written_as, crate::proofs::Texts::taken_says, crate::proofs::Texts::taken_report, crate::proofs::Texts::refused_report, crate::proofs::Texts::line_within, crate::proofs::Texts::long_report))]
pub fn report(text: &[u8], out: &mut [u8]) -> Result<usize, NoSpace>
    ensures { ReportWritten (report_of text.now) out.old (reported result) out.new }
{
    if 65535 < text.len() {
        return report_refusal(14, 0, out);
    }
    match reader::read(text).verdict {
        Ok(()) => report_text(text, out),
        Err(fault) => report_refusal(fault.refusal.number(), fault.line, out),
    }
}
