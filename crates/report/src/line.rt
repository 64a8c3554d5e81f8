//! A line of a report.

ghost use Rattle.std.specs.Prelude.{◌≡◌, ◌<◌, length};

/// Two numbers, in eight columns each, and a letter.
#[derive(Clone, Copy, Debug, PartialEq, Eq)]
pub struct Line {
    pub first: u32,
    pub second: u32,
    pub letter: u8,
    pub ghost columns: { (first < 100000000) × (second < 100000000) },
}

impl Line {
    ghost use Rattle.report.specs.Lines.{text_of};

    /// The bytes of a line.
    pub const BYTES: usize = 19;

    /// Writes the line over the whole of its place.
    #[tactic(auto, using(crate::proofs::Rows::put_whole, crate::proofs::Rows::three_set), unfolding(crate::specs::Report::report_line))]
    pub(crate) fn write(self, place: &mut [u8])
        requires { length place.old ≡ 19 }
        ensures { place.new ≡ text_of self }
    {
        let (first, rest) = place.split_at_mut(8);
        let (second, end) = rest.split_at_mut(8);
        let _ = lines::put_number(first, 0, 8, self.first);
        let _ = lines::put_number(second, 0, 8, self.second);
        end[0] = b' ';
        end[1] = self.letter;
        end[2] = b'\n';
    }
}
