//! The numbers of a line: a whole number, and the arm's reading in decimal degrees.

ghost use Rattle.std.specs.Prelude.{◌≡◌, ◌+◌, ◌-◌, ◌*◌, ◌==◌, ◌<◌, true, false, length, drop, position, IfSome, MatchOption};
ghost use Rattle.steplines.specs.Numbers.{all_digits, is_number, largest, number_of, has_minus, unsigned, whole_of, decimals_of, is_reading, angle_in, degrees_of};
ghost use Rattle.steplines.specs.Walk.{with_digit, with_decimals, most_with, number_in};

/// Every number above it counts as it.
const LARGEST: u32 = 999_999_999;

fn all_digits(bytes: &[u8]) -> bool
    ensures { result ≡ all_digits bytes.now }
{
    bytes.iter().all(|byte| matches!(byte, b'0'..=b'9'))
}

/// The value of a digit; 0 of a byte below the digits.
fn figure(byte: u8) -> u64
    ensures { result ≡ byte - 48 }
{
    u64::from(byte.saturating_sub(b'0'))
}

/// A number with one digit more, up to the largest.
fn with_digit(number: u32, byte: u8) -> u32
    ensures { result ≡ with_digit number byte }
{
    (u64::from(number) * 10 + figure(byte)).min(u64::from(LARGEST)) as u32
}

/// The number that digits make, up to the largest.
fn number_of(digits: &[u8]) -> u32
    ensures { result ≡ number_of digits.now }
{
    digits
        .iter()
        .fold(0, |number, byte| with_digit(number, *byte))
}

/// A whole number: one or more digits, and nothing else.
#[tactic(auto, using(crate::proofs::Numbers::number_some, crate::proofs::Numbers::number_none))]
pub(crate) fn whole_number(field: &[u8]) -> Option<u32>
    ensures { result ≡ number_in field.now }
{
    if field.is_empty() || !all_digits(field) {
        return None;
    }
    Some(number_of(field))
}

/// Where the first point stands.
fn first_point(bytes: &[u8]) -> Option<usize>
    ensures place { result ≡ position (λ b. b == 46) bytes.now }
    ensures within { IfSome result (λ i. i < length bytes.now) }
{
    bytes.iter().position(|byte| *byte == b'.')
}

/// The bytes before the first point, and those after it.
#[tactic(auto, using(crate::proofs::Numbers::part_rest, crate::proofs::Numbers::point_whole, crate::proofs::Numbers::point_decimals, crate::proofs::Numbers::no_point_whole, crate::proofs::Numbers::no_point_decimals))]
fn around_point(bytes: &[u8]) -> (&[u8], &[u8])
    ensures whole { result.0.now ≡ whole_of bytes.now }
    ensures decimals { result.1.now ≡ decimals_of bytes.now }
{
    match first_point(bytes) {
        Some(point) => (&bytes[..point], &bytes[point + 1..]),
        None => (bytes, &[]),
    }
}

/// Whether a minus stands before it, and what is without it.
fn after_minus(field: &[u8]) -> (bool, &[u8])
    ensures minus { result.0 ≡ has_minus field.now }
    ensures unsigned { result.1.now ≡ unsigned field.now }
{
    match field {
        [b'-', unsigned @ ..] => (true, unsigned),
        _ => (false, field),
    }
}

/// A reading as it is typed: the digits before and after the point, and whether a minus stands before them.
#[derive(Clone, Copy)]
pub(crate) struct Decimal<'a> {
    minus: bool,
    whole: &'a [u8],
    decimals: &'a [u8],
    ghost digits: { all_digits decimals.now ≡ true },
}

impl<'a> Decimal<'a> {
    /// None where there is no digit, or anything but digits.
    #[tactic(auto, using(crate::proofs::Numbers::reading_none, crate::proofs::Numbers::reading_some))]
    pub(crate) fn parse(field: &'a [u8]) -> Option<Decimal<'a>>
        ensures { let whole = whole_of (unsigned field.entry.now) in let decimals = decimals_of (unsigned field.entry.now) in MatchOption result (is_reading whole decimals ≡ false)
            (λ d. (is_reading whole decimals ≡ true) × (d.minus ≡ has_minus field.entry.now) × (d.whole.now ≡ whole) × (d.decimals.now ≡ decimals)) }
    {
        let (minus, unsigned) = after_minus(field);
        let (whole, decimals) = around_point(unsigned);
        if whole.is_empty() && decimals.is_empty() {
            return None;
        }
        if !all_digits(whole) || !all_digits(decimals) {
            return None;
        }
        Some(Decimal {
            minus,
            whole,
            decimals,
        })
    }

    /// The degrees with their first six decimals, in millionths.
    #[tactic(auto, unfolding(crate::specs::Walk::with_decimals))]
    fn millionths(&self) -> u64
        ensures { result ≡ with_decimals (number_of self.now.whole.now) self.now.decimals.now 6 }
    {
        let mut number = u64::from(number_of(self.whole));
        for i in 0..6 {
            let byte = self.decimals.get(i).copied().unwrap_or(b'0');
            number = number * 10 + figure(byte);
        }
        number
    }

    /// What the decimals after the sixth count; 0 where they are all 0.
    #[tactic(auto, using(crate::proofs::Numbers::part_rest), unfolding(crate::specs::Numbers::value_from))]
    fn after_six(&self) -> u32
        ensures { result ≡ number_of (drop 6 self.now.decimals.now) }
    {
        match self.decimals.get(6..) {
            Some(after) => number_of(after),
            None => 0,
        }
    }

    /// The largest angle that is taken, in 64ths.
    fn most(&self) -> u64
        ensures { result ≡ most_with self.now.minus }
    {
        if self.minus { 0 } else { 5760 }
    }

    /// The angle in 64ths of a degree, of which 15,625 millionths are one, with no float in between.
    #[tactic(auto, using(crate::proofs::Readings::reading_six))]
    fn angle(&self) -> Option<u16>
        ensures { result ≡ angle_in self.now.minus self.now.whole.now self.now.decimals.now }
    {
        let millionths = self.millionths();
        let angle = millionths / 15625;
        let exact = self.after_six() == 0 && millionths % 15625 == 0;
        if exact && angle <= self.most() {
            Some(angle as u16)
        } else {
            None
        }
    }

    /// What the bench gets: the exact degrees, or what it refuses by 12.
    pub(crate) fn degrees(&self) -> f32
        ensures { result ≡ degrees_of (angle_in self.now.minus self.now.whole.now self.now.decimals.now) }
    {
        arm::to_degrees(self.angle().unwrap_or(5761))
    }
}
