//! A line as its fields.

ghost use Rattle.std.specs.Prelude.{◌≡◌, ◌<◌, ◌≤◌, not, length, position, IfSome};
ghost use Rattle.std.specs.List.{position_or_len};
ghost use Rattle.steplines.specs.Fields.{is_blank, is_word};

/// A blank, a tab, or the 13 before a line's byte 10.
fn is_blank(byte: u8) -> bool
    ensures { result ≡ is_blank byte }
{
    matches!(byte, b' ' | b'\t' | b'\r')
}

/// Where the first field begins.
fn first_in_field(line: &[u8]) -> Option<usize>
    ensures place { result ≡ position (λ b. not (is_blank b)) line.now }
    ensures within { IfSome result (λ i. i < length line.now) }
{
    line.iter().position(|byte| !is_blank(*byte))
}

/// Where the first blank stands.
fn first_blank(line: &[u8]) -> Option<usize>
    ensures { result ≡ position is_blank line.now }
{
    line.iter().position(|byte| is_blank(*byte))
}

/// How many bytes come before the first blank, or before the end.
#[tactic(auto, using(crate::proofs::Fields::position_or))]
fn field_length(line: &[u8]) -> usize
    ensures place { result ≡ position_or_len is_blank line.now }
    ensures within { result ≤ length line.now }
{
    first_blank(line).unwrap_or(line.len())
}

/// The fields of a line that are still to come.
#[derive(Clone, Copy)]
pub(crate) struct Fields<'a> {
    pub(crate) rest: &'a [u8],
}

impl<'a> Iterator for Fields<'a> {
    ghost use Rattle.std.specs.Iterator.{YieldsFirstRef, item_count};
    ghost use Rattle.steplines.specs.Walk.{fields_left};

    type Item = &'a [u8];

    ghost next_gives = { YieldsFirstRef fields_left };

    ghost remaining = { item_count fields_left };

    #[tactic(auto, using(crate::proofs::Fields::field_none))]
    fn next(&mut self) -> Option<&'a [u8]> {
        let from = first_in_field(self.rest)?;
        let line = &self.rest[from..];
        let (field, rest) = line.split_at(field_length(line));
        self.rest = rest;
        Some(field)
    }
}

/// Whether a field is the word wanted, whole.
#[tactic(auto, using(crate::proofs::Fields::word_same))]
pub fn is_word(want: &[u8], field: &[u8]) -> bool
    ensures { result ≡ is_word want.now field.now }
{
    field == want
}
