//! A stretch by its first and its last instant.

ghost use Rattle.std.specs.Prelude.{◌≡◌, ◌<◌, ◌≤◌, ◌^◌};
ghost use Rattle.stretches.specs.Figures.{length_of, through};

use std::marker::Model;

/// A longest run of instants, by its first and its last, which is no earlier; running: it has not ended when the record ends.
#[derive(Clone, Copy, Debug, PartialEq, Eq)]
pub struct Stretch {
    first: usize,
    last: usize,
    running: bool,
}

impl Model for Stretch {
    ghost use Rattle.std.specs.Prelude.{◌≤◌, ◌<◌, ◌^◌};
    ghost use Rattle.stretches.specs.Stretch.{Stretch};

    ghost Value = { Stretch };

    ghost view = { λ s. record { first = s.first; last = s.last; running = s.running } };

    ghost invariant = { λ s. (s.first ≤ s.last) × (s.last < 2 ^ 63) };

    ghost inverse = { λ s. record { first = s.first; last = s.last; running = s.running } };
}

impl Stretch {
    pub(crate) fn new(first: usize, last: usize, running: bool) -> Self
        requires ordered { first ≤ last }
        requires within { last < 2 ^ 63 }
        ensures { result ≡ record { first = first; last = last; running = running } }
    {
        Stretch {
            first,
            last,
            running,
        }
    }

    pub fn first(self) -> usize
        ensures value { result ≡ self.first }
        ensures ordered { self.first ≤ self.last }
    {
        self.first
    }

    pub fn last(self) -> usize
        ensures value { result ≡ self.last }
        ensures ordered { self.first ≤ self.last }
    {
        self.last
    }

    pub fn is_running(self) -> bool
        ensures { result ≡ self.running }
    {
        self.running
    }

    /// How many instants it has.
    pub fn instants(self) -> usize
        ensures { result ≡ length_of self }
    {
        self.last + 1 - self.first
    }

    /// From the first instant of this one to the last of a later one, and as running as that. Where that one ends before this one begins, this one's first
    /// instant alone.
    pub fn through(self, later: Stretch) -> Stretch
        ensures joined { self.first ≤ later.last → result ≡ record { first = self.first; last = later.last; running = later.running } }
        ensures whole { result ≡ through self later }
    {
        Stretch {
            first: self.first,
            last: self.first.max(later.last),
            running: later.running,
        }
    }
}
