//! Stretches, joined where they touch: where one begins at the instant at which the one before it ends.

ghost use Rattle.std.specs.Prelude.{◌≡◌};
ghost use Rattle.report.specs.Touching.{joined};

use stretches::{Stretch, Stretches};

/// The joined stretches that are still to come: the next stretch, and those after it.
#[derive(Debug, Drop)]
pub struct Joined<'a> {
    pub next: Option<Stretch>,
    pub later: Stretches<'a>,
}

impl<'a> Joined<'a> {
    ghost use Rattle.stretches.specs.Left.{stretches_left};
    ghost use Rattle.report.specs.Left.{joined_left};

    /// These, joined.
    pub fn new(mut later: Stretches<'a>) -> Self
        ensures { joined_left result ≡ joined (stretches_left later.entry) }
    {
        let next = later.next();
        Joined { next, later }
    }
}

impl<'a> Iterator for Joined<'a> {
    ghost use Rattle.std.specs.Iterator.{YieldsFirst, item_count};
    ghost use Rattle.report.specs.Left.{joined_left};

    type Item = Stretch;

    ghost next_gives = { YieldsFirst joined_left };

    ghost remaining = { item_count joined_left };

    #[tactic(auto, unfolding(crate::specs::Touching::joined_from))]
    #[inline(always)]
    fn next(&mut self) -> Option<Stretch> {
        let mut joined = self.next?;
        let mut later = self.later;
        while let Some(next) = later.next() {
            if joined.last() != next.first() {
                *self = Joined {
                    next: Some(next),
                    later,
                };
                return Some(joined);
            }
            joined = joined.through(next);
        }
        *self = Joined { next: None, later };
        Some(joined)
    }
}
