// Sets of places of a sheet, which has at most 64.
#![tactic(auto)]

ghost use Rattle.std.specs.Prelude.{◌≡◌, ◌<◌, ◌≤◌, ◌↔◌, IsTrue, IfSome, MatchOption};
ghost use Rattle.places.specs.Places.{IsEmpty, IsFirst, Adds, Removes, IsSmaller};

/// A set of places below 64, with a bit for each.
#[derive(Clone, Copy, PartialEq, Eq, Debug)]
pub struct Places {
    bits: u64,
}

impl Places {
    /// The set without a place.
    pub fn none() -> Places
        ensures { IsEmpty result }
    {
        Places { bits: 0 }
    }

    /// Whether the set has no place.
    pub fn is_empty(&self) -> bool
        ensures { IsTrue result ↔ IsEmpty self.now }
    {
        self.bits == 0
    }

    /// Puts a place in. One past the 64th changes nothing.
    pub fn insert(&mut self, place: usize)
        ensures below { place < 64 → Adds self.old self.new place }
        ensures past { 64 ≤ place → self.new ≡ self.old }
    {
        if place < 64 {
            self.bits |= 1 << place;
        }
    }

    /// Takes the first place out, if there is one.
    pub fn take_first(&mut self) -> Option<usize>
        ensures first { MatchOption result (IsEmpty self.old) (IsFirst self.old) }
        ensures rest { MatchOption result (self.new ≡ self.old) (Removes self.old self.new) }
        ensures fewer { IfSome result (λ _. IsSmaller self.old self.new) }
    {
        if self.is_empty() {
            return None;
        }
        let first = self.bits.trailing_zeros();
        self.bits &= !(1 << first);
        Some(first as usize)
    }
}
