// Prefixes of orderings.
ghost use Rattle.std.specs.Prelude.{◌≡◌, ◌≤◌, take};
ghost use Rattle.search.specs.Prefixes.{Entries, Marked, padded};

/// The first entries of an ordering of n variables: distinct ones of these, the greatest first,
/// with zeros after them. It is an array and a length, and no Vec, since the search has no heap and
/// so cannot fail for want of memory. Its eight bytes, with the zeros, are the order bytes of the
/// ordering that it becomes, so that a list of fixed capacity would be no plainer.
#[derive(Clone, Copy)]
pub(crate) struct Prefix {
    entries: [u8; 8],
    len: usize,
    pub(crate) n: u8,
    // whether each variable, at its own index, is an entry
    used: [bool; 9],
    ghost few: { n ≤ 8 },
    ghost within: { len ≤ n },
    ghost proper: { ∥ Entries n (take len entries) ∥₁ },
    ghost zeros: { entries ≡ padded (take len entries) },
    ghost marked: { Marked (take len entries) used },
}

impl Prefix {
    ghost use Rattle.std.specs.Prelude.{◌≡◌, ◌+◌, ◌≤◌, false, replicate, slice_set, MatchOption, IsTrue, ◌↔◌};
    ghost use Rattle.search.specs.Prefixes.{has, completed as completion};
    ghost use Rattle.search.specs.Prefix.{entries_of, last_of, NoneUnusedAbove, IsNextUnused, LosesLast};

    /// No entries yet.
    pub(crate) fn new(n: u8) -> Self
        requires { n ≤ 8 }
        ensures entries { result.entries ≡ replicate 8 0 }
        ensures len { result.len ≡ 0 }
        ensures same { result.n ≡ n }
    {
        Prefix {
            entries: [0; 8],
            len: 0,
            n,
            used: [false; 9],
        }
    }

    // Whether x is one of the entries.
    fn has(&self, x: u8) -> bool
        ensures { result ≡ has x (entries_of self.now) }
    {
        self.used.get(usize::from(x)).is_some_and(|used| *used)
    }

    /// How many entries there are.
    pub(crate) fn count(&self) -> usize
        ensures { result ≡ self.now.len }
    {
        self.len
    }

    /// Whether all variables are entries.
    pub(crate) fn is_full(&self) -> bool
        ensures { IsTrue result ↔ (self.now.len ≡ self.now.n) }
    {
        self.len == self.n as usize
    }

    /// The smallest variable above `from` that is not an entry.
    pub(crate) fn next_unused(&self, from: u8) -> Option<u8>
        ensures { MatchOption result (NoneUnusedAbove self.now from) (IsNextUnused self.now from) }
    {
        (from..self.n)
            .map(|below| below + 1)
            .find(|x| !self.has(*x))
    }

    /// The last entry.
    pub(crate) fn last(&self) -> u8
        requires { 1 ≤ self.now.len }
        ensures { result ≡ last_of self.now }
    {
        self.entries[self.len - 1]
    }

    /// One entry more.
    pub(crate) fn push(&mut self, x: u8)
        requires variable { (1 ≤ x) × (x ≤ self.old.n) }
        requires unused { has x (entries_of self.old) ≡ false }
        ensures entries { self.new.entries ≡ slice_set self.old.entries self.old.len x }
        ensures len { self.new.len ≡ self.old.len + 1 }
        ensures same { self.new.n ≡ self.old.n }
    {
        self.entries[self.len] = x;
        self.len += 1;
        self.used[usize::from(x)] = true;
    }

    /// Takes the last entry off.
    pub(crate) fn pop(&mut self) -> Option<u8>
        ensures last { MatchOption result (self.old.len ≡ 0) (LosesLast self.old self.new) }
        ensures same { self.new.n ≡ self.old.n }
    {
        let at = self.len.checked_sub(1)?;
        let last = self.entries[at];
        self.entries[at] = 0;
        self.len = at;
        self.used[usize::from(last)] = false;
        Some(last)
    }

    /// The ordering that the prefix begins, with the unused variables after it in increasing order.
    pub(crate) fn completed(&self) -> [u8; 8]
        ensures { result ≡ completion self.now.n (entries_of self.now) }
    {
        let mut order = self.entries;
        let mut count = self.len;
        for x in 1..=self.n {
            if !self.has(x) {
                order[count] = x;
                count += 1;
            }
        }
        order
    }
}
