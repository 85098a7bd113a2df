// A table of the limits of a prefix's variables, with a column for each of eight variables.
ghost use Rattle.std.specs.Prelude.{◌≡◌, ◌≤◌, replicate, None};
ghost use Rattle.search.specs.Columns.{Wide, Written, Placed};

use crate::columns::*;
use cones::tables::RowLimits;
use places::Places;

/// The limits of so many rows in eight variables, and which rows have one: few of them do at first,
/// and only these have products to look for.
#[derive(Drop)]
pub(crate) struct Table {
    pub(crate) limits: [RowLimits; 64],
    // the places of the rows with a limit, for variable v at index v - 1
    pub(crate) places: [Places; 8],
    pub(crate) count: usize,
    ghost few: { count ≤ 64 },
    ghost wide: { Wide limits },
    ghost placed: { Placed count limits places },
}

impl Table {
    /// No row has a limit yet.
    pub(crate) fn new(count: usize) -> Self
        requires { count ≤ 64 }
        ensures limits { result.limits ≡ replicate 64 (replicate 8 None) }
        ensures count { result.count ≡ count }
    {
        Table {
            limits: [[None; 8]; 64],
            places: [Places::none(); 8],
            count,
        }
    }

    /// Takes the limits of variable x out again, at all rows.
    pub(crate) fn clear(&mut self, x: u8)
        requires { (1 ≤ x) × (x ≤ 8) }
        ensures column { Written (λ q. None) x self.old.count self.old.limits self.new.limits }
        ensures count { self.new.count ≡ self.old.count }
    {
        clear_limits(&mut self.limits, self.count, x);
        self.places[x as usize - 1] = Places::none();
    }
}
