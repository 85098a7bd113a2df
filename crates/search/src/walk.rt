// What a search keeps while it goes from prefix to prefix.
ghost use Rattle.std.specs.Prelude.{◌≡◌, length};
ghost use Rattle.search.specs.Memo.{RemembersRows};

use crate::columns::*;
use crate::cone_table::*;
use crate::memo::*;
use crate::prefix::*;
use crate::table::*;
use cones::limited_rows::LimitedRows;
use divisions::Division;
use elements::Element;

// The prefix with which a search begins to be long.
const LONG: u32 = 64;

/// The limits of a prefix's variables at the rows, and where the products with these lie, while
/// entries come and go. A search that is long has a memo too.
#[derive(Drop)]
pub(crate) struct Walk<'a, E: Element> {
    rows: &'a [E],
    table: Table,
    cones: ConeTable,
    // where products lay before they left a cone
    former: ConeTable,
    memo: Option<Memo<'a, E>>,
    ghost count: { table.count ≡ length rows.now },
    ghost remembered: { RemembersRows rows.now memo },
}

impl<'a, E: Element> Walk<'a, E> {
    ghost use Rattle.std.specs.Prelude.{◌≡◌, ◌≤◌, length, replicate, None};
    ghost use Rattle.search.specs.Liveness.{RowsOfSheet};
    ghost use Rattle.search.specs.Columns.{column};
    ghost use Rattle.search.specs.Prefix.{entries_of, shorter};
    ghost use Rattle.search.specs.declared.cone_table.TheConstants.{NOWHERE};
    ghost use Rattle.search.specs.Walk.{rows_of, IsAtPrefix, WritesColumn, TakesIn};

    /// Stands at the prefix without entries.
    pub(crate) fn new(rows: &'a [E]) -> Self
        requires { length rows.now ≤ 64 }
        ensures rows { result.rows.now ≡ rows.now }
        ensures limits { result.table.limits ≡ replicate 64 (replicate 8 None) }
        ensures cones { result.cones ≡ replicate 64 (replicate 8 NOWHERE) }
    {
        Walk {
            rows,
            table: Table::new(rows.len()),
            cones: [[NOWHERE; 8]; 64],
            former: [[NOWHERE; 8]; 64],
            memo: None,
        }
    }

    /// Once so many prefixes are tested that the search is long, remembers from then on what makes
    /// it quicker.
    pub(crate) fn remember_if_long(&mut self, tested: u32)
        ensures rows { self.new.rows.now ≡ self.old.rows.now }
        ensures table { self.new.table ≡ self.old.table }
        ensures cones { self.new.cones ≡ self.old.cones }
    {
        if tested == LONG {
            self.memo = Some(Memo::of(self.rows));
        }
    }

    // Writes the limits of variable x under an ordering into the table; `above` is how many
    // variables it lists before x.
    fn write_column<D: Division>(&mut self, division: &D, order: &[u8], above: usize, x: u8)
        requires { (1 ≤ x) × (x ≤ 8) }
        ensures column { let limits = D.meaning division.now (rows_of self.old) order.now in
            WritesColumn (column limits x) x self.old self.new }
        ensures rows { self.new.rows.now ≡ self.old.rows.now }
        ensures cones { self.new.cones ≡ self.old.cones }
    {
        let rows = self.rows;
        let table = &mut self.table;
        let places = match &mut self.memo {
            None => { fill_column_by_rows(&mut table.limits, division, rows, order, x) }
            Some(memo) => {
                memo.bars.learn(order, above);
                fill_column_by_bars(&mut table.limits, division, &memo.bars, order, x)
            }
        };
        table.places[x as usize - 1] = places;
    }

    /// Takes the limits of variable x out again.
    pub(crate) fn clear_column(&mut self, x: u8)
        requires { (1 ≤ x) × (x ≤ 8) }
        ensures column { WritesColumn (λ q. None) x self.old self.new }
        ensures rows { self.new.rows.now ≡ self.old.rows.now }
        ensures cones { self.new.cones ≡ self.old.cones }
    {
        self.table.clear(x);
    }

    /// Adds the limits of the last entry of a prefix to those of the others, and tells whether the
    /// prefix is live, where it stood at the shorter one and this is live.
    pub(crate) fn extend<D: Division>(&mut self, division: &D, prefix: &Prefix) -> bool
        requires { 1 ≤ prefix.now.len }
        ensures extended { let m = D.meaning division.now in
            let n = prefix.now.n in
            let before = shorter prefix.now in
            RowsOfSheet n (rows_of self.old) → IsAtPrefix m n before self.old →
            TakesIn m n before (entries_of prefix.now) result self.old self.new }
        ensures rows { self.new.rows.now ≡ self.old.rows.now }
    {
        let order = prefix.completed();
        let x = prefix.last();
        self.write_column(division, &order, prefix.count() - 1, x);
        let table = &self.table;
        let limited = LimitedRows {
            rows: self.rows,
            limits: &table.limits,
            n: prefix.n,
        };
        relocate(
            &limited,
            &table.places,
            &mut self.memo,
            &mut self.cones,
            &mut self.former,
            x,
        )
    }
}
