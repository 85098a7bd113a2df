// The first ordering that makes rows complete, and how many prefixes are tested on the way.
ghost use Rattle.std.specs.Prelude.{◌≡◌, ◌≤◌, map, length, None, IfSome};
ghost use Rattle.std.specs.Option.{option_map};
ghost use Rattle.orderings.specs.Order.{VariableCount, IsOrdering};
ghost use Rattle.search.specs.Prefixes.{padded};
ghost use Rattle.search.specs.Liveness.{RowsOfSheet, answer, tested as tested_prefixes};
ghost use Rattle.search.specs.Theorems.{TheTheoremsOfTheSearch};

use crate::prefix::*;
use crate::walk::*;
use divisions::Division;
use elements::Element;
use orderings::orders::is_variable_count;

/// How many prefixes were tested, and the ordering of the first live one that has all variables.
#[derive(Clone, Copy, PartialEq, Eq, Debug)]
pub struct Found {
    pub tested: u32,
    pub ordering: Option<[u8; 8]>,
}

/// Goes through the prefixes in the order of the listing, and goes on from live ones only. Where n
/// is no count of variables, or there are more than 64 rows, nothing is tested and nothing found.
/// What is found is an ordering, whatever the rows.
pub fn search<E: Element, D: Division>(division: &D, rows: &[E], n: u8) -> Found
    ensures ordering { let m = D.meaning division.now in
        let rows = map E.shown rows.now in
        RowsOfSheet n rows → result.ordering ≡ option_map padded (answer m n rows) }
    ensures tested { let m = D.meaning division.now in
        let rows = map E.shown rows.now in
        RowsOfSheet n rows → result.tested ≡ length (tested_prefixes m n rows) }
    ensures ordered { IfSome result.ordering (IsOrdering n) }
    ensures refused { (VariableCount n → length rows.now ≤ 64 → ⊥) →
        (result.tested ≡ 0) × (result.ordering ≡ None) }
    ensures theorems { TheTheoremsOfTheSearch }
{
    if !is_variable_count(n) || rows.len() > 64 {
        return Found {
            tested: 0,
            ordering: None,
        };
    }
    let mut prefix = Prefix::new(n);
    let mut walk = Walk::new(rows);
    let mut from: u8 = 0;
    let mut tested: u32 = 0;
    // the loop ends at the first live prefix of full length, or where no prefix is left, and its
    // value says at which: so no variable holds an ordering that is none yet
    let ordering = 'search: loop {
        match prefix.next_unused(from) {
            None => {
                let Some(last) = prefix.pop() else {
                    break 'search None;
                };
                from = last;
                walk.clear_column(from);
            }
            Some(x) => {
                prefix.push(x);
                tested += 1;
                walk.remember_if_long(tested);
                if !walk.extend(division, &prefix) {
                    prefix.pop();
                    from = x;
                    walk.clear_column(x);
                } else if prefix.is_full() {
                    break 'search Some(prefix.completed());
                } else {
                    from = 0;
                }
            }
        }
    };
    Found { tested, ordering }
}
