// The worked sets: ten results shown together, twelve small sheets on which the definitions and
// the second implementation agree, and one of the results run.
#![tactic(auto)]

ghost use Rattle.std.specs.Prelude.{◌≡◌, [], ◌∷◌, Some};
ghost use Rattle.worked.specs.Sets.{TheTenWorkedResults};
ghost use Rattle.worked.specs.Seeded.{TheSeededSheetsAreAsTheReferenceSays};

use divisions::Janet;
use elements::{Kind, PlainTerm};
use search::searching::{Found, search};

/// The search on x1³, x1x2, x2² by Janet division: prefix 1 is dead, 2 is live, and 2,1 is the
/// answer.
pub fn settle_set_b() -> Found
    ensures tested { result.tested ≡ 3 }
    ensures ordering { result.ordering ≡ Some (2 ∷ 1 ∷ 0 ∷ 0 ∷ 0 ∷ 0 ∷ 0 ∷ 0 ∷ []) }
    ensures ten { TheTenWorkedResults }
    ensures seeded { TheSeededSheetsAreAsTheReferenceSays }
{
    let cube = PlainTerm::make(0, [3, 0, 0, 0, 0, 0, 0, 0]);
    let mixed = PlainTerm::make(0, [1, 1, 0, 0, 0, 0, 0, 0]);
    let square = PlainTerm::make(0, [0, 2, 0, 0, 0, 0, 0, 0]);
    search(&Janet, &[cube, mixed, square], 2)
}
