// Whether a list of bytes is an ordering.
ghost use Rattle.std.specs.Prelude.{◌<◌, length, IsTrue, ◌↔◌};
ghost use Rattle.orderings.specs.Order.{VariableCount, Repeats, IsNew, IsOrdering, EachVariableStandsOnce};

/// The most variables that a sheet can have.
pub const MOST_VARIABLES: u8 = 8;

/// Whether a sheet can have so many variables.
pub fn is_variable_count(n: u8) -> bool
    ensures { IsTrue result ↔ VariableCount n }
{
    (1..=MOST_VARIABLES).contains(&n)
}

// Whether the entry at position k stands before it too.
fn repeats(list: &[u8], k: usize) -> bool
    requires { k < length list.now }
    ensures { IsTrue result ↔ Repeats list.now k }
{
    list[..k].contains(&list[k])
}

// Whether the entry at position k is one of n variables, and stands nowhere before it.
fn is_new(list: &[u8], k: usize, n: u8) -> bool
    requires { k < length list.now }
    ensures { IsTrue result ↔ IsNew n list.now k }
{
    (1..=n).contains(&list[k]) && !repeats(list, k)
}

/// Whether the list is an ordering of `n` variables, which then lists each of them at one position.
#[tactic(auto, using(crate::proofs::Positions::each_variable_stands_once))]
pub fn is_ordering(list: &[u8], n: u8) -> bool
    ensures test { IsTrue result ↔ IsOrdering n list.now }
    ensures each { EachVariableStandsOnce }
{
    if list.len() != 8 || n > MOST_VARIABLES {
        return false;
    }
    (0..n as usize).all(|k| is_new(list, k, n))
        && list.iter().skip(n as usize).all(|byte| *byte == 0)
}
