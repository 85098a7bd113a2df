// Positions in lists of variables.
ghost use Rattle.std.specs.Prelude.{◌≡◌, ◌≢◌, ℕ, ◌<◌, ◌≤◌, length};
ghost use Rattle.orderings.specs.Order.{at, IsOrdering};
ghost use Rattle.barcode.specs.Bars.{position as position_in};

/// The position of a variable in a list: the first at which it stands, or the length where it does
/// not. In an ordering of `n` variables each of them stands at its position, one of the first `n`.
pub fn position(order: &[u8], variable: u8) -> usize
    ensures value { result ≡ position_in order.now variable }
    ensures listed { (n : ℕ) → IsOrdering n order.now → 1 ≤ variable → variable ≤ n →
        (result < n) × (at order.now result ≡ variable) }
{
    order
        .iter()
        .position(|listed| *listed == variable)
        .unwrap_or(order.len())
}

/// How many entries two lists have in common before they part.
pub(crate) fn common_front(a: &[u8], b: &[u8]) -> usize
    ensures left { result ≤ length a.now }
    ensures right { result ≤ length b.now }
    ensures same { (j : ℕ) → j < result → at a.now j ≡ at b.now j }
    ensures most { result < length a.now → result < length b.now →
        at a.now result ≢ at b.now result }
{
    let mut front = 0;
    while front < a.len() && front < b.len() && a[front] == b[front] {
        front += 1;
    }
    front
}
