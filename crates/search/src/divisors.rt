// Which rows can divide the products of a row with the powers of a variable.
ghost use Rattle.std.specs.Prelude.{◌≡◌, ◌<◌, ◌≤◌, map, length, IsTrue, ◌↔◌};
ghost use Rattle.orderings.specs.Rows.{row as row_at};
ghost use Rattle.search.specs.Divisors.{DividesBut, HasDivisorsBut, Known};

use elements::Element;
use places::Places;

/// For each row and each of eight variables, one after another, the places of the rows that divide
/// it but for that variable: found when they are first asked for, since a search that is short asks
/// for few of them, and kept.
#[derive(Drop)]
pub(crate) struct Divisors<'a, E: Element> {
    pub(crate) rows: &'a [E],
    places: [Places; 512],
    ghost few: { length rows.now ≤ 64 },
    ghost known: { Known (map E.shown rows.now) places },
}

// Whether a row divides another, but for its exponent of one variable.
fn divides_but<E: Element>(variable: u8, row: &E, other: &E) -> bool
    ensures { IsTrue result ↔ (DividesBut variable (E.shown row.now) (E.shown other.now)) }
{
    row.family() == other.family()
        && (0..8).all(|i| i + 1 == variable || row.exponent(i + 1) <= other.exponent(i + 1))
}

// The places of the rows that divide another but for one variable.
fn divisors_but<E: Element>(variable: u8, rows: &[E], other: &E) -> Places
    requires { length rows.now ≤ 64 }
    ensures { HasDivisorsBut variable (map E.shown rows.now) (E.shown other.now) result }
{
    let mut places = Places::none();
    for (place, row) in rows.iter().enumerate() {
        if divides_but(variable, row, other) {
            places.insert(place);
        }
    }
    places
}

impl<'a, E: Element> Divisors<'a, E> {
    /// None is known yet.
    pub(crate) fn new(rows: &'a [E]) -> Self
        requires { length rows.now ≤ 64 }
        ensures { result.rows.now ≡ rows.now }
    {
        Divisors {
            rows,
            places: [Places::none(); 512],
        }
    }

    /// The places of the rows that divide the row of a place but for one variable.
    pub(crate) fn of(&mut self, place: usize, variable: u8) -> Places
        requires row { place < length self.old.rows.now }
        requires variable { (1 ≤ variable) × (variable ≤ 8) }
        ensures places { let rows = map E.shown self.old.rows.now in
            HasDivisorsBut variable rows (row_at rows place) result }
        ensures same { self.new.rows ≡ self.old.rows }
    {
        let cell = place * 8 + variable as usize - 1;
        let known = self.places[cell];
        if !known.is_empty() {
            return known;
        }
        let found = divisors_but(variable, self.rows, &self.rows[place]);
        self.places[cell] = found;
        found
    }
}
