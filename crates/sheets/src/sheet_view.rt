// Parts that make a sheet, and what is read of them.
ghost use Rattle.std.specs.Prelude.{◌≡◌, ◌<◌, ◌≤◌, map, length, MatchOption, MatchResult, IsTrue, ◌↔◌};
ghost use Rattle.std.specs.List.{ContainsAt};
ghost use Rattle.orderings.specs.Rows.{row};
ghost use Rattle.orderings.specs.declared.refusals.Refusal.TheVariants.{NotASheet};
ghost use Rattle.sheets.specs.Book.{opened, HasBar, TellsVerdict};
ghost use Rattle.sheets.specs.Read.{MakesSheet, book, places_of, rows_of, order_of, verdict_told};
ghost use Rattle.orderings.specs.Answer.{granted};
ghost use Rattle.orderings.specs.Order.{IsOrdering};

use crate::answers::Verdict;
use crate::judging::*;
use crate::parts::*;
use barcode::bar_code::BarCode;
use cones::judging::shortfall_by;
use cones::shortfalls::Shortfall;
use divisions::Division;
use elements::Kind;
use orderings::refusals::Refusal;

/// Parts that make a sheet.
#[derive(Drop)]
pub(crate) struct SheetView<'a, E: Kind> {
    pub(crate) parts: &'a Parts<E>,
    ghost makes_sheet: { MakesSheet E.admitted E.shown parts.now },
}

impl<'a, E: Kind> SheetView<'a, E> {
    /// The parts as those of a sheet, if they make one.
    pub(crate) fn of(parts: &'a Parts<E>) -> Result<SheetView<'a, E>, Refusal>
        ensures { MatchResult result
            (λ view. MakesSheet E.admitted E.shown parts.now × (view.parts.now ≡ parts.now))
            (λ why. (MakesSheet E.admitted E.shown parts.now → ⊥) × (why ≡ NotASheet)) }
    {
        if !makes_sheet(parts) {
            return Err(Refusal::NotASheet);
        }
        Ok(SheetView { parts })
    }

    /// The rows, from place 0 on.
    pub(crate) fn rows(&self) -> &'a [E]
        ensures rows { map E.shown result.now ≡ rows_of E.shown self.now.parts.now }
        ensures count { length result.now ≡ self.now.parts.now.header.rows }
    {
        &self.parts.table[..self.parts.header.rows as usize]
    }

    /// The Bar Code of the rows under the sheet's ordering.
    pub(crate) fn bar_code(&self) -> BarCode<'a, E>
        ensures rows { map E.shown result.rows.now ≡ rows_of E.shown self.now.parts.now }
        ensures order { result.order.now ≡ order_of self.now.parts.now }
        ensures count { length result.rows.now ≡ self.now.parts.now.header.rows }
    {
        BarCode::new(self.rows(), &self.parts.order)
    }

    /// The place of the row that is the element, if one is.
    pub(crate) fn place_of(&self, element: &E) -> Option<usize>
        ensures { let parts = self.now.parts.now in
            let sought = E.shown element.now in
            MatchOption result (ContainsAt (rows_of E.shown parts) sought → ⊥)
            (λ p. (p < parts.header.rows) × (row (places_of E.shown parts) p ≡ sought)) }
    {
        place_of(self.rows(), element)
    }

    /// Whether a place has a row, and a number is one of the sheet's variables.
    pub(crate) fn has_bar(&self, place: usize, variable: u8) -> bool
        ensures { IsTrue result ↔
            HasBar (book E.admitted E.shown opened self.now.parts.now) place variable }
    {
        let Header { variables, rows } = self.parts.header;
        place < rows as usize && (1..=variables).contains(&variable)
    }

    /// The verdict on the rows, by a division under an ordering. There is a row to judge.
    pub(crate) fn verdict_under<D: Division>(&self, division: &D, order: &[u8]) -> Verdict<E>
        requires ordered { IsOrdering self.now.parts.now.header.variables order.now }
        requires some { 1 ≤ self.now.parts.now.header.rows }
        ensures { let parts = self.now.parts.now in
            let rows = rows_of E.shown parts in
            let limits = D.meaning division.now rows order.now in
            let told = granted (verdict_told E.shown result) in
            TellsVerdict parts.header.variables rows limits told }
    {
        let rows = self.rows();
        match shortfall_by(
            division,
            &BarCode::new(rows, order),
            self.parts.header.variables,
        ) {
            None => Verdict {
                complete: true,
                element: rows[0],
                place: 0,
                variable: 0,
                power: 0,
            },
            Some(
                Shortfall {
                    place,
                    variable,
                    power,
                },
            ) => {
                Verdict {
                    complete: false,
                    element: rows[place],
                    place,
                    variable,
                    power,
                }
            }
        }
    }
}
