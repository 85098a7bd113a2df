// The open sheet, and its calls.
ghost use Rattle.std.specs.Prelude.{[], ◌∷◌, ◌≡◌, IfOk, IfErr};
ghost use Rattle.orderings.specs.Answer.{answer, granted, refusal};
ghost use Rattle.sheets.specs.Book.{insert as to_insert, withdraw as to_withdraw, arrange as to_arrange, limit_told, bar as to_bar, limit as to_limit, verdict as to_verdict, weigh as to_weigh, opened, settled_by, settle as to_settle};
ghost use Rattle.sheets.specs.Read.{StaysOpenAsPromised, bar_told, verdict_told, MakesSheet, ActsAsPromised, outcome_answer, outcome_of, serving_told, settled_division, settled_state};
ghost use Rattle.sheets.specs.declared.parts.Parts.{Parts};

use crate::answers::*;
use crate::parts::*;
use crate::settled_sheet::*;
use crate::sheet_view::SheetView;
use divisions::Division;
use elements::{Kind, blank};
use orderings::fitting::is_fit;
use orderings::orders::is_ordering;
use orderings::refusals::Refusal;
use search::searching::search;

/// A sheet that takes edits.
#[derive(Drop)]
pub struct OpenSheet<E> {
    pub parts: Parts<E>,
}

impl<E: Kind> OpenSheet<E> {
    /// Puts the element after the last row, and gives its place.
    pub fn insert(&mut self, element: E) -> Result<usize, Refusal>
        ensures { let call = to_insert (E.shown element) in
            let told = answer (λ p. p ∷ []) result in
            StaysOpenAsPromised E.admitted E.shown self.old call told self.new }
    {
        let sheet = SheetView::of(&self.parts)?;
        if !is_fit(&element, self.parts.header.variables) {
            return Err(Refusal::UnfitElement);
        }
        if sheet.place_of(&element).is_some() {
            return Err(Refusal::AlreadyARow);
        }
        let count = self.parts.header.rows as usize;
        if count >= self.parts.table.len() {
            return Err(Refusal::TableFull);
        }
        self.parts.table[count] = element;
        self.parts.header.rows += 1;
        Ok(count)
    }

    /// Takes the element out of the rows: each later row moves down one place, and a blank follows
    /// the last.
    pub fn withdraw(&mut self, element: &E) -> Result<(), Refusal>
        ensures { let call = to_withdraw (E.shown element.now) in
            let told = answer (λ _. []) result in
            StaysOpenAsPromised E.admitted E.shown self.old call told self.new }
    {
        let sheet = SheetView::of(&self.parts)?;
        if !is_fit(element, self.parts.header.variables) {
            return Err(Refusal::UnfitElement);
        }
        let Some(place) = sheet.place_of(element) else {
            return Err(Refusal::NotARow);
        };
        // every place after the rows is blank, so a blank at the end is one after the last row
        let _ = self.parts.table.remove(place);
        self.parts.table.push_reserved(blank());
        self.parts.header.rows -= 1;
        Ok(())
    }

    /// Makes the list the sheet's ordering.
    pub fn arrange(&mut self, list: &[u8]) -> Result<(), Refusal>
        ensures { let call = to_arrange list.now in
            let told = answer (λ _. []) result in
            StaysOpenAsPromised E.admitted E.shown self.old call told self.new }
    {
        let _ = SheetView::of(&self.parts)?;
        if !is_ordering(list, self.parts.header.variables) {
            return Err(Refusal::NotAnOrdering);
        }
        self.parts.order.copy_from_slice(list);
        Ok(())
    }

    /// The bar of a variable under the row of a place.
    pub fn bar(&self, place: usize, variable: u8) -> Result<Bar, Refusal>
        ensures { let call = to_bar place variable in
            let told = answer bar_told result in
            StaysOpenAsPromised E.admitted E.shown self.now call told self.now }
    {
        let sheet = SheetView::of(&self.parts)?;
        if !sheet.has_bar(place, variable) {
            return Err(Refusal::NoSuchBar);
        }
        let bar_code = sheet.bar_code();
        Ok(Bar {
            number: bar_code.bar_number(place, variable),
            star: bar_code.has_star(place, variable),
        })
    }

    /// The limit that a division sets for a variable at the row of a place, or that it sets none.
    pub fn limit<D: Division>(
        &self,
        division: &D,
        place: usize,
        variable: u8,
    ) -> Result<Option<u16>, Refusal>
        ensures { let call = to_limit (D.meaning division.now) place variable in
            let told = answer limit_told result in
            StaysOpenAsPromised E.admitted E.shown self.now call told self.now }
    {
        let sheet = SheetView::of(&self.parts)?;
        if !sheet.has_bar(place, variable) {
            return Err(Refusal::NoSuchBar);
        }
        Ok(division.limit(&sheet.bar_code(), place, variable))
    }

    /// Whether the rows are complete by a division under the sheet's ordering.
    pub fn verdict<D: Division>(&self, division: &D) -> Result<Verdict<E>, Refusal>
        ensures { let call = to_verdict (D.meaning division.now) in
            let told = answer (verdict_told E.shown) result in
            StaysOpenAsPromised E.admitted E.shown self.now call told self.now }
    {
        let sheet = SheetView::of(&self.parts)?;
        if self.parts.header.rows < 1 {
            return Err(Refusal::NoRows);
        }
        Ok(sheet.verdict_under(division, &self.parts.order))
    }

    /// Whether the rows are complete by a division under an ordering that is handed in.
    pub fn weigh<D: Division>(&self, division: &D, order: &[u8]) -> Result<Verdict<E>, Refusal>
        ensures { let call = to_weigh (D.meaning division.now) order.now in
            let told = answer (verdict_told E.shown) result in
            StaysOpenAsPromised E.admitted E.shown self.now call told self.now }
    {
        let sheet = SheetView::of(&self.parts)?;
        if !is_ordering(order, self.parts.header.variables) {
            return Err(Refusal::NotAnOrdering);
        }
        if self.parts.header.rows == 0 {
            return Err(Refusal::NoRows);
        }
        Ok(sheet.verdict_under(division, order))
    }

    // The first ordering that makes the rows complete by the division, with the count of tested
    // prefixes, or why the sheet is not settled.
    fn serving_ordering<D: Division>(&self, division: &D) -> Result<ServingOrdering, Refusal>
        ensures makes_sheet { IfOk result (λ s. MakesSheet E.admitted E.shown self.now.parts) }
        ensures found { let d = D.meaning division.now in
            IfOk result (λ s. (q : Parts E) →
            q.table ≡ self.now.parts.table → q.header ≡ self.now.parts.header →
            q.order.items ≡ s.ordering →
            ActsAsPromised E.admitted E.shown
            opened self.now.parts (to_settle d) (granted (serving_told s)) (settled_by d) q) }
        ensures none_found { let call = to_settle (D.meaning division.now) in
            IfErr result (λ why.
            StaysOpenAsPromised E.admitted E.shown self.now call (refusal why) self.now) }
    {
        let rows = SheetView::of(&self.parts)?.rows();
        if rows.is_empty() {
            return Err(Refusal::NoRows);
        }
        let found = search(division, rows, self.parts.header.variables);
        match found.ordering {
            Some(ordering) => Ok(ServingOrdering {
                tested: found.tested,
                ordering,
            }),
            None => Err(Refusal::NoOrdering(found.tested)),
        }
    }

    /// Writes the first ordering that makes the rows complete by the division, and makes this a
    /// settled sheet that carries the division.
    pub fn settle<D: Division>(self, division: D) -> Result<Settling<E, D>, Denied<OpenSheet<E>>>
        ensures step { let call = to_settle (D.meaning division) in
            let told = outcome_answer (λ s. serving_told s.found) result in
            let next = outcome_of (λ _. opened) (λ s. settled_state D.meaning s.sheet) result in
            let after = outcome_of (λ s. s.parts) (λ s. s.sheet.parts) result in
            ActsAsPromised E.admitted E.shown opened self.parts call told next after }
        ensures carried { IfOk result (λ s. settled_division s.sheet ≡ division) }
        ensures back { IfErr result (λ d. d.back ≡ self) }
    {
        match self.serving_ordering(&division) {
            Err(why) => Err(Denied { back: self, why }),
            Ok(found) => {
                let OpenSheet { mut parts } = self;
                parts.order.copy_from_slice(&found.ordering);
                let sheet = SettledSheet { parts, division };
                Ok(Settling { sheet, found })
            }
        }
    }
}
