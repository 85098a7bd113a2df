// The settled sheet, and its calls.
ghost use Rattle.std.specs.Prelude.{◌≡◌, [], ◌∷◌, IfErr};
ghost use Rattle.orderings.specs.Answer.{answer};
ghost use Rattle.sheets.specs.Book.{opened, locate as to_locate, reopen as to_reopen};
ghost use Rattle.sheets.specs.Read.{ActsAsPromised, outcome_answer, outcome_of, settled_division, settled_state};

use crate::answers::*;
use crate::open_sheet::OpenSheet;
use crate::parts::*;
use crate::sheet_view::SheetView;
use cones::judging::limits_by;
use cones::limited_rows::LimitedRows;
use divisions::Division;
use elements::Kind;
use orderings::fitting::is_admitted;
use orderings::refusals::Refusal;

/// A sheet that was settled by a division, which it carries.
#[derive(Drop)]
pub struct SettledSheet<E, D> {
    pub parts: Parts<E>,
    pub(crate) division: D,
}

/// A sheet that was just settled, with what was found.
#[derive(Drop)]
pub struct Settling<E, D> {
    pub sheet: SettledSheet<E, D>,
    pub found: ServingOrdering,
}

impl<E: Kind, D: Division> SettledSheet<E, D> {
    /// The division by which the sheet was settled.
    pub fn division(&self) -> &D
        ensures { result.now ≡ settled_division self.now }
    {
        &self.division
    }

    /// The place of the row whose cone holds the element.
    pub fn locate(&self, element: &E) -> Result<usize, Refusal>
        ensures { let state = settled_state D.meaning self.now in
            let call = to_locate (E.shown element.now) in
            let told = answer (λ p. p ∷ []) result in
            ActsAsPromised E.admitted E.shown state self.now.parts call told state self.now.parts }
    {
        let sheet = SheetView::of(&self.parts)?;
        let n = self.parts.header.variables;
        if !is_admitted(element, n) {
            return Err(Refusal::UnfitElement);
        }
        let limits = limits_by(&self.division, &sheet.bar_code(), n);
        let limited = LimitedRows {
            rows: sheet.rows(),
            limits: &limits,
            n,
        };
        match limited.cone_of(element) {
            Some(place) => Ok(place),
            None => Err(Refusal::NoCone),
        }
    }

    /// Gives the open sheet back, unaltered.
    pub fn reopen(self) -> Result<OpenSheet<E>, Denied<SettledSheet<E, D>>>
        ensures step { let state = settled_state D.meaning self in
            let told = outcome_answer (λ _. []) result in
            let next = outcome_of (settled_state D.meaning) (λ _. opened) result in
            let after = outcome_of (λ s. s.parts) (λ s. s.parts) result in
            ActsAsPromised E.admitted E.shown state self.parts to_reopen told next after }
        ensures back { IfErr result (λ d. d.back ≡ self) }
    {
        match SheetView::of(&self.parts) {
            Err(why) => Err(Denied { back: self, why }),
            Ok(_) => {
                let SettledSheet { parts, division: _ } = self;
                Ok(OpenSheet { parts })
            }
        }
    }
}
