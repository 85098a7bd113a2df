// The bars of the first variables, kept for many questions.
ghost use Rattle.std.specs.Prelude.{◌≡◌, ℕ, ◌+◌, ◌<◌, ◌≤◌, slice_set, map, length};
ghost use Rattle.barcode.specs.BarCode.{KnowsBars};
ghost use Rattle.std.specs.Option.{ForSome};
ghost use Rattle.barcode.specs.BarSets.{SetsOver, over_first};
ghost use Rattle.barcode.specs.Exceeded.{TellExceeded};

use crate::bar_code::*;
use crate::greatest::*;
use crate::level::*;
use crate::positions::*;
use elements::Element;
use places::Places;

/// The bars of the first variables of an ordering, kept for many questions. Of more than 64 rows
/// none is kept.
#[derive(Drop)]
pub struct Bars<'a, E: Element> {
    rows: &'a [E],
    // the first so many of the listed variables are those whose bars are known
    listed: [u8; 8],
    known: usize,
    over: [Level; 9],
    greatest: Option<[u16; 8]>,
    ghost most: { known ≤ 8 },
    ghost right: { length rows.now ≤ 64 → (k : ℕ) → k ≤ known →
        SetsOver (map E.shown rows.now) listed k (over_first over k) },
    ghost tops: { ForSome greatest (TellExceeded (map E.shown rows.now)) },
}

impl<'a, E: Element> Bars<'a, E> {
    ghost use Rattle.barcode.specs.KeptBars.{HasFewRows, HasManyRows, KnowsFirst, KnowsSoMany, FollowsOrder};

    /// The bars of rows, known of no variable yet.
    pub fn of(rows: &'a [E]) -> Self
        ensures { result.rows.now ≡ rows.now }
    {
        let mut over = [Level {
            sets: [Places::none(); 64],
        }; 9];
        if rows.len() <= 64 {
            over[0] = families(rows);
        }
        Bars {
            rows,
            listed: [0; 8],
            known: 0,
            over,
            greatest: greatest_exponents(rows),
        }
    }

    // The bars of one variable more.
    fn add(&mut self, variable: u8)
        requires few { HasFewRows self.old }
        requires room { self.old.known < 8 }
        ensures rows { self.new.rows.now ≡ self.old.rows.now }
        ensures known { self.new.known ≡ self.old.known + 1 }
        ensures listed { self.new.listed ≡ slice_set self.old.listed self.old.known variable }
    {
        let known = self.known;
        self.over[known + 1] = split(self.rows, &self.over[known], variable);
        self.listed[known] = variable;
        self.known = known + 1;
    }

    /// Makes the bars of the first variables of an ordering known, of so many as are asked for and
    /// at most 8. Those that are known already are kept. Of more than 64 rows no more becomes
    /// known.
    pub fn learn(&mut self, order: &[u8], most: usize)
        ensures rows { self.new.rows.now ≡ self.old.rows.now }
        ensures known { HasFewRows self.old → KnowsFirst self.new order.now most }
        ensures many { HasManyRows self.old → self.new ≡ self.old }
    {
        if self.rows.len() > 64 {
            return;
        }
        self.known = common_front(&self.listed[..self.known], order);
        let most = most.min(order.len()).min(8);
        while self.known < most {
            self.add(order[self.known]);
        }
    }

    /// The rows under an ordering, with what is known of the bars of its first variables, and with
    /// their greatest exponents where they are of one family.
    pub fn bar_code<'b>(&'b self, order: &'b [u8]) -> BarCode<'b, E>
        ensures rows { result.rows.now ≡ self.now.rows.now }
        ensures order { result.order.now ≡ order.now }
        ensures bars { HasFewRows self.now → (k : ℕ) → KnowsSoMany self.now k →
            FollowsOrder self.now order.now k → KnowsBars result k }
    {
        if self.rows.len() > 64 {
            return BarCode::new(self.rows, order);
        }
        let front = common_front(&self.listed[..self.known], order);
        BarCode {
            rows: self.rows,
            order,
            bars: &self.over[..=front],
            sorting: None,
            greatest: self.greatest,
        }
    }
}
