// A guided tour: one task followed from beginning to end, each step told in words. Two tours tell
// the same set, each its own way: one hands every failure on, the other keeps the last and tells
// runs of calls too. So some of their functions are alike. A library between them would need a
// contract for each line of text that it prints, and an edit that breaks it, and be no plainer.
#![tactic(auto)]

mod bars;
mod calls;
mod page;
mod prefixes;
mod sheet;
mod terms;

use elements::{Kind, PlainTerm};
use page::Page;
use sheets::opening::parts_for;
use std::io;

// The ordering 1,2.
const UP: [u8; 8] = [1, 2, 0, 0, 0, 0, 0, 0];

// The ordering 2,1.
const DOWN: [u8; 8] = [2, 1, 0, 0, 0, 0, 0, 0];

// The term with these exponents of x1 and x2.
fn term(x1: u16, x2: u16) -> PlainTerm {
    <PlainTerm as Kind>::make(0, [x1, x2, 0, 0, 0, 0, 0, 0])
}

fn main(rt: HostRuntime) -> io::Result<()> {
    let heap = rt.alloc();
    let first = parts_for(heap, 2, 4)?;
    let second = parts_for(heap, 2, 2)?;
    let third = parts_for(heap, 2, 3)?;
    let page = Page::new(rt);
    let set = [term(3, 0), term(1, 1), term(0, 2)];
    terms::tell(&page, &set);
    sheet::tell(&page, first, &set);
    sheet::tell_run(&page, second);
    sheet::tell_run_by_thomas(&page, third);
    page.end()
}
