// What the tour is told on.
use orderings::refusals::Refusal;
use std::cell::Cell;
use std::fmt::Display;
use std::io;

/// Prints what it is told, piece by piece, and keeps the last failure for the end: `print!` and
/// `println!` take it as they take the runtime, and give nothing. With `?` at each print, as in
/// `tour`, every one of the many small steps would have to hand failures on.
#[derive(Drop)]
pub(crate) struct Page {
    rt: HostRuntime,
    printed: Cell<io::Result<()>>,
}

impl Page {
    /// A page on which nothing is printed yet.
    pub(crate) fn new(rt: HostRuntime) -> Page {
        Page {
            rt,
            printed: Cell::new(Ok(())),
        }
    }

    /// The last failure, if any print failed.
    pub(crate) fn end(self) -> io::Result<()> {
        self.printed.into_inner()
    }

    /// Prints a text.
    pub(crate) fn print<T: Display + Drop>(&self, text: T) {
        self.keep(self.rt.print(text));
    }

    /// Prints a text and ends the line.
    pub(crate) fn println<T: Display + Drop>(&self, text: T) {
        self.keep(self.rt.println(text));
    }

    fn keep(&self, printed: io::Result<()>) {
        if printed.is_err() {
            self.printed.set(printed);
        }
    }

    /// A line that says why a call was refused.
    pub(crate) fn refusal(&self, refusal: Refusal) {
        let number = u8::from(refusal);
        match refusal {
            Refusal::NoOrdering(tested) => {
                println!(self; "refused by {number}, {refusal}; prefixes tested: {tested}.");
            }
            _ => println!(self; "refused by {number}, {refusal}."),
        }
    }
}
