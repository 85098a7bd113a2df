// Tells the bars and limits of stored sheets, which no log asks for. The second implementation
// writes the sheets and the expected output.
//
// The file `sheets` has one sheet after the other, each six bytes and then its requests:
//
//     byte 0      the kind, 0 for plain terms and 1 for derivatives
//     byte 1      n
//     byte 2      how many places it has
//     byte 3      how many order bytes it is opened with
//     bytes 4, 5  how many requests follow, the high byte first
//
// A request is 19 bytes: a letter, a number, and an operand of 17 bytes, which is an element as in
// a log, a list with zeros after it, whose length is the number, or one byte with zeros after it.
//
//     i  insert the element
//     w  withdraw the element
//     a  arrange by the list
//     b  tell the bar and the limits at a place, the number, and a variable, the byte
//     t  tell those of every row and variable
//     p  write the element at a place, the number, outside the calls
//     o  write the list for the order bytes, outside the calls
//     h  write n, the number, and the row count, the byte, outside the calls
#![tactic(auto)]

mod stored;
mod telling;

use elements::{Derivative, PlainTerm};
use std::{fs, io};

fn main(rt: HostRuntime) -> io::Result<()> {
    let bytes = fs::read(&rt, "sheets")?;
    let mut rest = bytes.as_slice();
    // what is left is handed on as a part; there are no more sheets than bytes
    for number in 0..bytes.len() {
        let Some((stored, others)) = stored::first_sheet(rest) else {
            break;
        };
        match stored.kind {
            0 => telling::tell::<PlainTerm>(&rt, number, &stored)?,
            _ => telling::tell::<Derivative>(&rt, number, &stored)?,
        }
        rest = others;
    }
    Ok(())
}
