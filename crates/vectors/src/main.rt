// Replays the stored logs: each is four bytes that tell its length, the high one first, and then
// its bytes.
#![tactic(auto)]

use logs::inputs::output;
use std::{fs, io};

fn main(rt: HostRuntime) -> io::Result<()> {
    let stored = fs::read(&rt, "logs")?;
    let mut rest = stored.as_slice();
    // what is left is handed on as a part; there are no more logs than bytes
    'logs: for number in 0..stored.len() {
        let [a, b, c, d, after @ ..] = rest else {
            break 'logs;
        };
        let length = u32::from_be_bytes([*a, *b, *c, *d]) as usize;
        if length > after.len() {
            break 'logs;
        }
        let (log, others) = after.split_at(length);
        let text = output(rt.alloc(), log)?;
        println!(rt; "log {number}")?;
        print!(rt; "{text}")?;
        rest = others;
    }
    Ok(())
}
