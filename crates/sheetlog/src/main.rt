// Reads an input with a log, and prints what its commands answer.
#![tactic(auto)]

use logs::inputs::{MOST_BYTES, output};
use std::io;
use std::io::Read;

fn main(rt: HostRuntime) -> io::Result<()> {
    let heap = rt.alloc();
    let mut input = Vec::new(heap);
    // one byte more than is allowed, so that a longer input is seen to be too long
    let most = MOST_BYTES as u64 + 1;
    let _ = rt.stdin().take(most).read_to_end(&mut input)?;
    let text = output(heap, input.as_slice())?;
    print!(rt; "{text}")
}
