// Shows an image that comes over standard input: a line with its version and its number of sections, then a row for each section
// with its index, type, table offset and size; or its refusal.
#![tactic(auto)]

use std::io;

// The longest input that is looked at.
const INPUT_LIMIT: usize = 65536;

// One byte more, to see whether there is more.
const ROOM: usize = INPUT_LIMIT + 1;

fn main(rt: HostRuntime) -> io::Result<()> {
    let mut input = [0u8; ROOM];
    let n = block_reader::read_full(&mut rt.reader(), &mut input);
    if INPUT_LIMIT < n {
        return rt.write_all(b"input over 65536\n");
    }
    eif_print::print(&rt, eif_lines::lines(eif_reader::read(&input[..n])))
}
