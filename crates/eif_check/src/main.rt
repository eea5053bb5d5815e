// Checks an image of any size that comes over standard input, by the reader that is handed pieces: the rows and refusal lines of
// eif_show, with a buffer of 32 KiB and a state of less than one.
#![tactic(auto)]

ghost use Rattle.eif_check.specs.Pieces.{FirstPastLimit};

use arriving::Arriving;
use std::io::{self, Read};

const PIECE: usize = 32768;

// How many pieces are read at most: an image that fills all of them is too long, whatever follows.
fn most_pieces() -> usize
    ensures { FirstPastLimit result }
{
    eif::SIZE_LIMIT / PIECE + 1
}

#[derive(Clone, Copy)]
struct Taken {
    state: Arriving,
    more: bool,
}

// The state after the next piece. A piece that is not full is the last.
fn take_piece<R: Read>(input: &mut R, state: Arriving) -> Taken {
    let mut piece = [0u8; PIECE];
    let n = block_reader::read_full(input, &mut piece);
    let fed = arriving::feed(state, &piece[..n], n as u64);
    let next = fed.state;
    Taken {
        state: next,
        more: n == PIECE,
    }
}

// The state at the end of the input, or when the image is too long.
fn arrived<R: Read>(input: &mut R) -> Arriving {
    let mut state = arriving::begin();
    let mut left = most_pieces();
    while 0 < left {
        let taken = take_piece(input, state);
        let next = taken.state;
        state = next;
        if taken.more {
            left -= 1;
        } else {
            left = 0;
        }
    }
    state
}

fn main(rt: HostRuntime) -> io::Result<()> {
    let finished = arriving::finish(arrived(&mut rt.reader()));
    let reading = finished.reading;
    eif_print::print(&rt, eif_lines::lines(reading))
}
