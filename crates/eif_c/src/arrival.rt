// The reader of an image that arrives in pieces, for programs in C and Rust (FORMAT.md, Check while it arrives). A state is a value that the
// caller keeps, and any value whatever is one.
ghost use Rattle.std.specs.Prelude.{◌≡◌, []};
ghost use Rattle.arriving.specs.State.{state_of};
ghost use Rattle.arriving.specs.Calls.{fed, finished};
ghost use Rattle.arriving_sections.specs.Span.{span_of};
ghost use Rattle.eif_c.specs.Arrival.{flat_finished};

use arriving::{Arriving, Fed};
use arriving_sections::Span;

// The state once the end is told, and the reading of the bytes taken.
#[repr(C)]
#[derive(Clone, Copy)]
pub struct EifArrivingFinished {
    pub state: Arriving,
    pub reading: eif_flat::EifReading,
}

// The state before the first byte.
#[unsafe(no_mangle)]
pub extern "C" fn eif_arriving_begin() -> Arriving
    ensures { result ≡ state_of [] }
{
    arriving::begin()
}

#[unsafe(no_mangle)]
pub extern "C" fn eif_arriving_feed(state: Arriving, piece: &[u8], allowance: u64) -> Fed
    ensures { result ≡ fed state piece.now allowance }
{
    arriving::feed(state, piece, allowance)
}

#[unsafe(no_mangle)]
pub extern "C" fn eif_arriving_finish(state: Arriving) -> EifArrivingFinished
    ensures { result ≡ flat_finished (finished state) }
{
    let done = arriving::finish(state);
    let told = done.state;
    let reading = done.reading;
    EifArrivingFinished {
        state: told,
        reading: eif_flat::flat_reading(reading),
    }
}

// How many of the next `length` bytes belong together, and to the data of which section.
#[unsafe(no_mangle)]
pub extern "C" fn eif_arriving_next(state: Arriving, length: u64) -> Span
    ensures { result ≡ span_of state length }
{
    arriving_sections::next(state, length)
}
