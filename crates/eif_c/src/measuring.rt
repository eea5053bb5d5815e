// The registers of an image that arrives in pieces, for programs in C and Rust (FORMAT.md, Registers and Check while it arrives). A state is a
// value that the caller keeps, and every value is a state.
ghost use Rattle.std.specs.Prelude.{◌≡◌};
ghost use Rattle.arriving_registers.specs.Measuring.{fresh_measuring, fed_measuring, finished_measuring};
ghost use Rattle.eif_c.specs.Measuring.{flat_measured};

use arriving_registers::{Fed, Measuring};
use eif_registers::Digest;

// The state after the end, the reading of the bytes taken, and the registers 0, 1 and 2, all zero for a refused image.
#[repr(C)]
#[derive(Clone, Copy)]
pub struct EifMeasuringFinished {
    pub state: Measuring,
    pub reading: eif_flat::EifReading,
    pub registers: [Digest; 3],
}

// The state before the first byte.
#[unsafe(no_mangle)]
pub extern "C" fn eif_measuring_begin() -> Measuring
    ensures { result ≡ fresh_measuring }
{
    arriving_registers::begin()
}

#[unsafe(no_mangle)]
pub extern "C" fn eif_measuring_feed(state: Measuring, piece: &[u8], allowance: u64) -> Fed
    ensures { result ≡ fed_measuring state piece.now allowance }
{
    arriving_registers::feed(state, piece, allowance)
}

#[unsafe(no_mangle)]
pub extern "C" fn eif_measuring_finish(mut state: Measuring) -> EifMeasuringFinished
    ensures { result ≡ flat_measured (finished_measuring state) }
{
    let reading = arriving::answer(&state.arriving);
    let registers = arriving_registers::digests(reading.verdict, &state.streams);
    state.arriving.ended = 1;
    EifMeasuringFinished {
        state,
        reading: eif_flat::flat_reading(reading),
        registers,
    }
}
