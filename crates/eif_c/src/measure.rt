// SHA-384 fed in pieces, and the three registers of an image, for programs in C and Rust. A state is a value that the caller keeps.
ghost use Rattle.std.specs.Prelude.{◌≡◌};
ghost use Rattle.sha384.specs.State.{initial_state, updated, digest_from};
ghost use Rattle.eif_registers.specs.Registers.{as_digest, registers_answer};
ghost use Rattle.eif_c.specs.Measure.{flat_fed, flat_registers};

use eif_registers::{Digest, Measurement};
use sha384::State;

// The answer to a piece; beside a refusal, the state is as it was. `reserved` is 0.
#[repr(C)]
#[derive(Clone, Copy)]
pub struct EifSha384Fed {
    pub number: u8,
    pub reserved: [u8; 7],
    pub index: u64,
    pub position: u64,
    pub state: State,
}

// The registers 0, 1 and 2 of an image; beside a refusal, all zero. `reserved` is 0.
#[repr(C)]
#[derive(Clone, Copy)]
pub struct EifRegisters {
    pub number: u8,
    pub reserved: [u8; 7],
    pub index: u64,
    pub position: u64,
    pub registers: [Digest; 3],
}

// The state before the first byte.
#[unsafe(no_mangle)]
pub extern "C" fn eif_sha384_begin() -> State
    ensures { result ≡ initial_state }
{
    sha384::new()
}

#[unsafe(no_mangle)]
pub extern "C" fn eif_sha384_update(state: State, piece: &[u8]) -> EifSha384Fed
    ensures { result ≡ flat_fed (updated state piece.now) }
{
    let done = sha384::update(state, piece);
    let verdict = done.verdict;
    let after = done.state;
    EifSha384Fed {
        number: eif_flat::number_of(verdict),
        reserved: [0u8; 7],
        index: eif_flat::index_of(verdict),
        position: eif_flat::position_of(verdict),
        state: after,
    }
}

#[unsafe(no_mangle)]
pub extern "C" fn eif_sha384_finish(state: State) -> Digest
    ensures { result ≡ as_digest (digest_from state) }
{
    let digest = sha384::finish(state);
    Digest(digest)
}

pub fn flat_registers(measured: Measurement) -> EifRegisters
    ensures { result ≡ flat_registers measured }
{
    let verdict = measured.verdict;
    let registers = measured.registers;
    EifRegisters {
        number: eif_flat::number_of(verdict),
        reserved: [0u8; 7],
        index: eif_flat::index_of(verdict),
        position: eif_flat::position_of(verdict),
        registers,
    }
}

#[unsafe(no_mangle)]
pub extern "C" fn eif_registers(image: &[u8]) -> EifRegisters
    ensures { result ≡ flat_registers (registers_answer image.now) }
{
    flat_registers(eif_registers::registers(image))
}
