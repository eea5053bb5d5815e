// The fingerprint of an image, of a staged view, and of an image that arrives in pieces, for programs in C and Rust (FORMAT.md, The boot roll,
// Staging, Check while it arrives). A state is a value that the caller keeps, and every value is a state.
ghost use Rattle.std.specs.Prelude.{◌≡◌};
ghost use Rattle.eif_fingerprint.specs.Fingerprint.{fingerprint_answer, staged_fingerprint};
ghost use Rattle.arriving_fingerprint.specs.Fingerprinting.{fresh_fingerprinting, fed_fingerprinting, finished_fingerprinting};
ghost use Rattle.eif_c.specs.Fingerprint.{flat_fingerprint, flat_fingerprinting};

use arriving_fingerprint::{Fed, Fingerprinting};
use eif_fingerprint::Fingerprinted;
use eif_registers::Digest;

// The fingerprint of an image; zero for a refused image. `reserved` is 0.
#[repr(C)]
#[derive(Clone, Copy)]
pub struct EifFingerprint {
    pub number: u8,
    pub reserved: [u8; 7],
    pub index: u64,
    pub position: u64,
    pub digest: Digest,
}

// The state after the end, the reading of the bytes taken, and their fingerprint, zero for a refused image.
#[repr(C)]
#[derive(Clone, Copy)]
pub struct EifFingerprintingFinished {
    pub state: Fingerprinting,
    pub reading: eif_flat::EifReading,
    pub digest: Digest,
}

// ---- an image in memory, and one with a section replaced

pub fn flat_fingerprint(answer: Fingerprinted) -> EifFingerprint
    ensures { result ≡ flat_fingerprint answer }
{
    let verdict = answer.verdict;
    let digest = answer.digest;
    EifFingerprint {
        number: eif_flat::number_of(verdict),
        reserved: [0u8; 7],
        index: eif_flat::index_of(verdict),
        position: eif_flat::position_of(verdict),
        digest: Digest(digest),
    }
}

#[unsafe(no_mangle)]
pub extern "C" fn eif_image_fingerprint(image: &[u8]) -> EifFingerprint
    ensures { result ≡ flat_fingerprint (fingerprint_answer image.now) }
{
    flat_fingerprint(eif_fingerprint::fingerprint(image))
}

#[unsafe(no_mangle)]
pub extern "C" fn eif_staged_fingerprint<'a>(
    base: &'a [u8],
    replacement: &'a [u8],
    replaced: u64,
) -> EifFingerprint
    ensures { result ≡ flat_fingerprint (staged_fingerprint base.now replacement.now replaced) }
{
    let answer = eif_fingerprint::fingerprint_staged(base, replacement, replaced);
    flat_fingerprint(answer)
}

// ---- an image that arrives in pieces

// The state before the first byte.
#[unsafe(no_mangle)]
pub extern "C" fn eif_fingerprinting_begin() -> Fingerprinting
    ensures { result ≡ fresh_fingerprinting }
{
    arriving_fingerprint::begin()
}

#[unsafe(no_mangle)]
pub extern "C" fn eif_fingerprinting_feed(
    state: Fingerprinting,
    piece: &[u8],
    allowance: u64,
) -> Fed
    ensures { result ≡ fed_fingerprinting state piece.now allowance }
{
    arriving_fingerprint::feed(state, piece, allowance)
}

#[unsafe(no_mangle)]
pub extern "C" fn eif_fingerprinting_finish(state: Fingerprinting) -> EifFingerprintingFinished
    ensures { result ≡ flat_fingerprinting (finished_fingerprinting state) }
{
    let done = arriving_fingerprint::finish(state);
    let ended = done.state;
    let reading = done.reading;
    let digest = done.digest;
    EifFingerprintingFinished {
        state: ended,
        reading: eif_flat::flat_reading(reading),
        digest: Digest(digest),
    }
}
