// Reading and writing one COSE_Sign1 of a signature section, for programs in C and Rust. A signature is never verified.
ghost use Rattle.std.specs.Prelude.{◌≡◌, length};
ghost use Rattle.cose.specs.Write.{sign1_answer, sign1_output};
ghost use Rattle.cose.specs.Read.{read_sign1};
ghost use Rattle.eif_flat.specs.Flat.{flat_written};
ghost use Rattle.eif_c.specs.Signature.{flat_sign1};

use cose::{Claim, Sign1Position};
use eif::DataLength;
use eif_flat::EifAnswer;

// The claim, and where the signature's own bytes stand; beside a refusal, all zero. `reserved` is 0.
#[repr(C)]
#[derive(Clone, Copy)]
pub struct EifSign1Reading {
    pub number: u8,
    pub reserved: [u8; 7],
    pub index: u64,
    pub position: u64,
    pub claim: Claim,
    pub signature_position: Sign1Position,
    pub signature_length: DataLength,
}

#[unsafe(no_mangle)]
pub extern "C" fn eif_sign1_read(bytes: &[u8]) -> EifSign1Reading
    ensures { result ≡ flat_sign1 (read_sign1 bytes.now) }
{
    let reading = cose_reader::read(bytes);
    let verdict = reading.verdict;
    let claim = reading.claim;
    let position = reading.position;
    let length = reading.length;
    EifSign1Reading {
        number: eif_flat::number_of(verdict),
        reserved: [0u8; 7],
        index: eif_flat::index_of(verdict),
        position: eif_flat::position_of(verdict),
        claim,
        signature_position: position,
        signature_length: length,
    }
}

#[unsafe(no_mangle)]
pub extern "C" fn eif_sign1_write(claim: Claim, signature: &[u8], out: &mut [u8]) -> EifAnswer
    ensures value { result ≡ flat_written (sign1_answer claim signature.now (length out.old)) }
    ensures out_after { out.new ≡ sign1_output claim signature.now out.old }
{
    eif_flat::flat_written(cose_writer::write(claim, signature, out))
}
