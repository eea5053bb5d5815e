// One signature of a signature section: a COSE_Sign1 (RFC 9052) whose payload is a register's index and value, as the EIF
// specification describes it under EifSectionSignature. This is the vocabulary; the definitions that all contracts cite stand in
// specs/. What is signed is read and written here and never verified.
#![tactic(auto)]

ghost use Rattle.std.specs.Prelude.{◌≡◌};
ghost use Rattle.cose.specs.Sign1.{longest};

use eif::{DataLength, Verdict};
use sha384_block::DIGEST_SIZE;

// The bytes of a register's value, which is a SHA-384 digest.
pub const REGISTER_SIZE: usize = DIGEST_SIZE;

// The longest COSE_Sign1 of this form, in bytes: a buffer of this size has room for any claim, and no shorter one has. As a constant for
// array types, and as a function, whose contract says that it is the definition's number.
pub const LONGEST: usize = 281;

pub fn longest() -> usize
    ensures { result ≡ longest }
{
    LONGEST
}

// The algorithms that may sign. Their numbers in the COSE registry are -7, -35 and -36; here the sign is left off. And the bytes of
// their signatures.
#[derive(Clone, Copy)]
pub struct Algorithm;

impl Algorithm {
    pub const ES256: u64 = 7;

    pub const ES384: u64 = 35;

    pub const ES512: u64 = 36;

    pub const ES256_SIZE: usize = 64;

    pub const ES384_SIZE: usize = 96;

    pub const ES512_SIZE: usize = 132;
}

// The first byte of a CBOR head (RFC 8949, 3), beside the major type: the number itself where it is below IN_ONE_BYTE, or one of these
// where it follows in 1, 2, 4 or 8 bytes. And what the numbers of one, two and four bytes are below.
#[derive(Clone, Copy)]
pub struct Head;

impl Head {
    pub const IN_ONE_BYTE: u8 = 24;

    pub const IN_TWO_BYTES: u8 = 25;

    pub const IN_FOUR_BYTES: u8 = 26;

    pub const IN_EIGHT_BYTES: u8 = 27;

    pub const ONE_BYTE_LIMIT: u64 = 256;

    pub const TWO_BYTE_LIMIT: u64 = 65536;

    pub const FOUR_BYTE_LIMIT: u64 = 4294967296;
}

// A position in a COSE_Sign1, from its first byte.
#[repr(C)]
#[derive(Clone, Copy)]
pub struct Sign1Position(pub u64);

// What is signed: by which algorithm, which register, and its value.
#[repr(C)]
#[derive(Clone, Copy)]
pub struct Claim {
    pub algorithm: u64,
    pub register_index: u64,
    pub register_value: [u8; REGISTER_SIZE],
}

// What a reading says: the claim, and where the signature's own bytes stand. Beside a refusal all is zero.
#[derive(Clone, Copy)]
pub struct Sign1Reading {
    pub verdict: Verdict,
    pub claim: Claim,
    pub position: Sign1Position,
    pub length: DataLength,
}
