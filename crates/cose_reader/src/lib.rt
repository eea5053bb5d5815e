// Reading one COSE_Sign1 that signs a register.
//
// The claim that the bytes could make is taken from the places where its parts would stand. Then that claim is written, and the bytes
// are accepted exactly when they are what was written: no head, name, length or order is judged on the way, and none can be forgotten.
// Every byte string has an answer, and of a long one no more is looked at than a COSE_Sign1 can have.
#![tactic(auto)]

ghost use Rattle.std.specs.Prelude.{◌≡◌, ◌+◌, ◌*◌, ◌≤◌, length, get_or};
ghost use Rattle.cose.specs.Sign1.{register_size, longest, position_limit, signature_size, sign1_bytes};
ghost use Rattle.octets.specs.Same.{same_bytes};
ghost use Rattle.cose.specs.Read.{number_width, number_at, number_end, byte_at, byte_end, bytes_from, bytes_end, algorithm_of, index_start, signature_start, claim_of, signature_of, refused_sign1, read_sign1};

use cose::{Algorithm, Claim, Head, LONGEST, REGISTER_SIZE, Sign1Position, Sign1Reading};
use eif::{DataLength, Refusal, Verdict};

// The byte at a position; 0 past the end.
fn byte(s: &[u8], at: usize) -> u8
    ensures { result ≡ get_or s.now at 0 }
{
    if at < s.len() { s[at] } else { 0 }
}

// ---- numbers

// In how many bytes a number follows a head's first byte.
fn number_width(first: u8) -> usize
    ensures value { result ≡ number_width first }
    ensures upper_bound { result ≤ 8 }
{
    if first < Head::IN_ONE_BYTE {
        return 0;
    }
    if first == Head::IN_ONE_BYTE {
        return 1;
    }
    if first == Head::IN_TWO_BYTES {
        return 2;
    }
    if first == Head::IN_FOUR_BYTES {
        return 4;
    }
    8
}

// The number whose head stands at a position.
fn number_at(s: &[u8], at: usize) -> u64
    requires { at ≤ position_limit }
    ensures { result ≡ number_at s.now at }
{
    let b = byte(s, at);
    if b < Head::IN_ONE_BYTE {
        return b as u64;
    }
    if b == Head::IN_ONE_BYTE {
        return byte(s, at + 1) as u64;
    }
    if b == Head::IN_TWO_BYTES {
        return octets::be16(s, at + 1) as u64;
    }
    if b == Head::IN_FOUR_BYTES {
        return octets::be32(s, at + 1) as u64;
    }
    octets::be64(s, at + 1)
}

// Where that head ends.
fn number_end(s: &[u8], at: usize) -> usize
    requires { at ≤ position_limit }
    ensures value { result ≡ number_end s.now at }
    ensures upper_bound { result ≤ at + 9 }
{
    at + 1 + number_width(byte(s, at))
}

// ---- the register's value

// The numbers found, and where the last ends.
#[derive(Clone, Copy)]
struct Found {
    value: [u8; REGISTER_SIZE],
    end: usize,
}

// The number below 256 whose head stands at a position.
fn byte_at(s: &[u8], at: usize) -> u8
    requires { at ≤ position_limit }
    ensures { result ≡ byte_at s.now at }
{
    let b = byte(s, at);
    if b < Head::IN_ONE_BYTE {
        b
    } else {
        byte(s, at + 1)
    }
}

// Where that head ends.
fn byte_end(s: &[u8], at: usize) -> usize
    requires { at ≤ position_limit }
    ensures value { result ≡ byte_end s.now at }
    ensures upper_bound { result ≤ at + 2 }
{
    if byte(s, at) < Head::IN_ONE_BYTE {
        at + 1
    } else {
        at + 2
    }
}

// As many numbers below 256 as a register has bytes, from a position on.
fn values(s: &[u8], from: usize) -> Found
    requires { from + 2 * register_size ≤ position_limit }
    ensures value_value { result.value ≡ bytes_from s.now register_size from }
    ensures end_value { result.end ≡ bytes_end s.now register_size from }
    ensures end_bound { result.end ≤ from + 2 * register_size }
{
    let mut value = [0u8; REGISTER_SIZE];
    let mut at = from;
    let mut i: usize = 0;
    while i < REGISTER_SIZE {
        value[i] = byte_at(s, at);
        at = byte_end(s, at);
        i += 1;
    }
    Found { value, end: at }
}

// ---- the whole

// The algorithm that the protected header could name.
fn algorithm_of(s: &[u8]) -> u64
    ensures { result ≡ algorithm_of s.now }
{
    if byte(s, 1) == 0x43 {
        return Algorithm::ES256;
    }
    if byte(s, 5) == 0x22 {
        return Algorithm::ES384;
    }
    Algorithm::ES512
}

// Where the register's index would stand.
fn index_start(s: &[u8]) -> usize
    ensures value { result ≡ index_start s.now }
    ensures upper_bound { result ≤ 25 }
{
    if byte(s, 1) == 0x43 { 24 } else { 25 }
}

// The claim that the bytes could make, and where its signature would start.
#[derive(Clone, Copy)]
struct Parts {
    claim: Claim,
    start: usize,
}

fn parts_of(s: &[u8]) -> Parts
    ensures claim_value { result.claim ≡ claim_of s.now }
    ensures start_value { result.start ≡ signature_start s.now }
    ensures start_bound { result.start ≤ 149 }
{
    let algorithm = algorithm_of(s);
    let from = index_start(s);
    let index = number_at(s, from);
    let next = number_end(s, from);
    let found = values(s, next + 17);
    let value = found.value;
    Parts {
        claim: Claim {
            algorithm,
            register_index: index,
            register_value: value,
        },
        start: found.end + 2,
    }
}

// Whether the bytes up to an end, where they end, are what is written for that claim.
fn is_written(s: &[u8], claim: Claim, start: usize, end: usize) -> bool
    requires claim_value { claim ≡ claim_of s.now }
    requires start_value { start ≡ signature_start s.now }
    requires s_len { length s.now ≡ signature_start s.now + signature_size (algorithm_of s.now) }
    requires s_len_bound { length s.now ≤ longest }
    requires end_value { end ≡ length s.now }
    ensures { result ≡ same_bytes s.now (sign1_bytes (claim_of s.now) (signature_of s.now)) }
{
    let mut buffer = [0u8; LONGEST];
    let written = cose_writer::write(claim, &s[start..end], &mut buffer);
    if written.length != end as u64 {
        return false;
    }
    check::same(&s[..end], &buffer[..end])
}

// A refusal, beside which everything is zero.
fn refused() -> Sign1Reading
    ensures { result ≡ refused_sign1 }
{
    Sign1Reading {
        verdict: Verdict::refuse(Refusal::NOT_SIGN1, 0),
        claim: Claim {
            algorithm: 0,
            register_index: 0,
            register_value: [0u8; REGISTER_SIZE],
        },
        position: Sign1Position(0),
        length: DataLength(0),
    }
}

// The claim, and where the signature stands.
pub fn read(s: &[u8]) -> Sign1Reading
    ensures { result ≡ read_sign1 s.now }
{
    let parts = parts_of(s);
    let claim = parts.claim;
    let start = parts.start;
    let size = cose_writer::signature_size(claim.algorithm);
    let end = start + size;
    if s.len() != end {
        return refused();
    }
    if !is_written(s, claim, start, end) {
        return refused();
    }
    Sign1Reading {
        verdict: Verdict::Accepted,
        claim,
        position: Sign1Position(start as u64),
        length: DataLength(size as u64),
    }
}
