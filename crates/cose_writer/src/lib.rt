// Writing one COSE_Sign1 that signs a register: one crate for its bytes, so that the reader can hold what it finds to them.
//
// The claim is judged and measured before a byte is written, so that a refusal leaves every byte of the output as it was. Heads are
// written in their shortest form; with the numbers of a register's value and a signature of 64 to 132 bytes, payload and signature always
// have a head of two bytes.
#![tactic(auto)]

ghost use Rattle.std.specs.Prelude.{◌≡◌, ◌+◌, ◌*◌, ◌≤◌, ◌<◌, ◌∷◌, [], length};
ghost use Rattle.octets.specs.Over.{over};
ghost use Rattle.eif.specs.Answers.{refuse};
ghost use Rattle.eif.specs.Output.{written_for};
ghost use Rattle.cose.specs.Cbor.{unsigned, byte_string, in_one_byte, one_byte_limit, head_bytes, string_bytes, numbers_bytes};
ghost use Rattle.cose.specs.Sign1.{register_size, position_limit, longest_signature, signature_size, payload_bytes, sign1_bytes};
ghost use Rattle.cose.specs.Write.{sign1_answer, sign1_output};
ghost use Rattle.cose_lemmas.specs.Opening.{opening};

use cose::{Algorithm, Claim, Head, REGISTER_SIZE};
use eif::{Refusal, Verdict, Written};

// ---- sizes

// How many bytes the signatures of an algorithm have; 0: it may not sign.
pub fn signature_size(algorithm: u64) -> usize
    ensures value { result ≡ signature_size algorithm }
    ensures upper_bound { result ≤ longest_signature }
{
    if algorithm == Algorithm::ES256 {
        return Algorithm::ES256_SIZE;
    }
    if algorithm == Algorithm::ES384 {
        return Algorithm::ES384_SIZE;
    }
    if algorithm == Algorithm::ES512 {
        return Algorithm::ES512_SIZE;
    }
    0
}

// How long the head of a number is.
fn number_size(n: u64) -> usize
    ensures value { result ≡ length (head_bytes unsigned n) }
    ensures upper_bound { result ≤ 9 }
{
    if n < Head::ONE_BYTE_LIMIT {
        return small_size(n as u8);
    }
    if n < Head::TWO_BYTE_LIMIT {
        return 3;
    }
    if n < Head::FOUR_BYTE_LIMIT {
        return 5;
    }
    9
}

// The same of a number below 256.
fn small_size(n: u8) -> usize
    ensures value { result ≡ length (head_bytes unsigned n) }
    ensures lower_bound { (1 ≤ result) × (result ≤ 2) }
{
    if n < Head::IN_ONE_BYTE { 1 } else { 2 }
}

// How long the numbers of a register's value are together.
fn value_size(value: [u8; REGISTER_SIZE]) -> usize
    ensures value { result ≡ length (numbers_bytes value) }
    ensures lower_bound { (register_size ≤ result) × (result ≤ 2 * register_size) }
{
    let mut total: usize = 0;
    let mut i: usize = 0;
    while i < REGISTER_SIZE {
        total += small_size(value[i]);
        i += 1;
    }
    total
}

// How long the payload is.
fn payload_size(index: u64, value: [u8; REGISTER_SIZE]) -> usize
    ensures value { result ≡ length (payload_bytes index value) }
    ensures lower_bound { (in_one_byte ≤ result) × (result ≤ 138) }
{
    33 + number_size(index) + value_size(value)
}

// How long the array's head, the protected header and the empty map are.
fn opening_size(algorithm: u64) -> usize
    requires { 0 < signature_size algorithm }
    ensures value { result ≡ length (opening algorithm) }
    ensures upper_bound { result ≤ 7 }
{
    if algorithm == Algorithm::ES256 { 6 } else { 7 }
}

// ---- the parts, each written at a position; the answer is where it ends

fn put_byte(out: &mut [u8], at: usize, b: u8)
    ensures { out.new ≡ over out.old at (b ∷ []) }
{
    if at < out.len() {
        out[at] = b;
    }
}

// The head of a number.
fn put_number(out: &mut [u8], at: usize, n: u64) -> usize
    requires { at ≤ position_limit }
    ensures value { result ≡ at + length (head_bytes unsigned n) }
    ensures upper_bound { result ≤ at + 9 }
    ensures out_after { out.new ≡ over out.old at (head_bytes unsigned n) }
{
    if n < Head::ONE_BYTE_LIMIT {
        return put_small(out, at, n as u8);
    }
    if n < Head::TWO_BYTE_LIMIT {
        put_byte(out, at, Head::IN_TWO_BYTES);
        octets::put_be16(out, at + 1, n as u16);
        return at + 3;
    }
    if n < Head::FOUR_BYTE_LIMIT {
        put_byte(out, at, Head::IN_FOUR_BYTES);
        octets::put_be32(out, at + 1, n as u32);
        return at + 5;
    }
    put_byte(out, at, Head::IN_EIGHT_BYTES);
    octets::put_be64(out, at + 1, n);
    at + 9
}

// The head of a number below 256.
fn put_small(out: &mut [u8], at: usize, n: u8) -> usize
    requires { at ≤ position_limit }
    ensures value { result ≡ at + length (head_bytes unsigned n) }
    ensures upper_bound { result ≤ at + 2 }
    ensures out_after { out.new ≡ over out.old at (head_bytes unsigned n) }
{
    if Head::IN_ONE_BYTE <= n {
        put_byte(out, at, Head::IN_ONE_BYTE);
        put_byte(out, at + 1, n);
        return at + 2;
    }
    put_byte(out, at, n);
    at + 1
}

// The head of a byte string whose length takes one byte after the first.
fn put_string_head(out: &mut [u8], at: usize, size: u8) -> usize
    requires { (at ≤ position_limit) × (in_one_byte ≤ size) }
    ensures value { result ≡ at + 2 }
    ensures out_after { out.new ≡ over out.old at (head_bytes byte_string size) }
{
    put_byte(out, at, 0x58);
    put_byte(out, at + 1, size);
    at + 2
}

// The numbers of a register's value.
fn put_values(out: &mut [u8], from: usize, value: [u8; REGISTER_SIZE]) -> usize
    requires { from + 2 * register_size ≤ position_limit }
    ensures value { result ≡ from + length (numbers_bytes value) }
    ensures upper_bound { result ≤ from + 2 * register_size }
    ensures out_after { out.new ≡ over out.old from (numbers_bytes value) }
{
    let mut at = from;
    let mut i: usize = 0;
    while i < REGISTER_SIZE {
        at = put_small(out, at, value[i]);
        i += 1;
    }
    at
}

// The array's head, the protected header and the empty map.
fn put_opening(out: &mut [u8], algorithm: u64) -> usize
    requires { 0 < signature_size algorithm }
    ensures value { result ≡ length (opening algorithm) }
    ensures upper_bound { result ≤ 7 }
    ensures out_after { out.new ≡ over out.old 0 (opening algorithm) }
{
    if algorithm == Algorithm::ES256 {
        octets::copy(out, 0, b"\x84\x43\xa1\x01\x26\xa0");
        return 6;
    }
    if algorithm == Algorithm::ES384 {
        octets::copy(out, 0, b"\x84\x44\xa1\x01\x38\x22\xa0");
        return 7;
    }
    octets::copy(out, 0, b"\x84\x44\xa1\x01\x38\x23\xa0");
    7
}

// The payload: a map of two pairs.
fn put_payload(out: &mut [u8], at: usize, index: u64, value: [u8; REGISTER_SIZE]) -> usize
    requires { at ≤ 256 }
    ensures value { result ≡ at + length (payload_bytes index value) }
    ensures upper_bound { result ≤ at + 138 }
    ensures out_after { out.new ≡ over out.old at (payload_bytes index value) }
{
    octets::copy(out, at, b"\xa2\x6eregister_index");
    let next = put_number(out, at + 16, index);
    octets::copy(out, next, b"\x6eregister_value\x98\x30");
    put_values(out, next + 17, value)
}

// The signature: a byte string.
fn put_signature(out: &mut [u8], at: usize, signature: &[u8])
    requires { (at ≤ 512) × (in_one_byte ≤ length signature.now) × (length signature.now < one_byte_limit) }
    ensures { out.new ≡ over out.old at (string_bytes byte_string signature.now) }
{
    let next = put_string_head(out, at, signature.len() as u8);
    octets::copy(out, next, signature);
}

// ---- the whole

// The bytes of a claim that has been judged.
fn put_sign1(out: &mut [u8], claim: Claim, signature: &[u8])
    requires algorithm_nonzero { 0 < signature_size claim.algorithm }
    requires in_one_byte_in_bounds { (in_one_byte ≤ length signature.now) × (length signature.now < one_byte_limit) }
    ensures { out.new ≡ over out.old 0 (sign1_bytes claim signature.now) }
{
    let value = claim.register_value;
    let size = payload_size(claim.register_index, value);
    let open = put_opening(out, claim.algorithm);
    let from = put_string_head(out, open, size as u8);
    let next = put_payload(out, from, claim.register_index, value);
    put_signature(out, next, signature);
}

fn refused(number: u8) -> Written
    ensures { result ≡ written_for (refuse number 0) 0 }
{
    Written {
        verdict: Verdict::refuse(number, 0),
        length: 0,
    }
}

// Writes over the start of the output and answers the length of what it wrote; later bytes stay.
pub fn write(claim: Claim, signature: &[u8], out: &mut [u8]) -> Written
    ensures value { result ≡ sign1_answer claim signature.now (length out.old) }
    ensures out_after { out.new ≡ sign1_output claim signature.now out.old }
{
    let value = claim.register_value;
    let size = signature_size(claim.algorithm);
    if size == 0 {
        return refused(Refusal::NOT_SIGN1);
    }
    if signature.len() != size {
        return refused(Refusal::NOT_SIGN1);
    }
    let total = opening_size(claim.algorithm)
        + 2
        + payload_size(claim.register_index, value)
        + 2
        + size;
    if out.len() < total {
        return refused(Refusal::OUTPUT_TOO_SHORT);
    }
    put_sign1(out, claim, signature);
    Written {
        verdict: Verdict::Accepted,
        length: total as u64,
    }
}
