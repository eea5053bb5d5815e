// Runs the cases of COSE_Sign1, one line each: claims written and read back, and byte strings and claims that are refused.
#![tactic(auto)]

use case_lines::{hex, labelled, number, refusal, text};
use cose::{Algorithm, Claim, REGISTER_SIZE};
use eif::Verdict;
use std::io;

const ROOM: usize = 300;

// ---- lines

fn answer(rt: &impl Print, verdict: Verdict) -> io::Result<()> {
    match verdict {
        Verdict::Accepted => text(rt, b"accepted"),
        Verdict::Refused(r) => refusal(rt, r),
    }
}

// ---- claims and signatures

// The four values: bytes 0 to 47, bytes on both sides of 24, all 255, all zero.
fn entry(kind: u8, i: u8) -> u8 {
    if kind == 0 {
        return i;
    }
    if kind == 1 {
        return 23 + i % 2;
    }
    if kind == 2 {
        return 255;
    }
    0
}

fn value_of(kind: u8) -> [u8; REGISTER_SIZE] {
    let mut value = [0u8; REGISTER_SIZE];
    let mut i: usize = 0;
    while i < REGISTER_SIZE {
        value[i] = entry(kind, i as u8);
        i += 1;
    }
    value
}

fn put_signature(signature: &mut [u8]) {
    let mut i: usize = 0;
    while i < signature.len() {
        signature[i] = ((i % 256 * 7 + 3) % 256) as u8;
        i += 1;
    }
}

// ---- reading

fn listed(rt: &impl Print, s: &[u8]) -> io::Result<()> {
    let reading = cose_reader::read(s);
    let verdict = reading.verdict;
    let claim = reading.claim;
    let value = claim.register_value;
    text(rt, b"read ")?;
    answer(rt, verdict)?;
    labelled(rt, b" -", claim.algorithm)?;
    labelled(rt, b" ", claim.register_index)?;
    text(rt, b" ")?;
    hex(rt, &value)?;
    labelled(rt, b" ", reading.position.0)?;
    labelled(rt, b"+", reading.length.0)?;
    text(rt, b"\n")
}

// ---- writing

// What is to be written, and into how many bytes.
fn asked(
    rt: &impl Print,
    algorithm: u64,
    index: u64,
    kind: u8,
    size: usize,
    room: usize,
) -> io::Result<()> {
    labelled(rt, b"write -", algorithm)?;
    labelled(rt, b" ", index)?;
    labelled(rt, b" value ", kind as u64)?;
    labelled(rt, b" signature ", size as u64)?;
    labelled(rt, b" room ", room as u64)?;
    text(rt, b": ")
}

// The whole buffer, and what reads back.
fn shown(rt: &impl Print, out: &[u8], verdict: Verdict, length: u64) -> io::Result<()> {
    answer(rt, verdict)?;
    labelled(rt, b" ", length)?;
    text(rt, b"\n  ")?;
    hex(rt, out)?;
    text(rt, b"\n  ")?;
    if length <= out.len() as u64 {
        let end = length as usize;
        listed(rt, &out[..end])?;
    }
    Ok(())
}

// Into the first bytes of a buffer.
fn write_into(
    rt: &impl Print,
    claim: Claim,
    signature: &[u8],
    out: &mut [u8],
    room: usize,
) -> io::Result<()> {
    if room <= out.len() {
        let written = cose_writer::write(claim, signature, &mut out[..room]);
        let verdict = written.verdict;
        shown(rt, out, verdict, written.length)?;
    }
    Ok(())
}

fn write(
    rt: &impl Print,
    algorithm: u64,
    index: u64,
    kind: u8,
    size: usize,
    room: usize,
) -> io::Result<()> {
    let mut store = [0u8; 140];
    put_signature(&mut store);
    let mut out = [0xeeu8; ROOM];
    let claim = Claim {
        algorithm,
        register_index: index,
        register_value: value_of(kind),
    };
    if size <= 140 {
        asked(rt, algorithm, index, kind, size, room)?;
        write_into(rt, claim, &store[..size], &mut out, room)?;
    }
    Ok(())
}

fn writes(rt: &impl Print, algorithm: u64, size: usize) -> io::Result<()> {
    write(rt, algorithm, 0, 0, size, ROOM)?;
    write(rt, algorithm, 23, 0, size, ROOM)?;
    write(rt, algorithm, 24, 1, size, ROOM)?;
    write(rt, algorithm, 255, 1, size, ROOM)?;
    write(rt, algorithm, 256, 2, size, ROOM)?;
    write(rt, algorithm, 65535, 2, size, ROOM)?;
    write(rt, algorithm, 65536, 3, size, ROOM)?;
    write(rt, algorithm, 4294967295, 3, size, ROOM)?;
    write(rt, algorithm, 4294967296, 0, size, ROOM)?;
    write(rt, algorithm, 18446744073709551615, 2, size, ROOM)
}

fn refused_writes(rt: &impl Print) -> io::Result<()> {
    write(rt, 0, 0, 0, 64, ROOM)?;
    write(rt, 6, 0, 0, 64, ROOM)?;
    write(rt, 37, 0, 0, 132, ROOM)?;
    write(rt, 7, 0, 0, 0, ROOM)?;
    write(rt, 7, 0, 0, 63, ROOM)?;
    write(rt, 7, 0, 0, 65, ROOM)?;
    write(rt, 35, 0, 0, 64, ROOM)?;
    write(rt, 36, 0, 0, 96, ROOM)?;
    write(rt, 36, 0, 0, 131, ROOM)?;
    write(rt, 36, 0, 0, 133, ROOM)?;
    // too short: by one, and with both faults
    write(rt, 36, 18446744073709551615, 2, 132, cose::longest())?;
    write(rt, 36, 18446744073709551615, 2, 132, cose::longest() - 1)?;
    write(rt, 36, 18446744073709551615, 2, 132, 0)?;
    write(rt, 36, 18446744073709551615, 2, 131, 0)
}

// ---- damaged byte strings

fn changed(rt: &impl Print, at: usize, cut: usize, with: &[u8]) -> io::Result<()> {
    labelled(rt, b"at ", at as u64)?;
    labelled(rt, b" cut ", cut as u64)?;
    text(rt, b" put ")?;
    hex(rt, with)?;
    text(rt, b": ")
}

// The bytes of `s` with `cut` bytes at a position taken out and others put there instead.
fn spliced(rt: &impl Print, s: &[u8], at: usize, cut: usize, with: &[u8]) -> io::Result<()> {
    if s.len() < at {
        return Ok(());
    }
    if s.len() - at < cut {
        return Ok(());
    }
    let after = at + cut;
    if 200 < at {
        return Ok(());
    }
    if 100 < with.len() {
        return Ok(());
    }
    let mut made = [0u8; 512];
    octets::copy(&mut made, 0, &s[..at]);
    octets::copy(&mut made, at, with);
    octets::copy(&mut made, at + with.len(), &s[after..]);
    let left = s.len() - after;
    if 200 < left {
        return Ok(());
    }
    let end = at + with.len() + left;
    changed(rt, at, cut, with)?;
    listed(rt, &made[..end])
}

// The same, with another length in the payload's head.
fn resized(
    rt: &impl Print,
    s: &[u8],
    size: u8,
    at: usize,
    cut: usize,
    with: &[u8],
) -> io::Result<()> {
    let mut made = [0u8; 180];
    octets::copy(&mut made, 0, s);
    made[7] = size;
    labelled(rt, b"payload ", size as u64)?;
    text(rt, b" ")?;
    spliced(rt, &made, at, cut, with)
}

// What is damaged is accepted as it is: register 5, value 0 to 47, a signature of 64 bytes. The payload's head stands at 6, its map at 8,
// names at 9 and 25, the index at 24, the array at 40, its numbers at 42, the signature's head at 114.
fn outer_arrays(rt: &impl Print, s: &[u8]) -> io::Result<()> {
    // as it is
    spliced(rt, s, 0, 0, b"")?;
    // array head of two bytes
    spliced(rt, s, 0, 1, b"\x98\x04")?;
    // array head of three bytes
    spliced(rt, s, 0, 1, b"\x99\x00\x04")?;
    // array of indefinite length
    spliced(rt, s, 0, 1, b"\x9f")?;
    // array of three
    spliced(rt, s, 0, 1, b"\x83")?;
    // array of five
    spliced(rt, s, 0, 1, b"\x85")?;
    // tag 18
    spliced(rt, s, 0, 0, b"\xd2")
}

fn protected_headers(rt: &impl Print, s: &[u8]) -> io::Result<()> {
    // protected header of two-byte head
    spliced(rt, s, 1, 1, b"\x58\x03")?;
    // protected header empty
    spliced(rt, s, 1, 4, b"\x40")?;
    // protected header as a map
    spliced(rt, s, 1, 4, b"\xa1\x01\x26")?;
    // protected map of indefinite length
    spliced(rt, s, 1, 4, b"\x45\xbf\x01\x26\xff")?;
    // protected parameter 2
    spliced(rt, s, 3, 1, b"\x02")?;
    // algorithm -8
    spliced(rt, s, 4, 1, b"\x27")?;
    // algorithm in two bytes
    spliced(rt, s, 1, 4, b"\x44\xa1\x01\x38\x06")
}

fn algorithms_and_second_map(rt: &impl Print, s: &[u8]) -> io::Result<()> {
    // algorithm -35 with 64 bytes
    spliced(rt, s, 1, 4, b"\x44\xa1\x01\x38\x22")?;
    // algorithm -36 with 64 bytes
    spliced(rt, s, 1, 4, b"\x44\xa1\x01\x38\x23")?;
    // algorithm -37
    spliced(rt, s, 1, 4, b"\x44\xa1\x01\x38\x24")?;
    // a pair in the second map
    spliced(rt, s, 5, 1, b"\xa1\x04\x40")?;
    // second map of two-byte head
    spliced(rt, s, 5, 1, b"\xb8\x00")
}

fn payloads(rt: &impl Print, s: &[u8]) -> io::Result<()> {
    // nil payload
    spliced(rt, s, 6, 108, b"\xf6")?;
    // empty payload
    spliced(rt, s, 6, 108, b"\x40")?;
    // payload head of three bytes
    spliced(rt, s, 6, 1, b"\x59\x00")?;
    // payload longer by one
    resized(rt, s, 0x6b, 0, 0, b"")?;
    // payload shorter by one
    resized(rt, s, 0x69, 0, 0, b"")?;
    // payload of one pair
    spliced(rt, s, 8, 1, b"\xa1")?;
    // payload as text
    spliced(rt, s, 6, 1, b"\x78")
}

fn first_names_and_indexes(rt: &impl Print, s: &[u8]) -> io::Result<()> {
    // first name changed
    spliced(rt, s, 10, 1, b"R")?;
    // first name in bytes
    spliced(rt, s, 9, 1, b"\x4e")?;
    // index in two bytes
    resized(rt, s, 0x6b, 24, 1, b"\x18\x05")?;
    // index in three bytes
    resized(rt, s, 0x6c, 24, 1, b"\x19\x00\x05")?;
    // index 24 in two bytes
    resized(rt, s, 0x6b, 24, 1, b"\x18\x18")?;
    // index 255 in three bytes
    resized(rt, s, 0x6c, 24, 1, b"\x19\x00\xff")?;
    // index 256 in three bytes
    resized(rt, s, 0x6c, 24, 1, b"\x19\x01\x00")
}

fn index_types_and_value_lengths(rt: &impl Print, s: &[u8]) -> io::Result<()> {
    // index -6
    spliced(rt, s, 24, 1, b"\x25")?;
    // index as a big number
    resized(rt, s, 0x6c, 24, 1, b"\xc2\x41\x05")?;
    // index head 28
    spliced(rt, s, 24, 1, b"\x1c")?;
    // index head 31
    spliced(rt, s, 24, 1, b"\x1f")?;
    // value of 47 numbers
    spliced(rt, s, 41, 1, b"\x2f")?;
    // value of 49 numbers
    spliced(rt, s, 41, 1, b"\x31")?;
    // value as bytes
    spliced(rt, s, 40, 1, b"\x58")
}

fn value_numbers(rt: &impl Print, s: &[u8]) -> io::Result<()> {
    // a number 0 in two bytes
    spliced(rt, s, 42, 1, b"\x18\x00")?;
    // a number 0 in two bytes and length
    resized(rt, s, 0x6b, 42, 1, b"\x18\x00")?;
    // a number 256
    resized(rt, s, 0x6c, 42, 1, b"\x19\x01\x00")?;
    // a number 23 in two bytes
    resized(rt, s, 0x6b, 65, 1, b"\x18\x17")?;
    // a number -1
    spliced(rt, s, 42, 1, b"\x20")
}

fn signatures_and_ends(rt: &impl Print, s: &[u8]) -> io::Result<()> {
    // signature head of three bytes
    spliced(rt, s, 114, 1, b"\x59\x00")?;
    // signature of 63 bytes
    spliced(rt, s, 115, 2, b"\x3f")?;
    // signature of 65 bytes
    spliced(rt, s, 115, 1, b"\x41\x00")?;
    // signature nil
    spliced(rt, s, 114, 66, b"\xf6")?;
    // a byte after
    spliced(rt, s, 180, 0, b"\x00")?;
    // the last byte cut
    spliced(rt, s, 179, 1, b"")?;
    // the first byte cut
    spliced(rt, s, 0, 1, b"")?;
    // the first half
    spliced(rt, s, 90, 90, b"")?;
    // nothing
    spliced(rt, s, 0, 180, b"")
}

fn damaged(rt: &impl Print, s: &[u8]) -> io::Result<()> {
    outer_arrays(rt, s)?;
    protected_headers(rt, s)?;
    algorithms_and_second_map(rt, s)?;
    payloads(rt, s)?;
    first_names_and_indexes(rt, s)?;
    index_types_and_value_lengths(rt, s)?;
    value_numbers(rt, s)?;
    signatures_and_ends(rt, s)
}

// The two pairs of the payload in the other order.
fn exchanged(rt: &impl Print, s: &[u8]) -> io::Result<()> {
    let mut made = [0u8; 180];
    octets::copy(&mut made, 0, s);
    if s.len() == 180 {
        octets::copy(&mut made, 9, &s[25..114]);
        octets::copy(&mut made, 98, &s[9..25]);
        text(rt, b"pairs exchanged: ")?;
        listed(rt, &made)?;
    }
    Ok(())
}

fn damages(rt: &impl Print) -> io::Result<()> {
    let mut store = [0u8; 64];
    put_signature(&mut store);
    let mut out = [0u8; 180];
    let claim = Claim {
        algorithm: Algorithm::ES256,
        register_index: 5,
        register_value: value_of(0),
    };
    let written = cose_writer::write(claim, &store, &mut out);
    number(rt, written.length)?;
    text(rt, b"\n")?;
    damaged(rt, &out)?;
    exchanged(rt, &out)
}

fn main(rt: HostRuntime) -> io::Result<()> {
    writes(&rt, Algorithm::ES256, 64)?;
    writes(&rt, Algorithm::ES384, 96)?;
    writes(&rt, Algorithm::ES512, 132)?;
    refused_writes(&rt)?;
    damages(&rt)
}
