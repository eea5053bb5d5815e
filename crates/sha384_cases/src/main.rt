// SHA-384 vectors, a line each: a label, and the digest in hexadecimal. The standard's examples; the digest of the digests of messages
// of 0 to 260 bytes, each fed whole, and again each fed in two pieces; one million times the letter a. Then pieces around the limit of
// 2 to the 61 less 1 bytes: each answer, and the total after it.
#![tactic(auto)]

use case_lines::{hex, labelled, refusal, text};
use eif::Verdict;
use sha384::State;
use std::io;

fn fed(state: State, piece: &[u8]) -> State {
    let updated = sha384::update(state, piece);
    updated.state
}

fn show(rt: &impl Print, label: &[u8], state: State) -> io::Result<()> {
    let digest = sha384::finish(state);
    text(rt, label)?;
    text(rt, b" ")?;
    hex(rt, &digest)?;
    text(rt, b"\n")
}

fn whole(rt: &impl Print, label: &[u8], message: &[u8]) -> io::Result<()> {
    show(rt, label, fed(sha384::new(), message))
}

// Byte i is 7 i + i / 256, modulo 256.
fn pattern() -> [u8; 260] {
    let mut bytes = [0u8; 260];
    let mut i: usize = 0;
    while i < 260 {
        bytes[i] = ((7 * i + i / 256) % 256) as u8;
        i += 1;
    }
    bytes
}

// The state after a message that is fed whole, or in two pieces.
fn message(bytes: &[u8], in_two: bool) -> State {
    if !in_two {
        return fed(sha384::new(), bytes);
    }
    let cut = bytes.len() / 3;
    fed(fed(sha384::new(), &bytes[..cut]), &bytes[cut..])
}

// The state after the digests of messages of each length.
fn lengths(in_two: bool) -> State {
    let bytes = pattern();
    let mut all = sha384::new();
    let mut n: usize = 0;
    while n <= 260 {
        let one = sha384::finish(message(&bytes[..n], in_two));
        let next = fed(all, &one);
        all = next;
        n += 1;
    }
    all
}

fn million() -> State {
    let letters = [b'a'; 1000];
    let mut state = sha384::new();
    let mut i: usize = 0;
    while i < 1000 {
        let next = fed(state, &letters);
        state = next;
        i += 1;
    }
    state
}

// The answer to a piece, and the total after it.
fn answer(rt: &impl Print, label: &[u8], state: State, piece: &[u8]) -> io::Result<State> {
    let updated = sha384::update(state, piece);
    let verdict = updated.verdict;
    let after = updated.state;
    text(rt, label)?;
    text(rt, b" ")?;
    match verdict {
        Verdict::Accepted => text(rt, b"taken")?,
        Verdict::Refused(r) => refusal(rt, r)?,
    }
    labelled(rt, b", total ", after.total)?;
    text(rt, b"\n")?;
    Ok(after)
}

// From a state that has taken all bytes up to the limit but two.
fn limit(rt: &impl Print) -> io::Result<()> {
    let mut state = fed(sha384::new(), b"abc");
    state.total = sha384::TOTAL_LIMIT - 2;
    let kept = answer(rt, b"three-bytes-where-two-fit", state, b"abc")?;
    let full = answer(rt, b"two-bytes-where-two-fit", kept, b"ab")?;
    let same = answer(rt, b"nothing-at-the-limit", full, b"")?;
    let last = answer(rt, b"one-byte-at-the-limit", same, b"c")?;
    show(rt, b"digest-at-the-limit", full)?;
    show(rt, b"digest-after-the-refusal", last)
}

fn main(rt: HostRuntime) -> io::Result<()> {
    whole(&rt, b"empty", b"")?;
    whole(&rt, b"abc", b"abc")?;
    whole(
        &rt,
        b"896-bits",
        b"abcdefghbcdefghicdefghijdefghijkefghijklfghijklmghijklmnhijklmnoijklmnopjklmnopqklmnopqrlmnopqrsmnopqrstnopqrstu",
    )?;
    show(&rt, b"lengths-0-to-260", lengths(false))?;
    show(&rt, b"the-same-in-two-pieces", lengths(true))?;
    show(&rt, b"a-million-a", million())?;
    limit(&rt)
}
