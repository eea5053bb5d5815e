// SHA-384 (FIPS 180-4), fed in pieces of any size.
//
// A state goes in by value and comes back: `new`, then `update` for each piece, then `finish`. A state may be kept and gone on from
// more than once. Every public function is total: each contract holds for any state, and the laws of a state begun fresh are in
// sha384_laws.
#![tactic(auto)]

ghost use Rattle.std.specs.Prelude.{◌≡◌, ◌+◌, ◌<◌, ◌≤◌, length, take};
ghost use Rattle.sha384_block.specs.Fips.{block_size, least_padding, most_padding, round_constants, digest_of, padding, zeros_for};
ghost use Rattle.sha384.specs.State.{no_bytes, take_bytes, initial_state, updated, more_hashed, digest_from};

use eif::{Refusal, Verdict};
use sha384_block::{BLOCK_SIZE, DIGEST_SIZE};

// The most bytes that one digest is of.
pub const TOTAL_LIMIT: u64 = 0x1FFFFFFFFFFFFFFF;

// A digest's words.
const DIGEST_WORDS: usize = DIGEST_SIZE / 8;

// A block's size, as totals are counted.
const BLOCK: u64 = BLOCK_SIZE as u64;

// The bytes of the number of bits at the end of a padding, the least bytes of a padding, and the most.
const BIT_COUNT_SIZE: usize = 16;

const LEAST_PADDING: usize = 1 + BIT_COUNT_SIZE;

const MOST_PADDING: usize = BLOCK_SIZE - 1 + LEAST_PADDING;

// The hash value of the whole blocks so far, the bytes of the block that is being filled (the others zero), and how many bytes were
// taken in all.
#[repr(C)]
#[derive(Clone, Copy)]
pub struct State {
    pub words: [u64; 8],
    pub block: [u8; BLOCK_SIZE],
    pub total: u64,
}

// What a piece is answered with: beside a refusal, the state is as it was.
#[derive(Clone, Copy)]
pub struct Updated {
    pub verdict: Verdict,
    pub state: State,
}

// The same as a state, but for the total: how many bytes of the block are there.
#[derive(Clone, Copy)]
pub struct Filling {
    pub words: [u64; 8],
    pub block: [u8; BLOCK_SIZE],
    pub used: usize,
}

// ---- pieces

// A block before its first byte.
fn no_bytes() -> [u8; BLOCK_SIZE]
    ensures { result ≡ no_bytes }
{
    [0u8; BLOCK_SIZE]
}

// Bytes for which the block has room. A whole block is hashed where it lies.
fn fill(from: Filling, part: &[u8], k: &[u64; 80]) -> Filling
    requires part_nonzero { (0 < length part.now) × (from.used + length part.now ≤ block_size) }
    requires k_value { k.now ≡ round_constants }
    ensures { result ≡ take_bytes from part.now }
{
    let words = from.words;
    let mut block = from.block;
    let used = from.used;
    let size = part.len();
    if size == BLOCK_SIZE {
        let whole = sha384_block::compress(words, part, k);
        let none = no_bytes();
        return Filling {
            words: whole,
            block: none,
            used: 0,
        };
    }
    octets::copy(&mut block, used, part);
    if used + size == BLOCK_SIZE {
        let full = sha384_block::compress(words, &block, k);
        let next = no_bytes();
        return Filling {
            words: full,
            block: next,
            used: 0,
        };
    }
    Filling {
        words,
        block,
        used: used + size,
    }
}

fn take_bytes(from: Filling, s: &[u8]) -> Filling
    requires { from.used < block_size }
    ensures { result ≡ take_bytes from s.now }
{
    let k = sha384_block::constants();
    let mut m = from;
    let mut i: usize = 0;
    while i < s.len() {
        let used = m.used;
        let size = octets::lesser(BLOCK_SIZE - used, s.len() - i);
        let end = i + size;
        let next = fill(m, &s[i..end], &k);
        m = next;
        i = end;
    }
    m
}

// The state before the first byte.
pub fn new() -> State
    ensures { result ≡ initial_state }
{
    let words = sha384_block::initial();
    let block = no_bytes();
    State {
        words,
        block,
        total: 0,
    }
}

// The state after a piece; or a refusal, and the state as it was.
pub fn update(state: State, piece: &[u8]) -> Updated
    ensures { result ≡ updated state piece.now }
{
    let words = state.words;
    let block = state.block;
    let total = state.total;
    let size = piece.len() as u64;
    if octets::passes(TOTAL_LIMIT, total, size) {
        return Updated {
            verdict: Verdict::refuse(Refusal::MESSAGE_TOO_LONG, 0),
            state,
        };
    }
    let from = Filling {
        words,
        block,
        used: (total % BLOCK) as usize,
    };
    let after = take_bytes(from, piece);
    let words_after = after.words;
    let block_after = after.block;
    let total_after = total + size;
    Updated {
        verdict: Verdict::Accepted,
        state: State {
            words: words_after,
            block: block_after,
            total: total_after,
        },
    }
}

// The state after a piece; the state as it was if the piece would pass the limit.
pub fn after(state: State, piece: &[u8]) -> State
    ensures { result ≡ more_hashed state piece.now }
{
    let answer = update(state, piece);
    let next = answer.state;
    next
}

// ---- the digest

// The digest of a hash value: its first bytes.
fn digest(words: [u64; 8]) -> [u8; DIGEST_SIZE]
    ensures { result ≡ digest_of words }
{
    let mut out = [0u8; DIGEST_SIZE];
    let mut i: usize = 0;
    while i < DIGEST_WORDS {
        octets::put_be64(&mut out, 8 * i, words[i]);
        i += 1;
    }
    out
}

// How many zero bytes the padding of a message of so many bytes has before the length.
fn zeros_for(total: u64) -> usize
    ensures { result ≡ zeros_for total }
{
    ((2 * BLOCK - LEAST_PADDING as u64 - total % BLOCK) % BLOCK) as usize
}

// The padding of a message of so many bytes: one byte, as many zeros as it takes, and the length in bits, after which nothing of the
// array counts.
fn padding_of(total: u64, zeros: usize) -> [u8; MOST_PADDING]
    requires { zeros ≡ zeros_for total }
    ensures { (length result ≡ most_padding) × (take (zeros + least_padding) result ≡ padding total) }
{
    let mut pad = [0u8; MOST_PADDING];
    pad[0] = 0x80;
    octets::put_be64(&mut pad, zeros + 1, total >> 61);
    octets::put_be64(&mut pad, zeros + 9, total << 3);
    pad
}

// The digest of all bytes that were taken in.
pub fn finish(state: State) -> [u8; DIGEST_SIZE]
    ensures { result ≡ digest_from state }
{
    let total = state.total;
    let words = state.words;
    let block = state.block;
    let from = Filling {
        words,
        block,
        used: (total % BLOCK) as usize,
    };
    let zeros = zeros_for(total);
    let pad = padding_of(total, zeros);
    let end = zeros + LEAST_PADDING;
    let last = take_bytes(from, &pad[..end]);
    let hash = last.words;
    digest(hash)
}
