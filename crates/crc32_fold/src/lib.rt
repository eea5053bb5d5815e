// The code of CRC-32 (`crc32/specs/Crc.antt`).
//
// `checksum` takes one slice. For bytes in several slices: `update` from START, slice by slice, and `finish` at the end.
//
// There is no table. The bits of a slice, first bit first, and 32 zero bits after them are a polynomial over the two elements 0 and 1, and
// sought is its remainder modulo the polynomial P of the standard. P divides
//
//     f(x) = x^300 + x^155 + x^117 + x^89 + 1,
//
// so x^300 = x^155 + x^117 + x^89 + 1 modulo P: a bit can be taken away if the bits 145, 183, 211 and 300 places after it are inverted
// where it was one, and the remainder stays. `short` does this with 64 bits at once, by shifts; what is to be added to the five words after
// them is kept in five numbers.
//
// Since (a + b)^2 = a^2 + b^2 where 1 + 1 = 0, f(x)^2 = f(x^2), and P divides f(x^2), f(x^4) and f(y) with y = x^8:
// y^300 = y^155 + y^117 + y^89 + 1. So what holds of bits holds of bytes too: a byte can be taken away if it is added, as it is, to the bytes
// 145, 183, 211 and 300 places after it. `long` does this, without shifts, and a compiler makes 16 such turns at once, since no byte is
// wanted before 145 turns have passed. It takes a window of 300 bytes, which pays for itself from some hundred bytes on.
//
// P also divides
//
//     g(x) = x^3006 + x^2866 + x^2215 + 1,
//
// which has a term less, and so g(y) with y = x^32: a word of 32 bits can be taken away if it is added to the words 140, 791 and 3006 places
// after it. That is a load less for each turn, but a window of 3006 words, which pays for itself from some hundred KiB on: `longer`. There
// the window is a ring: each word takes the place of the one 3006 places before it, and nothing is moved.
//
// Each way five words are left at last, and a few bytes. They go by `steps64`, which makes 64 bit steps of the definition at once.
#![tactic(auto)]

ghost use Rattle.std.specs.Prelude.{◌≡◌, ◌<◌, ◌≤◌, ◌+◌, ◌*◌, ◌/◌, ◌%◌, ◌^◌, length, take, drop};
ghost use Rattle.std.specs.Int.Bits.{bit_xor};
ghost use Rattle.octets.specs.Bytes.{le_value};
ghost use Rattle.crc32.specs.Crc.{crc_from, crc32, ones32, shift_bits};
ghost use Rattle.crc32_lemmas.specs.Fold.{taps, up64, inverse, remainder_from, down, sparse, sparser, spread, mix, window_size, window, ring_size, past_word, low_ring_power, high_ring_power, ring, added, Words};
ghost use Rattle.crc32_lemmas.specs.Sizes.{carry_size, round_size, buffer_size, emptied_size, cleared_size, ring_buffer, ring_bytes, low_back, high_back};
ghost use Rattle.crc32_fold.specs.Carried.{carried, WordTaken};

const ONES: u32 = 0xFFFFFFFF;

// The state before the first byte.
pub const START: u32 = ONES;

// From this length on, the window of `long` pays for itself.
const LONG: usize = 640;

// From this length on, that of `longer`.
const LONGER: usize = 262144;

// From this length on, a slice is taken in two parts.
const PARTED: usize = 16777216;

// The five words of a carry, in bytes; and with a word before them, which can then be folded.
const CARRY: usize = 5 * 8;

const WORD_AND_CARRY: usize = 8 + CARRY;

// The bytes of the window of `long` and f's powers between, the bytes that it folds before it moves the window back to the front, and a
// buffer for both.
const WINDOW: usize = 300;

const LOW_POWER: usize = 89;

const MID_POWER: usize = 117;

const HIGH_POWER: usize = 155;

const ROUND: usize = 1024;

const BUFFER: usize = WINDOW + ROUND;

// The window in whole words of 64 bits, how far what is added to them reaches, and what the window stands over at last.
const EMPTIED: usize = 304;

const CLEARED: usize = 468;

const LONG_REST: usize = EMPTIED + CARRY;

// The words of the ring of `longer`, g's powers between and how far that is back in the ring, the ring's last word and its size in bytes; how
// many bytes must be left for another round.
const RING: usize = 3006;

const LOW_RING_POWER: usize = 2215;

const HIGH_RING_POWER: usize = 2866;

const LOW_BACK: usize = RING - LOW_RING_POWER;

const HIGH_BACK: usize = RING - HIGH_RING_POWER;

const RING_LAST: usize = RING - 1;

const RING_BYTES: usize = 4 * RING;

const RING_ROUND: usize = 2 * RING_BYTES + CARRY;

// The ring's buffer has one entry more. It is not used: with it, the words that most turns write lie at multiples of 16 bytes on the stack,
// which is faster.
const RING_BUFFER: usize = RING + 1;

// ---- numbers

fn wide8(x: u8) -> u32
    ensures { (result ≡ x) × (result < 256) }
{
    x as u32
}

fn low8(x: u32) -> u8
    ensures { result ≡ x % 256 }
{
    (x % 256) as u8
}

fn wide32(x: u32) -> u64
    ensures { (result ≡ x) × (result < 2 ^ 32) }
{
    x as u64
}

fn high32(x: u64) -> u32
    ensures { result ≡ x / 2 ^ 32 }
{
    (x >> 32) as u32
}

// The number of the bytes at i, lowest first. In a straight line, which compiles to one load. Not those of `octets`, which also answer for a
// slice that has a part of them: that test would stand in each turn.
fn le16(s: &[u8], i: usize) -> u32
    requires { i + 2 ≤ length s.now }
    ensures { (le_value (drop i s.now) ≡ result + 2 ^ 16 * le_value (drop (i + 2) s.now)) × (result < 2 ^ 16) }
{
    wide8(s[i]) + wide8(s[i + 1]) * 0x100
}

fn le32(s: &[u8], i: usize) -> u32
    requires { i + 4 ≤ length s.now }
    ensures { (le_value (drop i s.now) ≡ result + 2 ^ 32 * le_value (drop (i + 4) s.now)) × (result < 2 ^ 32) }
{
    le16(s, i) + le16(s, i + 2) * 0x10000
}

fn le64(s: &[u8], i: usize) -> u64
    requires { i + 8 ≤ length s.now }
    ensures { (le_value (drop i s.now) ≡ result + 2 ^ 64 * le_value (drop (i + 8) s.now)) × (result < 2 ^ 64) }
{
    wide32(le32(s, i)) + wide32(le32(s, i + 4)) * 0x100000000
}

// ---- bit steps, without a table
//
// A step takes the lowest bit off a number, and adds the polynomial where that bit was one. So 64 steps take 64 bits off and add the
// polynomial times q, whose bits are those that fell out, and all 64 low bits of x + q * (1 + 2 * 0xEDB88320) are zero: q is x times the
// inverse of 1 + 2 * 0xEDB88320 modulo x^64, 0xB4E5B025F7011641.

// The bits that fall out in 64 steps.
fn quotient(x: u64) -> u64
    ensures { result ≡ taps up64 inverse x }
{
    x ^ (x << 6)
        ^ (x << 9)
        ^ (x << 10)
        ^ (x << 12)
        ^ (x << 16)
        ^ (x << 24)
        ^ (x << 25)
        ^ (x << 26)
        ^ (x << 28)
        ^ (x << 29)
        ^ (x << 30)
        ^ (x << 31)
        ^ (x << 32)
        ^ (x << 34)
        ^ (x << 37)
        ^ (x << 44)
        ^ (x << 45)
        ^ (x << 47)
        ^ (x << 48)
        ^ (x << 50)
        ^ (x << 53)
        ^ (x << 54)
        ^ (x << 55)
        ^ (x << 58)
        ^ (x << 60)
        ^ (x << 61)
        ^ (x << 63)
}

// 64 bit steps, of which the last 32 bits that fall out tell the remainder: the shifts are the powers in the standard's polynomial.
fn steps64(x: u64) -> u32
    ensures { result ≡ shift_bits 64 x }
{
    let q = high32(quotient(x));
    q ^ (q >> 1)
        ^ (q >> 2)
        ^ (q >> 4)
        ^ (q >> 5)
        ^ (q >> 7)
        ^ (q >> 8)
        ^ (q >> 10)
        ^ (q >> 11)
        ^ (q >> 12)
        ^ (q >> 16)
        ^ (q >> 22)
        ^ (q >> 23)
        ^ (q >> 26)
}

// The first 32 of 64 steps only move a number down that stands above 32 zeros.
fn steps32(x: u32) -> u32
    ensures { result ≡ shift_bits 32 x }
{
    steps64(wide32(x) * 0x100000000)
}

fn steps8(x: u32) -> u32
    ensures { result ≡ shift_bits 8 x }
{
    (x >> 8) ^ steps32(x << 24)
}

// The checksum state after the bytes from a position on: eight bytes at a time, then four, then one.
fn tail(state: u32, s: &[u8], from: usize) -> u32
    requires { from ≤ length s.now }
    ensures { result ≡ remainder_from s.now from state }
{
    let mut c = state;
    let mut i = from;
    while 8 <= s.len() - i {
        c = steps64(wide32(c) ^ le64(s, i));
        i += 8;
    }
    while 4 <= s.len() - i {
        c = steps32(c ^ le32(s, i));
        i += 4;
    }
    while i < s.len() {
        c = steps8(c ^ wide8(s[i]));
        i += 1;
    }
    c
}

// ---- a short slice: bits are folded

// What the words that were taken away add to the five words after them.
#[derive(Clone, Copy)]
struct Carry {
    a: u64,
    b: u64,
    c: u64,
    d: u64,
    e: u64,
}

impl Carry {
    const NONE: Carry = Carry {
        a: 0,
        b: 0,
        c: 0,
        d: 0,
        e: 0,
    };
}

// One word further: the word, with what was added to it, is taken away.
fn fold_bits(n: Carry, word: u64) -> Carry
    ensures { carried result ≡ bit_xor (down 64 (carried n)) (spread sparse 1 past_word (bit_xor n.a word)) }
{
    let w = n.a ^ word;
    Carry {
        a: n.b,
        b: n.c ^ ((w << 55) ^ (w << 17)),
        c: n.d ^ (((w << 19) ^ (w >> 9)) ^ (w >> 47)),
        d: n.e ^ ((w << 44) ^ (w >> 45)),
        e: w >> 20,
    }
}

// One word taken in, with what was added to it.
fn take_in(state: u32, more: u64, s: &[u8], i: usize) -> u32
    requires { i + 8 ≤ length s.now }
    ensures { WordTaken s.now i state more result }
{
    steps64(wide32(state) ^ (more ^ le64(s, i)))
}

// The last five words.
fn last_words(n: Carry, s: &[u8], i: usize) -> u32
    requires { i + carry_size ≤ length s.now }
    ensures { remainder_from s.now (i + carry_size) result ≡ remainder_from s.now i (carried n) }
{
    let a = take_in(0, n.a, s, i);
    let b = take_in(a, n.b, s, i + 8);
    let c = take_in(b, n.c, s, i + 16);
    let d = take_in(c, n.d, s, i + 24);
    take_in(d, n.e, s, i + 32)
}

// What is left from a position on, and what is added to it.
fn rest(first: Carry, s: &[u8], from: usize) -> u32
    requires { (from + carry_size ≤ length s.now) × (first.a < 2 ^ 64) }
    ensures { result ≡ remainder_from s.now from (carried first) }
{
    let mut n = first;
    let mut i = from;
    while WORD_AND_CARRY <= s.len() - i {
        let next = fold_bits(n, le64(s, i));
        n = next;
        i += 8;
    }
    let c = last_words(n, s, i);
    tail(c, s, i + CARRY)
}

fn short(state: u32, s: &[u8]) -> u32
    ensures { result ≡ crc_from state s.now }
{
    if s.len() < CARRY {
        return tail(state, s, 0);
    }
    let first = Carry {
        a: wide32(state),
        b: 0,
        c: 0,
        d: 0,
        e: 0,
    };
    rest(first, s, 0)
}

// ---- a long slice: bytes are folded

// What the bytes taken away, of which v has the last 300 from j on, add to the next byte.
fn added_to(v: &[u8; BUFFER], j: usize) -> u8
    requires { j < round_size }
    ensures { result ≡ added v.now j }
{
    v[j] ^ v[j + LOW_POWER] ^ v[j + MID_POWER] ^ v[j + HIGH_POWER]
}

// n bytes from a position on are taken away.
fn fold_bytes(s: &[u8], at: usize, n: usize, v: &mut [u8; BUFFER])
    requires { (at + n + window_size ≤ length s.now) × (n ≤ round_size) × Words 8 buffer_size v.old }
    ensures { (remainder_from s.now (at + n) (mix sparse 8 (window v.new n)) ≡ remainder_from s.now at (mix sparse 8 (window v.old 0))) × Words 8 buffer_size v.new }
{
    let mut j = 0;
    while j < n {
        let w = added_to(v, j) ^ s[at + j];
        v[j + WINDOW] = w;
        j += 1;
    }
}

// The window back to the front.
fn move_back(n: usize, v: &mut [u8; BUFFER])
    requires { (1 ≤ n) × (n ≤ round_size) × Words 8 buffer_size v.old }
    ensures { (window v.new 0 ≡ window v.old n) × Words 8 buffer_size v.new }
{
    let mut j = 0;
    while j < WINDOW {
        v[j] = v[j + n];
        j += 1;
    }
}

// Nothing after the window, as far as `empty` reads: then these bytes are the window as a number.
fn clear(v: &mut [u8; BUFFER])
    requires { Words 8 buffer_size v.old }
    ensures { (le_value (take cleared_size v.new) ≡ window v.old 0) × (length v.new ≡ buffer_size) }
{
    let mut j = WINDOW;
    while j < CLEARED {
        v[j] = 0;
        j += 1;
    }
}

// What the window adds to the eight bytes at j.
fn added_at(v: &[u8], j: usize) -> u64
    requires { (length v.now ≡ cleared_size) × (j + 8 ≤ emptied_size) }
    ensures { result ≡ down (8 * j) (mix sparse 8 (le_value v.now)) % 2 ^ 64 }
{
    le64(v, j) ^ le64(v, j + LOW_POWER) ^ le64(v, j + MID_POWER) ^ le64(v, j + HIGH_POWER)
}

// The bytes under the window, folded as bits, eight at a time, until nothing of the window is left.
fn empty(s: &[u8], at: usize, v: &[u8]) -> Carry
    requires { (at + emptied_size + carry_size ≤ length s.now) × (length v.now ≡ cleared_size) × (down (8 * window_size) (le_value v.now) ≡ 0) }
    ensures { (remainder_from s.now (at + emptied_size) (carried result) ≡ remainder_from s.now at (mix sparse 8 (le_value v.now))) × (result.a < 2 ^ 64) }
{
    let mut n = Carry::NONE;
    let mut j = 0;
    while j < EMPTIED {
        let w = added_at(v, j) ^ le64(s, at + j);
        let next = fold_bits(n, w);
        n = next;
        j += 8;
    }
    n
}

fn long(state: u32, s: &[u8]) -> u32
    requires { emptied_size + carry_size ≤ length s.now }
    ensures { result ≡ crc_from state s.now }
{
    let mut v = [0u8; BUFFER];
    v[0] = low8(state);
    v[1] = low8(state >> 8);
    v[2] = low8(state >> 16);
    v[3] = low8(state >> 24);
    let mut i = 0;
    while LONG_REST < s.len() - i {
        let n = octets::lesser(s.len() - i - LONG_REST, ROUND);
        fold_bytes(s, i, n, &mut v);
        move_back(n, &mut v);
        i += n;
    }
    clear(&mut v);
    let n = empty(s, i, &v[..CLEARED]);
    rest(n, s, i + EMPTIED)
}

// ---- a longer slice: words of 32 bits are folded, in a ring

// One word taken away. It takes the place of the oldest, at j; the other two that are added to it stand at p and q.
fn turn(s: &[u8], at: usize, j: usize, p: usize, q: usize, v: &mut [u32; RING_BUFFER])
    requires { (at + (4 + ring_bytes) ≤ length s.now) × (j < ring_size) × (p ≡ (j + low_ring_power) % ring_size) × (q ≡ (j + high_ring_power) % ring_size) × Words 32 ring_buffer v.old }
    ensures { (remainder_from s.now (at + 4) (mix sparser 32 (ring v.new (j + 1))) ≡ remainder_from s.now at (mix sparser 32 (ring v.old j))) × Words 32 ring_buffer v.new }
{
    let w = v[j] ^ v[p] ^ v[q] ^ le32(s, at);
    v[j] = w;
}

// One round of the ring, from a position on, in three parts by where p and q stand: a compiler makes several turns at once only where it
// knows the distances from j.
fn turn_first(s: &[u8], at: usize, v: &mut [u32; RING_BUFFER])
    requires { (at + 2 * ring_bytes ≤ length s.now) × Words 32 ring_buffer v.old }
    ensures { (remainder_from s.now (at + 4 * high_back) (mix sparser 32 (ring v.new high_back)) ≡ remainder_from s.now at (mix sparser 32 (ring v.old 0))) × Words 32 ring_buffer v.new }
{
    let mut j = 0;
    while j < HIGH_BACK {
        turn(s, at + j * 4, j, j + LOW_RING_POWER, j + HIGH_RING_POWER, v);
        j += 1;
    }
}

fn turn_second(s: &[u8], at: usize, v: &mut [u32; RING_BUFFER])
    requires { (at + 2 * ring_bytes ≤ length s.now) × Words 32 ring_buffer v.old }
    ensures { (remainder_from s.now (at + 4 * low_back) (mix sparser 32 (ring v.new low_back)) ≡ remainder_from s.now (at + 4 * high_back) (mix sparser 32 (ring v.old high_back))) × Words 32 ring_buffer v.new }
{
    let mut j = HIGH_BACK;
    while j < LOW_BACK {
        turn(s, at + j * 4, j, j + LOW_RING_POWER, j - HIGH_BACK, v);
        j += 1;
    }
}

fn turn_third(s: &[u8], at: usize, v: &mut [u32; RING_BUFFER])
    requires { (at + 2 * ring_bytes ≤ length s.now) × Words 32 ring_buffer v.old }
    ensures { (remainder_from s.now (at + ring_bytes) (mix sparser 32 (ring v.new 0)) ≡ remainder_from s.now (at + 4 * low_back) (mix sparser 32 (ring v.old low_back))) × Words 32 ring_buffer v.new }
{
    let mut j = LOW_BACK;
    while j < RING {
        turn(s, at + j * 4, j, j - LOW_BACK, j - HIGH_BACK, v);
        j += 1;
    }
}

// Two words of the window as one, of what is past its end zeros.
fn pair_at(v: &[u32; RING_BUFFER], i: usize) -> u64
    requires { Words 32 ring_buffer v.now }
    ensures { result ≡ down (32 * i) (ring v.now 0) % 2 ^ 64 }
{
    if i < RING_LAST {
        return wide32(v[i]) + wide32(v[i + 1]) * 0x100000000;
    }
    if i == RING_LAST {
        return wide32(v[i]);
    }
    0
}

// The words under the window, folded as bits, until nothing of the window is left.
fn empty_ring(s: &[u8], at: usize, v: &[u32; RING_BUFFER]) -> Carry
    requires { (at + ring_bytes + carry_size ≤ length s.now) × Words 32 ring_buffer v.now }
    ensures { (remainder_from s.now (at + ring_bytes) (carried result) ≡ remainder_from s.now at (mix sparser 32 (ring v.now 0))) × (result.a < 2 ^ 64) }
{
    let mut n = Carry::NONE;
    let mut j = 0;
    while j < RING {
        let w = pair_at(v, j)
            ^ pair_at(v, j + LOW_RING_POWER)
            ^ pair_at(v, j + HIGH_RING_POWER)
            ^ le64(s, at + j * 4);
        let next = fold_bits(n, w);
        n = next;
        j += 2;
    }
    n
}

fn longer(state: u32, s: &[u8]) -> u32
    requires { ring_bytes + carry_size ≤ length s.now }
    ensures { result ≡ crc_from state s.now }
{
    let mut v = [0u32; RING_BUFFER];
    v[0] = state;
    let mut i = 0;
    while RING_ROUND <= s.len() - i {
        turn_first(s, i, &mut v);
        turn_second(s, i, &mut v);
        turn_third(s, i, &mut v);
        i += RING_BYTES;
    }
    let n = empty_ring(s, i, &v);
    rest(n, s, i + RING_BYTES)
}

// ---- any slice

// The state after the bytes, from the state before them.
pub fn update(state: u32, bytes: &[u8]) -> u32
    ensures { result ≡ crc_from state bytes.now }
{
    if bytes.len() < LONG {
        return short(state, bytes);
    }
    if bytes.len() < LONGER {
        return long(state, bytes);
    }
    if bytes.len() < PARTED {
        return longer(state, bytes);
    }
    // A compiler puts a function that is called once into its caller: then each call, of a short slice too, would take the stack of both
    // windows. So `long` and `longer` are called more than once.
    let before = long(state, &bytes[..LONG]);
    longer(before, &bytes[LONG..])
}

// The checksum of all bytes that were taken in.
pub fn finish(state: u32) -> u32
    ensures { result ≡ bit_xor ones32 state }
{
    ONES ^ state
}

pub fn checksum(bytes: &[u8]) -> u32
    ensures { result ≡ crc32 bytes.now }
{
    finish(update(START, bytes))
}
