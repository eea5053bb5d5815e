// SHA-384's work on one block (FIPS 180-4, section 6.4.2): the hash value after a block of 128 bytes.
#![tactic(auto)]

ghost use Rattle.std.specs.Prelude.{◌≡◌, ◌+◌, ◌*◌, ◌%◌, ◌^◌, take};
ghost use Rattle.sha384_block.specs.Fips.{ch, maj, big_sigma0, big_sigma1, small_sigma0, small_sigma1, round_constants, initial_hash, words_from, extend, round, rounds, vars_of, next_hash, compress_by};

use std::num::wrapping_add_u64;

// The bytes of a block, and those of a digest.
pub const BLOCK_SIZE: usize = 128;

pub const DIGEST_SIZE: usize = 48;

// The hash value before the first block (FIPS 180-4, section 5.3.4).
const INITIAL: [u64; 8] = [
    0xCBBB9D5DC1059ED8,
    0x629A292A367CD507,
    0x9159015A3070DD17,
    0x152FECD8F70E5939,
    0x67332667FFC00B31,
    0x8EB44A8768581511,
    0xDB0C2E0D64F98FA7,
    0x47B5481DBEFA4FA4,
];

// FIPS 180-4, section 4.2.3.
const CONSTANTS: [u64; 80] = [
    0x428A2F98D728AE22,
    0x7137449123EF65CD,
    0xB5C0FBCFEC4D3B2F,
    0xE9B5DBA58189DBBC,
    0x3956C25BF348B538,
    0x59F111F1B605D019,
    0x923F82A4AF194F9B,
    0xAB1C5ED5DA6D8118,
    0xD807AA98A3030242,
    0x12835B0145706FBE,
    0x243185BE4EE4B28C,
    0x550C7DC3D5FFB4E2,
    0x72BE5D74F27B896F,
    0x80DEB1FE3B1696B1,
    0x9BDC06A725C71235,
    0xC19BF174CF692694,
    0xE49B69C19EF14AD2,
    0xEFBE4786384F25E3,
    0x0FC19DC68B8CD5B5,
    0x240CA1CC77AC9C65,
    0x2DE92C6F592B0275,
    0x4A7484AA6EA6E483,
    0x5CB0A9DCBD41FBD4,
    0x76F988DA831153B5,
    0x983E5152EE66DFAB,
    0xA831C66D2DB43210,
    0xB00327C898FB213F,
    0xBF597FC7BEEF0EE4,
    0xC6E00BF33DA88FC2,
    0xD5A79147930AA725,
    0x06CA6351E003826F,
    0x142929670A0E6E70,
    0x27B70A8546D22FFC,
    0x2E1B21385C26C926,
    0x4D2C6DFC5AC42AED,
    0x53380D139D95B3DF,
    0x650A73548BAF63DE,
    0x766A0ABB3C77B2A8,
    0x81C2C92E47EDAEE6,
    0x92722C851482353B,
    0xA2BFE8A14CF10364,
    0xA81A664BBC423001,
    0xC24B8B70D0F89791,
    0xC76C51A30654BE30,
    0xD192E819D6EF5218,
    0xD69906245565A910,
    0xF40E35855771202A,
    0x106AA07032BBD1B8,
    0x19A4C116B8D2D0C8,
    0x1E376C085141AB53,
    0x2748774CDF8EEB99,
    0x34B0BCB5E19B48A8,
    0x391C0CB3C5C95A63,
    0x4ED8AA4AE3418ACB,
    0x5B9CCA4F7763E373,
    0x682E6FF3D6B2B8A3,
    0x748F82EE5DEFB2FC,
    0x78A5636F43172F60,
    0x84C87814A1F0AB72,
    0x8CC702081A6439EC,
    0x90BEFFFA23631E28,
    0xA4506CEBDE82BDE9,
    0xBEF9A3F7B2C67915,
    0xC67178F2E372532B,
    0xCA273ECEEA26619C,
    0xD186B8C721C0C207,
    0xEADA7DD6CDE0EB1E,
    0xF57D4F7FEE6ED178,
    0x06F067AA72176FBA,
    0x0A637DC5A2C898A6,
    0x113F9804BEF90DAE,
    0x1B710B35131C471B,
    0x28DB77F523047D84,
    0x32CAAB7B40C72493,
    0x3C9EBE0A15C9BEBC,
    0x431D67C49C100D4C,
    0x4CC5D4BECB3E42B6,
    0x597F299CFC657E2A,
    0x5FCB6FAB3AD6FAEC,
    0x6C44198C4A475817,
];

pub fn initial() -> [u64; 8]
    ensures { result ≡ initial_hash }
{
    INITIAL
}

// The eighty constants as a value, made once for many blocks: an index into the constant itself would build the table anew each time.
pub fn constants() -> [u64; 80]
    ensures { result ≡ round_constants }
{
    CONSTANTS
}

// ---- operations on words (FIPS 180-4, section 4.1.3), each with fewer operations than the standard writes: the rotations of a sum of
// rotations are nested, and choice and majority take two exclusive ors and one and

fn choose(x: u64, y: u64, z: u64) -> u64
    ensures { result ≡ ch x y z }
{
    z ^ (x & (y ^ z))
}

fn majority(x: u64, y: u64, z: u64) -> u64
    ensures { result ≡ maj x y z }
{
    y ^ ((x ^ y) & (y ^ z))
}

fn big_sigma0(x: u64) -> u64
    ensures { result ≡ big_sigma0 x }
{
    let p = ((x >> 5) | (x << 59)) ^ x;
    let q = ((p >> 6) | (p << 58)) ^ x;
    (q >> 28) | (q << 36)
}

fn big_sigma1(x: u64) -> u64
    ensures { result ≡ big_sigma1 x }
{
    let p = ((x >> 23) | (x << 41)) ^ x;
    let q = ((p >> 4) | (p << 60)) ^ x;
    (q >> 14) | (q << 50)
}

fn small_sigma0(x: u64) -> u64
    ensures { result ≡ small_sigma0 x }
{
    let p = ((x >> 7) | (x << 57)) ^ x;
    ((p >> 1) | (p << 63)) ^ (x >> 7)
}

fn small_sigma1(x: u64) -> u64
    ensures { result ≡ small_sigma1 x }
{
    let p = ((x >> 42) | (x << 22)) ^ x;
    ((p >> 19) | (p << 45)) ^ (x >> 6)
}

// Sums modulo 2 to the 64.
fn sum4(a: u64, b: u64, c: u64, d: u64) -> u64
    ensures { result ≡ (a + b + c + d) % 2 ^ 64 }
{
    wrapping_add_u64(wrapping_add_u64(wrapping_add_u64(a, b), c), d)
}

fn sum5(a: u64, b: u64, c: u64, d: u64, e: u64) -> u64
    ensures { result ≡ (a + b + c + d + e) % 2 ^ 64 }
{
    wrapping_add_u64(sum4(a, b, c, d), e)
}

// ---- a block (FIPS 180-4, section 6.4.2)

// The eight working variables.
#[derive(Clone, Copy)]
struct Vars {
    a: u64,
    b: u64,
    c: u64,
    d: u64,
    e: u64,
    f: u64,
    g: u64,
    h: u64,
}

fn temp1(e: u64, f: u64, g: u64, h: u64, k: u64, w: u64) -> u64
    ensures { result ≡ (h + big_sigma1 e + ch e f g + k + w) % 2 ^ 64 }
{
    sum5(h, big_sigma1(e), choose(e, f, g), k, w)
}

fn temp2(a: u64, b: u64, c: u64) -> u64
    ensures { result ≡ (big_sigma0 a + maj a b c) % 2 ^ 64 }
{
    wrapping_add_u64(big_sigma0(a), majority(a, b, c))
}

// A round by a constant and a word of the schedule.
fn one_round(v: Vars, k: u64, w: u64) -> Vars
    ensures { result ≡ round k w v }
{
    let t1 = temp1(v.e, v.f, v.g, v.h, k, w);
    let t2 = temp2(v.a, v.b, v.c);
    Vars {
        a: wrapping_add_u64(t1, t2),
        b: v.a,
        c: v.b,
        d: v.c,
        e: wrapping_add_u64(v.d, t1),
        f: v.e,
        g: v.f,
        h: v.g,
    }
}

// The word of the schedule after sixteen others, of which it takes the last but 1, 6, 14 and 15.
fn next_word(two: u64, seven: u64, fifteen: u64, sixteen: u64) -> u64
    ensures { result ≡ (small_sigma1 two + seven + small_sigma0 fifteen + sixteen) % 2 ^ 64 }
{
    sum4(small_sigma1(two), seven, small_sigma0(fifteen), sixteen)
}

// The sixteen words of a block, in an array with room for the rest of the schedule.
fn own_words(block: &[u8]) -> [u64; 80]
    ensures { take 16 result ≡ words_from 16 0 block.now }
{
    let mut w = [0u64; 80];
    let mut t: usize = 0;
    while t < 16 {
        w[t] = octets::be64(block, 8 * t);
        t += 1;
    }
    w
}

// All rounds, two in a turn. Round t also makes word t + 16 of the schedule, which no round needs yet: the processor does both at once.
fn all_rounds(from: Vars, own: [u64; 80], k: &[u64; 80]) -> Vars
    ensures { result ≡ rounds 80 0 k.now (extend 64 (take 16 own)) from }
{
    let mut w = own;
    let mut v = from;
    let mut t: usize = 0;
    while t < 64 {
        let v1 = one_round(v, k[t], w[t]);
        w[t + 16] = next_word(w[t + 14], w[t + 9], w[t + 1], w[t]);
        let v2 = one_round(v1, k[t + 1], w[t + 1]);
        w[t + 17] = next_word(w[t + 15], w[t + 10], w[t + 2], w[t + 1]);
        v = v2;
        t += 2;
    }
    while t < 80 {
        let v1 = one_round(v, k[t], w[t]);
        let v2 = one_round(v1, k[t + 1], w[t + 1]);
        v = v2;
        t += 2;
    }
    v
}

fn vars_of(words: [u64; 8]) -> Vars
    ensures { result ≡ vars_of words }
{
    Vars {
        a: words[0],
        b: words[1],
        c: words[2],
        d: words[3],
        e: words[4],
        f: words[5],
        g: words[6],
        h: words[7],
    }
}

fn plus(v: Vars, words: [u64; 8]) -> [u64; 8]
    ensures { result ≡ next_hash words v }
{
    [
        wrapping_add_u64(v.a, words[0]),
        wrapping_add_u64(v.b, words[1]),
        wrapping_add_u64(v.c, words[2]),
        wrapping_add_u64(v.d, words[3]),
        wrapping_add_u64(v.e, words[4]),
        wrapping_add_u64(v.f, words[5]),
        wrapping_add_u64(v.g, words[6]),
        wrapping_add_u64(v.h, words[7]),
    ]
}

// The hash value after a block, by the round constants `k`.
pub fn compress(words: [u64; 8], block: &[u8], k: &[u64; 80]) -> [u64; 8]
    ensures { result ≡ compress_by k.now words block.now }
{
    let own = own_words(block);
    let after = all_rounds(vars_of(words), own, k);
    plus(after, words)
}
