// Numbers as bytes in both byte orders, and writing bytes over a part of a slice.
//
// Every public function is total. A read that starts or ends past the slice gives the number of the bytes that there are;
// a write leaves out the bytes that would lie past the end.
#![tactic(auto)]

ghost use Rattle.std.specs.Prelude.{◌≡◌, ◌+◌, ◌-◌, ◌*◌, ◌^◌, ◌<◌, ◌≤◌, min, ltb, length};
ghost use Rattle.octets.specs.Bytes.{be_bytes, le_bytes, field, le_field};
ghost use Rattle.octets.specs.ByteOrder.{bytes_of, field_of, byte_weight};
ghost use Rattle.octets.specs.Over.{over};

fn wide(b: u8) -> u64
    ensures { result ≡ b }
{
    b as u64
}

// The lesser of two numbers.
pub fn lesser(a: usize, b: usize) -> usize
    ensures { result ≡ min a b }
{
    if a < b { a } else { b }
}

// How many of `count` bytes lie within `len` bytes when the first stands at `at`.
fn room(len: usize, at: usize, count: usize) -> usize
    ensures { result ≡ min count (len - at) }
{
    if len <= at {
        0
    } else {
        lesser(count, len - at)
    }
}

// How far a number lies past another; 0 where it does not.
pub fn past(a: u64, b: u64) -> u64
    ensures { result ≡ a - b }
{
    if a < b { 0 } else { a - b }
}

// Whether a sum is over a limit. What the first leaves of the limit is compared, as the sum itself could wrap.
pub fn passes(limit: u64, a: u64, b: u64) -> bool
    ensures { result ≡ ltb limit (a + b) }
{
    if limit < a {
        return true;
    }
    limit - a < b
}

// Which byte of a number counts most: the first, or the last.
#[derive(Clone, Copy)]
enum ByteOrder {
    Big,
    Little,
}

// The weight of the byte at place k of `count` bytes, as a power of 256; and the place of the byte that has the weight k.
fn weight(order: ByteOrder, count: usize, k: usize) -> usize
    requires { k < count }
    ensures value { result ≡ byte_weight order count k }
    ensures upper_bound { result < count }
{
    match order {
        ByteOrder::Big => count - 1 - k,
        ByteOrder::Little => k,
    }
}

// ---- reading

// The number of `count` bytes at a position, added up from the byte of the lowest weight. With a constant `count` the compiler turns the loop
// into one load.
fn weighted_sum(s: &[u8], at: usize, count: usize, order: ByteOrder) -> u64
    requires { (count ≤ 8) × (count ≤ length s.now - at) }
    ensures value { result ≡ field_of order count at s.now }
    ensures upper_bound { result < 256 ^ count }
{
    let mut v: u64 = 0;
    let mut k: usize = 0;
    while k < count {
        let i = weight(order, count, k);
        v += wide(s[at + i]) << (8 * k);
        k += 1;
    }
    v
}

// The number of a field of at most eight bytes; of a field that the slice's end cuts, the number of the bytes that the slice has. A whole field
// is a case of its own, since its width is a constant at each call below.
fn number(s: &[u8], at: usize, width: usize, order: ByteOrder) -> u64
    requires { width ≤ 8 }
    ensures value { result ≡ field_of order width at s.now }
    ensures upper_bound { result < 256 ^ width }
{
    let count = room(s.len(), at, width);
    if count < width {
        return weighted_sum(s, at, count, order);
    }
    weighted_sum(s, at, width, order)
}

pub fn be16(s: &[u8], at: usize) -> u16
    ensures { result ≡ field 2 at s.now }
{
    number(s, at, 2, ByteOrder::Big) as u16
}

pub fn be32(s: &[u8], at: usize) -> u32
    ensures { result ≡ field 4 at s.now }
{
    number(s, at, 4, ByteOrder::Big) as u32
}

pub fn be64(s: &[u8], at: usize) -> u64
    ensures { result ≡ field 8 at s.now }
{
    number(s, at, 8, ByteOrder::Big)
}

pub fn le16(s: &[u8], at: usize) -> u16
    ensures { result ≡ le_field 2 at s.now }
{
    number(s, at, 2, ByteOrder::Little) as u16
}

pub fn le64(s: &[u8], at: usize) -> u64
    ensures { result ≡ le_field 8 at s.now }
{
    number(s, at, 8, ByteOrder::Little)
}

// ---- writing

// The `width` low bytes of `n`: each is shifted down by the bytes of lower weight.
fn put(out: &mut [u8], at: usize, width: usize, n: u64, order: ByteOrder)
    requires { width ≤ 8 }
    ensures { out.new ≡ over out.old at (bytes_of order width n) }
{
    let count = room(out.len(), at, width);
    let mut k: usize = 0;
    while k < count {
        let i = weight(order, width, k);
        out[at + k] = ((n >> (8 * i)) % 256) as u8;
        k += 1;
    }
}

pub fn put_be16(out: &mut [u8], at: usize, n: u16)
    ensures { out.new ≡ over out.old at (be_bytes 2 n) }
{
    put(out, at, 2, n as u64, ByteOrder::Big);
}

pub fn put_be32(out: &mut [u8], at: usize, n: u32)
    ensures { out.new ≡ over out.old at (be_bytes 4 n) }
{
    put(out, at, 4, n as u64, ByteOrder::Big);
}

pub fn put_be64(out: &mut [u8], at: usize, n: u64)
    ensures { out.new ≡ over out.old at (be_bytes 8 n) }
{
    put(out, at, 8, n, ByteOrder::Big);
}

pub fn put_le16(out: &mut [u8], at: usize, n: u16)
    ensures { out.new ≡ over out.old at (le_bytes 2 n) }
{
    put(out, at, 2, n as u64, ByteOrder::Little);
}

pub fn put_le64(out: &mut [u8], at: usize, n: u64)
    ensures { out.new ≡ over out.old at (le_bytes 8 n) }
{
    put(out, at, 8, n, ByteOrder::Little);
}

// The bytes of `s` over what stands from `at` on. The count is clipped once, so that the loop has no other test and can move blocks of bytes.
pub fn copy(out: &mut [u8], at: usize, s: &[u8])
    ensures { out.new ≡ over out.old at s.now }
{
    let fits = room(out.len(), at, s.len());
    let mut k: usize = 0;
    while k < fits {
        out[at + k] = s[k];
        k += 1;
    }
}
