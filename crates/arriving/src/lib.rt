// The reader of an image that arrives in pieces (FORMAT.md, Check while it arrives).
//
// A state goes in by value and comes back: `begin`, then `feed` for each piece, then `finish` when the file has ended. It keeps what
// the rules look at and no more, and answers only at the end, by the whole reader's own rules. Every public function is total: each
// contract holds for any state, and the laws of a state begun fresh are in arriving_laws.
#![tactic(auto)]

ghost use Rattle.std.specs.Prelude.{◌≡◌, [], ◌+◌, ◌-◌, ◌*◌, ◌<◌, ◌≤◌, length};
ghost use Rattle.crc32.specs.Crc.{crc_from};
ghost use Rattle.eif.specs.Numbers.{place_count};
ghost use Rattle.eif.specs.Layout.{section_header_size};
ghost use Rattle.arriving.specs.State.{count_limit, kept_from, checked_after, state_of};
ghost use Rattle.arriving.specs.Calls.{answer_of, kept_over, headers_over, grown, fed, finished};

use eif::{Header, Reading, SectionHeader};

// The largest count of bytes; the counter stops there.
pub const COUNT_LIMIT: u64 = 0xFFFFFFFFFFFFFFFF;

// What is kept of the bytes so far: how many were taken; the file's header and the sections' own headers one after the other, zero
// where they have not come; the checksum's remainder; and whether the end was told (0: no). In this order C leaves no room between
// the fields.
#[repr(C)]
#[derive(Clone, Copy)]
pub struct Arriving {
    pub taken: u64,
    pub header: [u8; Header::SIZE],
    pub headers: [u8; SectionHeader::ALL_SIZE],
    pub checksum: u32,
    pub ended: u64,
}

// What a piece is answered with: the state after it, and how many of its bytes were taken.
#[repr(C)]
#[derive(Clone, Copy)]
pub struct Fed {
    pub state: Arriving,
    pub count: u64,
}

// What telling the end is answered with: the state after it, and the reading of the bytes taken.
#[derive(Clone, Copy)]
pub struct Finished {
    pub state: Arriving,
    pub reading: Reading,
}

// ---- the sections' own headers

// Where the own header of a section is kept from.
fn kept_from(header: &[u8], i: usize) -> u64
    requires { i < place_count }
    ensures { result ≡ kept_from header.now i }
{
    let offset = eif_judge::offset_at(header, i as u8);
    if offset < Header::SIZE as u64 {
        return Header::SIZE as u64;
    }
    offset
}

// The bytes of one of them that a piece has, which comes after `taken` bytes: `held` came before, and `skip` of the piece lie before it.
fn keep_header(headers: &mut [u8], at: usize, from: u64, taken: u64, piece: &[u8])
    requires { at + section_header_size ≤ length headers.old }
    ensures { headers.new ≡ kept_over headers.old at from taken piece.now }
{
    let held = octets::past(taken, from);
    let skip = octets::past(from, taken);
    let size = SectionHeader::SIZE as u64;
    let len = piece.len() as u64;
    if size <= held {
        return;
    }
    if len <= skip {
        return;
    }
    let start = skip as usize;
    let end = start + octets::lesser((size - held) as usize, (len - skip) as usize);
    octets::copy(headers, at + held as usize, &piece[start..end]);
}

fn keep_headers(headers: &mut [u8], header: &[u8], taken: u64, piece: &[u8])
    requires { length headers.old ≡ section_header_size * place_count }
    ensures { headers.new ≡ headers_over header.now taken piece.now place_count 0 headers.old }
{
    let mut i: usize = 0;
    while i < eif::PLACES {
        keep_header(
            headers,
            SectionHeader::SIZE * i,
            kept_from(header, i),
            taken,
            piece,
        );
        i += 1;
    }
}

// ---- the checksum

// The remainder after a piece that comes after `taken` bytes: the checksum's own bytes are left out.
fn remainder(checksum: u32, taken: u64, piece: &[u8]) -> u32
    ensures { result ≡ crc_from checksum (checked_after taken piece.now) }
{
    if Header::SIZE as u64 <= taken {
        return crc32_fold::update(checksum, piece);
    }
    let end = octets::lesser(
        octets::past(Header::CHECKSUM_AT as u64, taken) as usize,
        piece.len(),
    );
    let start = octets::lesser(
        octets::past(Header::SIZE as u64, taken) as usize,
        piece.len(),
    );
    let before = crc32_fold::update(checksum, &piece[..end]);
    crc32_fold::update(before, &piece[start..])
}

// ---- the three calls

// The state before the first byte.
pub fn begin() -> Arriving
    ensures { result ≡ state_of [] }
{
    Arriving {
        taken: 0,
        header: [0u8; Header::SIZE],
        headers: [0u8; SectionHeader::ALL_SIZE],
        checksum: crc32_fold::START,
        ended: 0,
    }
}

// The state after bytes for which the counter has room.
fn grow(state: Arriving, piece: &[u8]) -> Arriving
    requires { state.taken + length piece.now ≤ count_limit }
    ensures { result ≡ grown state piece.now }
{
    let taken = state.taken;
    let mut header = state.header;
    octets::copy(&mut header, taken as usize, piece);
    let mut headers = state.headers;
    keep_headers(&mut headers, &header, taken, piece);
    Arriving {
        taken: taken + piece.len() as u64,
        header,
        headers,
        checksum: remainder(state.checksum, taken, piece),
        ended: state.ended,
    }
}

// A piece, of which at most `allowance` bytes are taken, and none once the end was told.
pub fn feed(state: Arriving, piece: &[u8], allowance: u64) -> Fed
    ensures { result ≡ fed state piece.now allowance }
{
    if state.ended != 0 {
        return Fed { state, count: 0 };
    }
    let count = octets::lesser(allowance as usize, piece.len());
    let room = COUNT_LIMIT - state.taken;
    let kept = octets::lesser(room as usize, count);
    let after = grow(state, &piece[..kept]);
    Fed {
        state: after,
        count: count as u64,
    }
}

// The reading of the bytes taken, by the rules of the whole reader.
pub fn answer(state: &Arriving) -> Reading
    ensures { result ≡ answer_of state.now }
{
    let none = [0u8; 0];
    eif_judge::read(
        &state.header,
        &state.headers,
        state.taken,
        state.checksum,
        &none,
    )
}

// The file has ended. Nothing is answered before: a longer file is refused for its length, and one that ends too soon for that,
// whatever the bytes that came.
pub fn finish(state: Arriving) -> Finished
    ensures { result ≡ finished state }
{
    let reading = answer(&state);
    let mut told = state;
    told.ended = 1;
    Finished {
        state: told,
        reading,
    }
}
