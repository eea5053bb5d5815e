// Finds the section that the next bytes of an arriving image belong to (FORMAT.md, Check while it arrives).
//
// A caller asks `next` before each `arriving::feed` and hands over at most as many bytes as it answers. All bytes of that call are then data
// of one section, or of no section, and the caller may write them out or hash them. `next` is total: its contract holds for any state. The
// laws of a run from the fresh state are in arriving_sections_laws.
#![tactic(auto)]

ghost use Rattle.std.specs.Prelude.{◌≡◌, ◌≤◌, ◌<◌, min};
ghost use Rattle.eif.specs.Numbers.{place_count};
ghost use Rattle.eif.specs.Layout.{header_size, size_at};
ghost use Rattle.arriving_sections.specs.Span.{kept_kind, none_for, span_from, span_of};

use arriving::Arriving;
use eif::{Header, SectionHeader};

// The next bytes that belong together. `length` is their number. `place` is the section whose data they are; it is eif::PLACES if they are no
// section's data. `begun` is the number of sections whose own headers have arrived whole.
#[repr(C)]
#[derive(Clone, Copy)]
pub struct Span {
    pub place: u64,
    pub length: u64,
    pub begun: u64,
}

// The smaller of two numbers.
fn lesser(a: u64, b: u64) -> u64
    ensures { result ≡ min a b }
{
    if a < b { a } else { b }
}

// Bytes that are no section's data.
fn none(begun: u64, length: u64) -> Span
    ensures { result ≡ none_for begun length }
{
    Span {
        place: eif::PLACES as u64,
        length,
        begun,
    }
}

// The size of section i in the table of a header, or of a whole image.
pub fn size_at(header: &[u8], i: u8) -> u64
    ensures { result ≡ size_at header.now i }
{
    octets::be64(header, Header::SIZES_AT + Header::ENTRY_SIZE * i as usize)
}

// The type of section i in the sections' own headers that a state keeps; bytes that have not come are zero.
pub fn kind_at(headers: &[u8], i: u8) -> u16
    ensures { result ≡ kept_kind headers.now i }
{
    octets::be16(headers, SectionHeader::SIZE * i as usize)
}

// Walks over the sections up to the one that contains the next byte, once the file's header has arrived. The walk stops at a section that
// would end past the longest image, so no sum can wrap.
fn walk(header: &[u8], used: usize, taken: u64, length: u64) -> Span
    requires { used ≤ place_count }
    ensures { result ≡ span_from header.now used 0 header_size taken length }
{
    let mut begin = Header::SIZE as u64;
    let mut i: usize = 0;
    while i < used {
        if eif_judge::offset_at(header, i as u8) != begin {
            return none(i as u64, length);
        }
        let size = size_at(header, i as u8);
        let start = begin + SectionHeader::SIZE as u64;
        if octets::passes(eif::SIZE_LIMIT as u64, start, size) {
            return none(i as u64, length);
        }
        if taken < start {
            return none(i as u64, lesser(length, start - taken));
        }
        let end = start + size;
        if taken < end {
            return Span {
                place: i as u64,
                length: lesser(length, end - taken),
                begun: i as u64 + 1,
            };
        }
        begin = end;
        i += 1;
    }
    none(i as u64, length)
}

// How many of the next `length` bytes belong together, and to which section.
pub fn next(state: Arriving, length: u64) -> Span
    ensures { result ≡ span_of state length }
{
    let taken = state.taken;
    if taken < Header::SIZE as u64 {
        return none(0, lesser(length, Header::SIZE as u64 - taken));
    }
    let header = state.header;
    let used = octets::lesser(
        octets::be16(&header, Header::COUNT_AT) as usize,
        eif::PLACES,
    );
    walk(&header, used, taken, length)
}
