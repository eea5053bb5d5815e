// The lines of the small programs, as bytes in a buffer: a line with an image's version and its number of sections, then a row for each
// section; or a line for a refusal.
#![tactic(auto)]

ghost use Rattle.std.specs.Prelude.{◌≡◌, [], ◌+◌, ◌≤◌, min, length, take, replicate};
ghost use Rattle.io.specs.Counts.{IsPrefixLen};
ghost use Rattle.octets.specs.Over.{over};
ghost use Rattle.eif.specs.Numbers.{place_count};
ghost use Rattle.eif_lines.specs.Lines.{number_then, table_offset, row_line, row_lines, head_line, refusal_then, refusal_line, accepted_lines, lines_of, most_digits, longest_line, room_size, in_buffer};

use eif::{PLACES, Reading, Refusal, Section, SectionHeader, Verdict};

// The most digits of a number of 64 bits.
const DIGITS: usize = 20;

// The longest line: a row of four such numbers, with a byte after each.
const LINE: usize = 4 * (DIGITS + 1);

// Room for the head line and a row for each place of the table.
pub const SIZE: usize = LINE * (1 + PLACES);

// The text is the first `length` bytes, and the others are zero.
#[derive(Clone, Copy)]
pub struct Text {
    pub bytes: [u8; SIZE],
    pub length: usize,
}

// A buffer with no text.
pub fn empty() -> [u8; SIZE]
    ensures { result ≡ replicate room_size 0 }
{
    [0u8; SIZE]
}

// ---- the parts, each written at a position; the answer is where it ends

// A number in decimal, and a text after it.
fn put_number(out: &mut [u8], at: usize, n: u64, text: &[u8]) -> usize
    requires { (at ≤ room_size) × (length text.now ≤ longest_line) }
    ensures value { result ≡ at + length (number_then n text.now) }
    ensures upper_bound { result ≤ at + most_digits + length text.now }
    ensures out_after { out.new ≡ over out.old at (number_then n text.now) }
{
    let mut digits = [0u8; DIGITS];
    let k = io::decimal(n, &mut digits);
    octets::copy(out, at, &digits[..k]);
    octets::copy(out, at + k, text);
    at + k + text.len()
}

// Where a section's own header stands, which is what the table says of it.
fn table_offset(section: Section) -> u64
    ensures { result ≡ table_offset section }
{
    octets::past(section.position.0, SectionHeader::SIZE as u64)
}

// A row for a section: its index, type, table offset and size.
fn put_row(out: &mut [u8], at: usize, index: u64, section: Section) -> usize
    requires { at + longest_line ≤ room_size }
    ensures value { result ≡ at + length (row_line index section) }
    ensures upper_bound { result ≤ at + longest_line }
    ensures out_after { out.new ≡ over out.old at (row_line index section) }
{
    let offset = table_offset(section);
    let kind_at = put_number(out, at, index, b" ");
    let offset_at = put_number(out, kind_at, section.kind as u64, b" ");
    let size_at = put_number(out, offset_at, offset, b" ");
    put_number(out, size_at, section.length.0, b"\n")
}

// A row for each section that is counted and has a place.
fn put_rows(out: &mut [u8], from: usize, counted: u16, sections: [Section; PLACES]) -> usize
    requires { from ≤ longest_line }
    ensures value { result ≡ from + length (row_lines 0 (take (min counted place_count) sections)) }
    ensures upper_bound { result ≤ room_size }
    ensures out_after { out.new ≡ over out.old from (row_lines 0 (take (min counted place_count) sections)) }
{
    let count = octets::lesser(counted as usize, PLACES);
    let mut at = from;
    let mut i: usize = 0;
    while i < count {
        at = put_row(out, at, i as u64, sections[i]);
        i += 1;
    }
    at
}

// The version and the number of sections.
fn put_head(out: &mut [u8], version: u16, count: u16) -> usize
    ensures value { result ≡ length (head_line version count) }
    ensures upper_bound { result ≤ longest_line }
    ensures out_after { out.new ≡ over out.old 0 (head_line version count) }
{
    octets::copy(out, 0, b"eif ");
    let count_at = put_number(out, 4, version as u64, b" ");
    put_number(out, count_at, count as u64, b"\n")
}

// A refusal's number, its index and its position, and a text after them.
fn put_refusal(out: &mut [u8], r: Refusal, text: &[u8]) -> usize
    requires { length text.now ≤ 1 }
    ensures value { result ≡ length (refusal_then r text.now) }
    ensures upper_bound { result ≤ longest_line }
    ensures out_after { out.new ≡ over out.old 0 (refusal_then r text.now) }
{
    octets::copy(out, 0, b"refused ");
    let index_at = put_number(out, 8, r.number as u64, b" at ");
    let position_at = put_number(out, index_at, r.index, b" byte ");
    put_number(out, position_at, r.position, text)
}

// ---- the whole

// The lines of a reading that is accepted, whatever its verdict.
fn accepted(reading: Reading) -> Text
    ensures value { result ≡ in_buffer (accepted_lines reading) }
    ensures prefix_len { IsPrefixLen result.length result.bytes }
{
    let mut bytes = empty();
    let rows_at = put_head(&mut bytes, reading.version, reading.count);
    let sections = reading.sections;
    let length = put_rows(&mut bytes, rows_at, reading.count, sections);
    Text { bytes, length }
}

// A refusal, and a text after it.
fn refused(r: Refusal, text: &[u8]) -> Text
    requires { length text.now ≤ 1 }
    ensures value { result ≡ in_buffer (refusal_then r text.now) }
    ensures prefix_len { IsPrefixLen result.length result.bytes }
{
    let mut bytes = empty();
    let length = put_refusal(&mut bytes, r, text);
    Text { bytes, length }
}

// The line of a refusal: its number, its index and its position.
pub fn refusal(r: Refusal) -> Text
    ensures value { result ≡ in_buffer (refusal_line r) }
    ensures prefix_len { IsPrefixLen result.length result.bytes }
{
    refused(r, b"\n")
}

// The same with no line feed.
pub fn refusal_text(r: Refusal) -> Text
    ensures value { result ≡ in_buffer (refusal_then r []) }
    ensures prefix_len { IsPrefixLen result.length result.bytes }
{
    refused(r, b"")
}

// The lines of a reading.
pub fn lines(reading: Reading) -> Text
    ensures value { result ≡ in_buffer (lines_of reading) }
    ensures prefix_len { IsPrefixLen result.length result.bytes }
{
    let verdict = reading.verdict;
    match verdict {
        Verdict::Accepted => accepted(reading),
        Verdict::Refused(r) => refusal(r),
    }
}
