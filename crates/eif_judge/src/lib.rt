// Reading by the rules, of what a reader kept of a file: its header, twelve bytes of each section, and its size.
//
// `read` needs no file but the bytes that its checksum has not taken in yet. So a reader that has the whole file and one that sees it in
// pieces share every rule. The verdict comes first and the sections are listed only where it accepts: a reading is large, and is made once.
#![tactic(auto)]

ghost use Rattle.std.specs.Prelude.{ℕ, ◌+◌, ◌*◌, ◌<◌, ◌≤◌, ◌≡◌, List, ltb, drop};
ghost use Rattle.std.specs.Int.Bits.{bit_xor};
ghost use Rattle.std.specs.Int.Count.{ones, count_trailing_zeros};
ghost use Rattle.octets.specs.Bytes.{field};
ghost use Rattle.crc32.specs.Crc.{crc_from, ones32};
ghost use Rattle.eif.specs.Numbers.{place_count};
ghost use Rattle.eif.specs.Answers.{refuse};
ghost use Rattle.eif.specs.Rules.{first_fault};
ghost use Rattle.eif.specs.Table.{filled};
ghost use Rattle.eif.specs.Layout.{header_size, section_header_size, offsets_at, entry_at, offset_at, size_at, start, end};
ghost use Rattle.eif.specs.Reading.{header_fault, entry_fault, section_fault, position_in, located, early, section, blank_section, mark_of, blank_reading, reading_of, read_view};
ghost use Rattle.eif_judge.specs.Kept.{view_from};

use eif::{
    DataLength, FilePosition, Header, Reading, Refusal, Section, SectionHeader, SectionType,
    Verdict,
};

// ---- what the bytes say

// Where the table has a section's offset.
fn offset_entry(i: u8) -> usize
    ensures { result ≡ entry_at offsets_at i }
{
    Header::OFFSETS_AT + Header::ENTRY_SIZE * i as usize
}

// That offset, of a header or of a whole image.
pub fn offset_at(header: &[u8], i: u8) -> u64
    ensures { result ≡ offset_at header.now i }
{
    octets::be64(header, offset_entry(i))
}

fn size_at(header: &[u8], i: usize) -> u64
    requires { i < place_count }
    ensures { result ≡ size_at header.now i }
{
    octets::be64(header, Header::SIZES_AT + Header::ENTRY_SIZE * i)
}

// The first byte after a section that lies in the file.
fn end_at(header: &[u8], size: u64, i: usize) -> u64
    requires { (i < place_count) × (offset_at header.now i + section_header_size + size_at header.now i ≤ size) }
    ensures { result ≡ offset_at header.now i + section_header_size + size_at header.now i }
{
    offset_at(header, i as u8) + SectionHeader::SIZE as u64 + size_at(header, i)
}

fn kind_at(headers: &[u8], i: usize) -> u16
    requires { i < place_count }
    ensures { result ≡ field 2 (section_header_size * i) headers.now }
{
    octets::be16(headers, SectionHeader::SIZE * i)
}

// What a reading says of a section that lies in the file.
fn section_at(header: &[u8], headers: &[u8], size: u64, i: usize) -> Section
    requires i_lt_place_count { i < place_count }
    requires i_bound { end (view_from header.now headers.now size) i ≤ size }
    ensures { result ≡ section (view_from header.now headers.now size) i }
{
    let kind = kind_at(headers, i);
    let flags = octets::be16(headers, SectionHeader::SIZE * i + SectionHeader::FLAGS_AT);
    let position = offset_at(header, i as u8) + SectionHeader::SIZE as u64;
    let length = size_at(header, i);
    Section {
        kind,
        flags,
        position: FilePosition(position),
        length: DataLength(length),
    }
}

// A refusal, beside which everything is zero.
pub fn refused(verdict: Verdict) -> Reading
    ensures { result ≡ blank_reading verdict }
{
    Reading {
        verdict,
        version: 0,
        flags: 0,
        architecture: 0,
        default_mem: 0,
        default_cpus: 0,
        count: 0,
        sections: [Section::BLANK; eif::PLACES],
        ramdisk_mark: 0,
    }
}

// ---- where a refusal is

// The position of the field at fault, by the answer number: 1 to 12, or 20 at a section.
fn position(header: &[u8], number: u8, index: u64) -> u64
    requires { index < place_count }
    ensures { result ≡ position_in (λ w at. field w at header.now) number index }
{
    if number <= Refusal::WRONG_MAGIC {
        return 0;
    }
    if number == Refusal::WRONG_VERSION {
        return Header::VERSION_AT as u64;
    }
    if number == Refusal::WRONG_COUNT {
        return Header::COUNT_AT as u64;
    }
    if number == Refusal::SECTION_MISSING {
        return Header::COUNT_AT as u64;
    }
    if number <= Refusal::ENDS_LATE {
        return offset_entry(index as u8) as u64;
    }
    if number == Refusal::NOT_PACKED {
        return offset_entry(index as u8) as u64;
    }
    offset_at(header, index as u8)
}

// A refusal with its position.
fn refuse_in(header: &[u8], number: u8, index: u64) -> Verdict
    requires { index < place_count }
    ensures { result ≡ located (λ w at. field w at header.now) (refuse number index) }
{
    let at = position(header, number, index);
    Verdict::refuse_at(number, index, at)
}

// ---- the rules

// The rules 1 to 5; 0: none applies.
fn header_fault(header: &[u8], size: u64) -> u8
    ensures { (headers : List ℕ) → result ≡ header_fault (view_from header.now headers size) }
{
    if (eif::SIZE_LIMIT as u64) < size {
        return Refusal::IMAGE_TOO_LONG;
    }
    if size < Header::SIZE as u64 {
        return Refusal::IMAGE_TOO_SHORT;
    }
    if octets::be32(header, Header::MAGIC_AT) != Header::MAGIC {
        return Refusal::WRONG_MAGIC;
    }
    let version = octets::be16(header, Header::VERSION_AT);
    let count = octets::be16(header, Header::COUNT_AT);
    type_judge::field_fault(version, count)
}

// Rule 7. The end of the section is not computed, as that sum could wrap.
fn ends_late(size: u64, offset: u64, length: u64) -> bool
    requires { section_header_size ≤ size }
    ensures { result ≡ ltb size (offset + section_header_size + length) }
{
    octets::passes(size - SectionHeader::SIZE as u64, offset, length)
}

// The rules 6, 20 and 7 to 9 at a section that is to begin at `begin`; 0: none applies.
fn entry_fault(header: &[u8], headers: &[u8], size: u64, i: usize, begin: u64) -> u8
    requires i_lt_place_count { (i < place_count) × (header_size ≤ size) }
    requires begin_value { begin ≡ start (view_from header.now headers.now size) i }
    ensures { result ≡ entry_fault (view_from header.now headers.now size) i }
{
    let offset = offset_at(header, i as u8);
    let length = size_at(header, i);
    if offset < begin {
        return Refusal::STARTS_EARLY;
    }
    if offset != begin {
        return Refusal::NOT_PACKED;
    }
    if ends_late(size, offset, length) {
        return Refusal::ENDS_LATE;
    }
    if octets::be64(headers, SectionHeader::SIZE * i + SectionHeader::SIZE_AT) != length {
        return Refusal::SIZES_DIFFER;
    }
    let version = octets::be16(header, Header::VERSION_AT);
    if SectionType::allowed(kind_at(headers, i), version) {
        0
    } else {
        Refusal::TYPE_NOT_ALLOWED
    }
}

// The verdict on the sections; where it accepts, their types, and where the last of them ends.
#[derive(Clone, Copy)]
struct Walked {
    verdict: Verdict,
    kinds: [u16; eif::PLACES],
    end: u64,
}

// The rules 6, 20 and 7 to 11, in ascending index.
fn walk(header: &[u8], headers: &[u8], size: u64, count: usize) -> Walked
    requires { (header_size ≤ size) × (count ≤ place_count) }
    ensures verdict_value { result.verdict ≡ first_fault (section_fault (view_from header.now headers.now size)) count 0 }
    ensures kinds_value { result.verdict ≡ Verdict.Accepted →
        (result.kinds ≡ filled (view_from header.now headers.now size).kind 0 place_count count)
        × (result.end ≡ start (view_from header.now headers.now size) count) }
{
    let mut kinds = [0u16; eif::PLACES];
    let mut begin = Header::SIZE as u64;
    let mut i: usize = 0;
    let verdict = 'sections: loop {
        if count <= i {
            break 'sections Verdict::Accepted;
        }
        let fault = entry_fault(header, headers, size, i, begin);
        if fault != 0 {
            break 'sections Verdict::refuse(fault, i as u64);
        }
        let kind = kind_at(headers, i);
        let mut j = i;
        loop {
            if j == 0 {
                if kind == SectionType::RAMDISK {
                    break 'sections Verdict::refuse(Refusal::RAMDISK_BEFORE_KERNEL, i as u64);
                }
                break;
            }
            j -= 1;
            let earlier = kinds[j];
            if kind == SectionType::RAMDISK {
                if earlier == SectionType::KERNEL {
                    break;
                }
            } else if earlier == kind {
                break 'sections Verdict::refuse(Refusal::TYPE_REPEATED, i as u64);
            }
        }
        kinds[i] = kind;
        begin = end_at(header, size, i);
        i += 1;
    };
    Walked {
        verdict,
        kinds,
        end: begin,
    }
}

// The verdict by all rules but 13.
fn judge(header: &[u8], headers: &[u8], size: u64) -> Verdict
    ensures { result ≡ early (view_from header.now headers.now size) }
{
    let fault = header_fault(header, size);
    if fault != 0 {
        return refuse_in(header, fault, 0);
    }
    let version = octets::be16(header, Header::VERSION_AT);
    let count = octets::be16(header, Header::COUNT_AT);
    let used = count as usize;
    let walked = walk(header, headers, size, used);
    let verdict = walked.verdict;
    let kinds = walked.kinds;
    if let Verdict::Refused(r) = verdict {
        return refuse_in(header, r.number, r.index);
    }
    if type_judge::lacks(&kinds[..used], version) {
        return refuse_in(header, Refusal::SECTION_MISSING, 0);
    }
    if walked.end < size {
        return Verdict::refuse_at(Refusal::NOT_PACKED, 0, walked.end);
    }
    verdict
}

// ---- the reading

// The sections, of which each lies in the file.
fn list(header: &[u8], headers: &[u8], size: u64, count: usize) -> [Section; eif::PLACES]
    requires count_le_place_count { count ≤ place_count }
    requires by_index { (k : ℕ) → k < count → end (view_from header.now headers.now size) k ≤ size }
    ensures { result ≡ filled (section (view_from header.now headers.now size)) blank_section place_count count }
{
    let mut sections = [Section::BLANK; eif::PLACES];
    let mut i: usize = 0;
    while i < count {
        let section = section_at(header, headers, size, i);
        sections[i] = section;
        i += 1;
    }
    sections
}

// The ramdisks, one bit each, from the last used place to the first.
fn mark(sections: [Section; eif::PLACES], used: usize) -> u32
    requires { (used ≤ place_count) × (0 ≡ mark_of (drop used sections)) }
    ensures { result ≡ mark_of sections }
{
    let mut m: u32 = 0;
    let mut j: usize = used;
    while 0 < j {
        j -= 1;
        let kind = sections[j].kind;
        m = m * 2;
        if kind == SectionType::RAMDISK {
            m = m + 1;
        }
    }
    m
}

// The reading of an image that no rule refuses.
fn accepted(header: &[u8], headers: &[u8], size: u64) -> Reading
    requires { early (view_from header.now headers.now size) ≡ Verdict.Accepted }
    ensures { result ≡ reading_of (view_from header.now headers.now size) Verdict.Accepted }
{
    let count = octets::be16(header, Header::COUNT_AT);
    let used = count as usize;
    let sections = list(header, headers, size, used);
    let flags = octets::be16(header, Header::FLAGS_AT);
    Reading {
        verdict: Verdict::Accepted,
        version: octets::be16(header, Header::VERSION_AT),
        flags,
        architecture: flags % 2,
        default_mem: octets::be64(header, Header::DEFAULT_MEM_AT),
        default_cpus: octets::be64(header, Header::DEFAULT_CPUS_AT),
        count,
        sections,
        ramdisk_mark: mark(sections, used),
    }
}

// The reading by all rules. `header` is the file's header or the file itself, `headers` the twelve bytes of each section's own header one
// after the other; past their ends they count as no bytes. `state` is the checksum's state after the bytes that it has taken in, `rest` are
// those that it has not, and they are looked at only where no other rule refuses.
pub fn read(header: &[u8], headers: &[u8], size: u64, state: u32, rest: &[u8]) -> Reading
    ensures { result ≡ read_view (view_from header.now headers.now size) (bit_xor ones32 (crc_from state rest.now)) }
{
    let verdict = judge(header, headers, size);
    let Verdict::Accepted = verdict else {
        return refused(verdict);
    };
    let computed = crc32_fold::finish(crc32_fold::update(state, rest));
    if octets::be32(header, Header::CHECKSUM_AT) != computed {
        return refused(Verdict::refuse_at(
            Refusal::CHECKSUM_DIFFERS,
            0,
            Header::CHECKSUM_AT as u64,
        ));
    }
    accepted(header, headers, size)
}

// ---- the ramdisks of a reading

pub fn ramdisk_count(reading: Reading) -> u32
    ensures { result ≡ ones reading.ramdisk_mark }
{
    u32::count_ones(reading.ramdisk_mark)
}

// The index of the first one; 32 where there is none, as beside a refusal.
pub fn first_ramdisk(reading: Reading) -> u32
    ensures { result ≡ count_trailing_zeros place_count reading.ramdisk_mark }
{
    u32::trailing_zeros(reading.ramdisk_mark)
}
