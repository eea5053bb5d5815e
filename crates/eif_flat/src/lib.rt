// Answers as C sees them: flat structs with the answer number (0: accepted), its index and its position instead of a verdict; and a
// section of such an answer as a section again.
#![tactic(auto)]

ghost use Rattle.std.specs.Prelude.{◌≡◌, map};
ghost use Rattle.eif.specs.Answers.{number_of, index_of, position_of};
ghost use Rattle.eif_flat.specs.Flat.{flat, flat_written, flat_copied, flat_length, flat_section, flat_reading, flat_record, flat_roll_reading, read_section};

use eif::{
    Copied, DataLength, FilePosition, PLACES, Reading, RollPosition, RollReading, RollRecord,
    Section, StreamLength, Verdict, Written,
};

// Answers have no padding: what C would leave undefined between two fields is a field of its own, always 0. So two equal answers
// are equal byte for byte, and none carries bytes of an earlier call.

#[repr(C)]
#[derive(Clone, Copy)]
pub struct EifSection {
    pub kind: u16,
    pub flags: u16,
    pub reserved: u32,
    pub position: FilePosition,
    pub length: DataLength,
}

// `first_ramdisk` is computed from the mark, so it is 32, none, beside a refusal.
#[repr(C)]
#[derive(Clone, Copy)]
pub struct EifReading {
    pub number: u8,
    pub reserved: u8,
    pub version: u16,
    pub flags: u16,
    pub count: u16,
    pub index: u64,
    pub position: u64,
    pub default_mem: u64,
    pub default_cpus: u64,
    pub ramdisk_mark: u32,
    pub ramdisk_count: u32,
    pub first_ramdisk: u32,
    pub architecture: u16,
    pub reserved_after: u16,
    pub sections: [EifSection; PLACES],
}

// A writer's answer, a copier's, and that of a length: `length` is the length written, the number copied, the length.
#[repr(C)]
#[derive(Clone, Copy)]
pub struct EifAnswer {
    pub number: u8,
    pub reserved: [u8; 7],
    pub index: u64,
    pub position: u64,
    pub length: u64,
}

#[repr(C)]
#[derive(Clone, Copy)]
pub struct EifRollRecord {
    pub kind: u16,
    pub reserved: u16,
    pub reserved_after: u32,
    pub position: RollPosition,
    pub length: DataLength,
}

#[repr(C)]
#[derive(Clone, Copy)]
pub struct EifRollReading {
    pub number: u8,
    pub reserved: u8,
    pub flags: u16,
    pub reserved_after: u32,
    pub index: u64,
    pub position: u64,
    pub count: u64,
    pub records: [EifRollRecord; PLACES],
}

// ---- a verdict's number, index and position

pub fn number_of(verdict: Verdict) -> u8
    ensures { result ≡ number_of verdict }
{
    match verdict {
        Verdict::Accepted => 0,
        Verdict::Refused(r) => r.number,
    }
}

pub fn index_of(verdict: Verdict) -> u64
    ensures { result ≡ index_of verdict }
{
    match verdict {
        Verdict::Accepted => 0,
        Verdict::Refused(r) => r.index,
    }
}

pub fn position_of(verdict: Verdict) -> u64
    ensures { result ≡ position_of verdict }
{
    match verdict {
        Verdict::Accepted => 0,
        Verdict::Refused(r) => r.position,
    }
}

pub fn answer(verdict: Verdict, length: u64) -> EifAnswer
    ensures { result ≡ flat verdict length }
{
    EifAnswer {
        number: number_of(verdict),
        reserved: [0u8; 7],
        index: index_of(verdict),
        position: position_of(verdict),
        length,
    }
}

pub fn flat_written(done: Written) -> EifAnswer
    ensures { result ≡ flat_written done }
{
    let verdict = done.verdict;
    answer(verdict, done.length)
}

pub fn flat_copied(done: Copied) -> EifAnswer
    ensures { result ≡ flat_copied done }
{
    let verdict = done.verdict;
    answer(verdict, done.count)
}

pub fn flat_length(found: StreamLength) -> EifAnswer
    ensures { result ≡ flat_length found }
{
    let verdict = found.verdict;
    answer(verdict, found.length.0)
}

// ---- sections and records

fn flat_section(x: Section) -> EifSection
    ensures { result ≡ flat_section x }
{
    let position = x.position;
    let length = x.length;
    EifSection {
        kind: x.kind,
        flags: x.flags,
        reserved: 0,
        position,
        length,
    }
}

pub fn flat_sections(sections: [Section; PLACES]) -> [EifSection; PLACES]
    ensures { result ≡ map flat_section sections }
{
    let mut flat = [flat_section(Section::BLANK); PLACES];
    let mut i: usize = 0;
    while i < PLACES {
        flat[i] = flat_section(sections[i]);
        i += 1;
    }
    flat
}

fn flat_record(x: RollRecord) -> EifRollRecord
    ensures { result ≡ flat_record x }
{
    let position = x.position;
    let length = x.length;
    EifRollRecord {
        kind: x.kind,
        reserved: 0,
        reserved_after: 0,
        position,
        length,
    }
}

fn flat_records(records: [RollRecord; PLACES]) -> [EifRollRecord; PLACES]
    ensures { result ≡ map flat_record records }
{
    let mut flat = [flat_record(RollRecord::BLANK); PLACES];
    let mut i: usize = 0;
    while i < PLACES {
        flat[i] = flat_record(records[i]);
        i += 1;
    }
    flat
}

pub fn flat_reading(reading: Reading) -> EifReading
    ensures { result ≡ flat_reading reading }
{
    let verdict = reading.verdict;
    let sections = reading.sections;
    EifReading {
        number: number_of(verdict),
        reserved: 0,
        version: reading.version,
        flags: reading.flags,
        count: reading.count,
        index: index_of(verdict),
        position: position_of(verdict),
        default_mem: reading.default_mem,
        default_cpus: reading.default_cpus,
        ramdisk_mark: reading.ramdisk_mark,
        ramdisk_count: eif_judge::ramdisk_count(reading),
        first_ramdisk: eif_judge::first_ramdisk(reading),
        architecture: reading.architecture,
        reserved_after: 0,
        sections: flat_sections(sections),
    }
}

pub fn flat_roll_reading(reading: RollReading) -> EifRollReading
    ensures { result ≡ flat_roll_reading reading }
{
    let verdict = reading.verdict;
    let records = reading.records;
    EifRollReading {
        number: number_of(verdict),
        reserved: 0,
        flags: reading.flags,
        reserved_after: 0,
        index: index_of(verdict),
        position: position_of(verdict),
        count: reading.count,
        records: flat_records(records),
    }
}

// ---- sections as C hands them in

fn read_section(x: EifSection) -> Section
    ensures { result ≡ read_section x }
{
    let position = x.position;
    let length = x.length;
    Section {
        kind: x.kind,
        flags: x.flags,
        position,
        length,
    }
}

pub fn read_sections(sections: [EifSection; PLACES]) -> [Section; PLACES]
    ensures { result ≡ map read_section sections }
{
    let mut all = [Section::BLANK; PLACES];
    let mut i: usize = 0;
    while i < PLACES {
        all[i] = read_section(sections[i]);
        i += 1;
    }
    all
}
