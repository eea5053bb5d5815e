// Reading a boot roll: its flags record, then the records of the rest in order, up to the end record or the first that a rule
// refuses, then the rules on the whole. Every byte string, of any length, has an answer.
//
// `rest` is what follows the flags record. Places and starts of records count from there; indexes and positions in an answer count
// from the roll's start.
#![tactic(auto)]

ghost use Rattle.std.specs.Prelude.{◌≡◌, ◌+◌, ◌^◌, ◌<◌, ◌≤◌, length};
ghost use Rattle.eif.specs.Numbers.{place_count};
ghost use Rattle.eif.specs.Table.{filled};
ghost use Rattle.eif.specs.Roll.{record_at, record_kind, record_head_size, flags_record_size, flags_fault, roll_fault, refused_roll, read_rest, read_roll};
ghost use Rattle.roll_reader.specs.Walk.{record_fault, stopped_at, walk_of};

use eif::{
    DataLength, FlagsRecord, Header, PLACES, RecordHead, Refusal, RollPosition, RollReading,
    RollRecord, SectionHeader, SectionType, Verdict,
};

// ---- the flags record

// Its rules 16, 17 and 16; 0: none applies.
fn flags_fault(roll: &[u8]) -> u8
    ensures { result ≡ flags_fault roll.now }
{
    if roll.len() < RecordHead::SIZE {
        Refusal::RECORD_CUT
    } else if octets::le16(roll, RecordHead::TYPE_AT) != FlagsRecord::TYPE {
        Refusal::RECORD_TYPE_WRONG
    } else if octets::le64(roll, RecordHead::LENGTH_AT) != FlagsRecord::LENGTH {
        Refusal::RECORD_TYPE_WRONG
    } else if roll.len() < FlagsRecord::SIZE {
        Refusal::RECORD_CUT
    } else {
        0
    }
}

// ---- one record

// The rules on record i, whose head is whole, in their order: 17 and, unless it is the end record, 5, 16, 10 and 11; 0: none
// applies. `kinds` has the types of the records before it.
fn record_fault(rest: &[u8], kinds: &[u16], i: usize, at: usize) -> u8
    requires i_le_place_count { i ≤ place_count }
    requires at_value { at ≡ record_at rest.now i }
    requires record_head_size_in_bounds { at + record_head_size ≤ length rest.now }
    requires kinds_value { kinds.now ≡ filled (record_kind rest.now) 0 place_count i }
    ensures { result ≡ record_fault rest.now i }
{
    let left = (rest.len() - at - RecordHead::SIZE) as u64;
    let length = octets::le64(rest, at);
    let kind = octets::le16(rest, at + RecordHead::TYPE_AT);
    if SectionType::RAMDISK < kind {
        return Refusal::RECORD_TYPE_WRONG;
    }
    if kind == RecordHead::END_TYPE {
        return if length == 0 {
            0
        } else {
            Refusal::RECORD_TYPE_WRONG
        };
    }
    if i == PLACES {
        return Refusal::WRONG_COUNT;
    }
    if left < length {
        return Refusal::RECORD_CUT;
    }
    type_judge::order_fault(&kinds[..i], kind)
}

// ---- all records

// The records up to the end record: their number, where the end record starts, their types, and what the answer lists.
// Beside a refusal all but the verdict is zero.
#[derive(Clone, Copy)]
struct Walked {
    verdict: Verdict,
    count: usize,
    end: usize,
    kinds: [u16; PLACES],
    records: [RollRecord; PLACES],
}

// A refusal at record i of the rest, which starts at `at` of the rest; 5 is about no one record.
fn stopped(number: u8, i: usize, at: usize) -> Walked
    requires i_le_place_count { i ≤ place_count }
    requires at_bound { flags_record_size + at < 2 ^ 64 }
    ensures { result ≡ stopped_at number i at }
{
    let index = if number == Refusal::WRONG_COUNT {
        0
    } else {
        (i + 1) as u64
    };
    Walked {
        verdict: Verdict::refuse_at(number, index, (FlagsRecord::SIZE + at) as u64),
        count: 0,
        end: 0,
        kinds: [0; PLACES],
        records: [RollRecord::BLANK; PLACES],
    }
}

// Ends at the end record, at the first record that a rule refuses, or where no whole head is left.
fn walk(rest: &[u8]) -> Walked
    requires { flags_record_size + length rest.now < 2 ^ 64 }
    ensures { result ≡ walk_of rest.now }
{
    let mut records = [RollRecord::BLANK; PLACES];
    let mut kinds = [0u16; PLACES];
    let mut at: usize = 0;
    let mut i: usize = 0;
    loop {
        if rest.len() - at < RecordHead::SIZE {
            return stopped(Refusal::RECORD_CUT, i, at);
        }
        let fault = record_fault(rest, &kinds, i, at);
        if fault != 0 {
            return stopped(fault, i, at);
        }
        let kind = octets::le16(rest, at + RecordHead::TYPE_AT);
        if kind == RecordHead::END_TYPE {
            return Walked {
                verdict: Verdict::Accepted,
                count: i,
                end: at,
                kinds,
                records,
            };
        }
        let length = octets::le64(rest, at);
        kinds[i] = kind;
        records[i] = RollRecord {
            kind,
            position: RollPosition((FlagsRecord::SIZE + at + RecordHead::SIZE) as u64),
            length: DataLength(length),
        };
        at = at + RecordHead::SIZE + length as usize;
        i += 1;
    }
}

// ---- the whole roll

// The rules 18, 12 and 1 on a roll whose end record is record n and starts at `end`; 0: none applies.
// Before each data an image has a section header where the roll has a record's head, so the image's size needs no sum.
fn roll_fault(rest: &[u8], kinds: &[u16], n: usize, end: usize) -> u8
    requires n_le_place_count { n ≤ place_count }
    requires end_value { end ≡ record_at rest.now n }
    requires record_head_size_in_bounds { end + record_head_size ≤ length rest.now }
    requires kinds_value { kinds.now ≡ filled (record_kind rest.now) 0 place_count n }
    ensures { result ≡ roll_fault rest.now n }
{
    if end + RecordHead::SIZE < rest.len() {
        return Refusal::BYTES_AFTER_END;
    }
    if type_judge::lacks_boot(&kinds[..n]) {
        return Refusal::SECTION_MISSING;
    }
    let size = Header::SIZE + (SectionHeader::SIZE - RecordHead::SIZE) * n + end;
    if eif::SIZE_LIMIT < size {
        return Refusal::IMAGE_TOO_LONG;
    }
    0
}

// A refusal, beside which everything is zero.
fn refused(verdict: Verdict) -> RollReading
    ensures { result ≡ refused_roll verdict }
{
    RollReading {
        verdict,
        flags: 0,
        count: 0,
        records: [RollRecord::BLANK; PLACES],
    }
}

// The rest of a roll with these flags.
fn read_rest(rest: &[u8], flags: u16) -> RollReading
    requires { flags_record_size + length rest.now < 2 ^ 64 }
    ensures { result ≡ read_rest flags rest.now }
{
    let walked = walk(rest);
    let verdict = walked.verdict;
    let Verdict::Accepted = verdict else {
        return refused(verdict);
    };
    let kinds = walked.kinds;
    let fault = roll_fault(rest, &kinds, walked.count, walked.end);
    if fault == Refusal::BYTES_AFTER_END {
        let past = FlagsRecord::SIZE + walked.end + RecordHead::SIZE;
        return refused(Verdict::refuse_at(fault, 0, past as u64));
    }
    if fault != 0 {
        return refused(Verdict::refuse(fault, 0));
    }
    let records = walked.records;
    RollReading {
        verdict,
        flags,
        count: walked.count as u64,
        records,
    }
}

// The flags and the list of records that a roll holds, or the first refusal in the order of FORMAT.md, The boot roll.
pub fn read(roll: &[u8]) -> RollReading
    ensures { result ≡ read_roll roll.now }
{
    let fault = flags_fault(roll);
    if fault != 0 {
        return refused(Verdict::refuse(fault, 0));
    }
    let flags = octets::le16(roll, RecordHead::SIZE);
    read_rest(&roll[FlagsRecord::SIZE..], flags)
}
