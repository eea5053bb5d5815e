// Writing the boot roll of an image: the header's flags, a record for each kernel, command line and ramdisk in file order, and the end record.
//
// The roll is measured before a byte of it is written, so that a buffer that is too short stays as it was. Of a staged view a section lies in the
// base or in the replacement; with nothing replaced the view is the image. The calls over a reading or a view take any, also one of no image: a
// record has the data that lies there, and its head the length of that data.
#![tactic(auto)]

ghost use Rattle.std.specs.Prelude.{◌≡◌, ◌+◌, ◌≤◌, min, length};
ghost use Rattle.octets.specs.Over.{over};
ghost use Rattle.eif.specs.Roll.{record_head_size, flags_record_size, head_of, flags_record, roll_answer, roll_output, roll_length};
ghost use Rattle.staged.specs.Staged.{staged_roll_answer, staged_roll_output, staged_roll_length};
ghost use Rattle.staged.specs.View.{held_by};
ghost use Rattle.roll_writer.specs.Write.{count_most, roll_part, roll_for, written_after, output_after, length_after, sections_roll, listed_roll_answer, listed_roll_output, listed_roll_length, view_roll_answer, view_roll_output, view_roll_length};

use eif::{
    FlagsRecord, PLACES, Reading, RecordHead, Refusal, Section, SectionType, Verdict, Written,
};
use staged::Staged;

// The largest length that is counted. No slice is as long.
const COUNT_MOST: u64 = 0xFFFFFFFFFFFFFFFF;

// ---- lengths

// A sum, or the largest length where it is over that: sections of no image may overlap, and their lengths add up to any number.
fn add_up(a: u64, b: u64) -> u64
    ensures { result ≡ min (a + b) count_most }
{
    if octets::passes(COUNT_MOST, a, b) {
        COUNT_MOST
    } else {
        a + b
    }
}

// How long the record of a section is: 0 where a roll leaves it out.
fn record_size(base: &[u8], replacement: &[u8], x: Section) -> u64
    ensures { result ≡ length (roll_part (held_by base.now replacement.now) x) }
{
    if SectionType::is_boot(x.kind) {
        return (RecordHead::SIZE + staged_view::held_length(base, replacement, x)) as u64;
    }
    0
}

// How long the roll of sections is, with the flags record, or the largest length where it is over that.
fn roll_size(base: &[u8], replacement: &[u8], sections: [Section; PLACES]) -> u64
    ensures { result ≡ min (flags_record_size + length (roll_for (held_by base.now replacement.now) sections)) count_most }
{
    let mut total = FlagsRecord::SIZE as u64;
    let mut i: usize = 0;
    while i < PLACES {
        total = add_up(total, record_size(base, replacement, sections[i]));
        i += 1;
    }
    add_up(total, RecordHead::SIZE as u64)
}

// ---- records

// The length and the type of a record.
fn put_head(out: &mut [u8], at: usize, size: u64, kind: u16)
    requires { at + record_head_size ≤ length out.old }
    ensures { out.new ≡ over out.old at (head_of size kind) }
{
    octets::put_le64(out, at + RecordHead::LENGTH_AT, size);
    octets::put_le16(out, at + RecordHead::TYPE_AT, kind);
}

// The flags record, over the output's start.
fn put_flags(out: &mut [u8], flags: u16)
    requires { record_head_size ≤ length out.old }
    ensures { out.new ≡ over out.old 0 (flags_record flags) }
{
    put_head(out, 0, FlagsRecord::LENGTH, FlagsRecord::TYPE);
    octets::put_le16(out, RecordHead::SIZE, flags);
}

// The record of a section, or nothing where a roll leaves it out. Where it ends is handed back.
fn put_record<'a>(
    out: &mut [u8],
    at: usize,
    base: &'a [u8],
    replacement: &'a [u8],
    x: Section,
) -> usize
    requires { at + length (roll_part (held_by base.now replacement.now) x) ≤ length out.old }
    ensures value { result ≡ at + length (roll_part (held_by base.now replacement.now) x) }
    ensures out_after { out.new ≡ over out.old at (roll_part (held_by base.now replacement.now) x) }
{
    if SectionType::is_boot(x.kind) {
        let own = staged_view::held(base, replacement, x);
        put_head(out, at, own.len() as u64, x.kind);
        octets::copy(out, at + RecordHead::SIZE, own);
        at + RecordHead::SIZE + own.len()
    } else {
        at
    }
}

// The roll of sections, over what follows the flags record.
fn put_roll<'a>(out: &mut [u8], base: &'a [u8], replacement: &'a [u8], sections: [Section; PLACES])
    requires { flags_record_size + length (roll_for (held_by base.now replacement.now) sections) ≤ length out.old }
    ensures { out.new ≡ over out.old flags_record_size (roll_for (held_by base.now replacement.now) sections) }
{
    let mut at: usize = FlagsRecord::SIZE;
    let mut i: usize = 0;
    while i < PLACES {
        at = put_record(out, at, base, replacement, sections[i]);
        i += 1;
    }
    put_head(out, at, 0, RecordHead::END_TYPE);
}

// ---- the roll of flags and sections, after a verdict

// The verdict where it refuses; or 14 where the roll is longer than `out`; or the roll's length.
fn write_sections<'a>(
    verdict: Verdict,
    base: &'a [u8],
    replacement: &'a [u8],
    flags: u16,
    sections: [Section; PLACES],
    out: &mut [u8],
) -> Written
    ensures value { result ≡ written_after verdict (sections_roll flags (held_by base.now replacement.now) sections) (length out.old) }
    ensures out_after { out.new ≡ output_after verdict (sections_roll flags (held_by base.now replacement.now) sections) out.old }
{
    let Verdict::Accepted = verdict else {
        return Written { verdict, length: 0 };
    };
    let size = roll_size(base, replacement, sections);
    if (out.len() as u64) < size {
        return Written {
            verdict: Verdict::refuse(Refusal::OUTPUT_TOO_SHORT, 0),
            length: 0,
        };
    }
    put_flags(out, flags);
    put_roll(out, base, replacement, sections);
    Written {
        verdict: Verdict::Accepted,
        length: size,
    }
}

// The verdict where it refuses; or how long the roll is, or the largest length where it is over that.
fn length_of(
    verdict: Verdict,
    base: &[u8],
    replacement: &[u8],
    flags: u16,
    sections: [Section; PLACES],
) -> Written
    ensures { result ≡ length_after verdict (sections_roll flags (held_by base.now replacement.now) sections) }
{
    let Verdict::Accepted = verdict else {
        return Written { verdict, length: 0 };
    };
    Written {
        verdict: Verdict::Accepted,
        length: roll_size(base, replacement, sections),
    }
}

// ---- the roll of an image

// From a reading that the caller has already: the reading's refusal, or 14 where the roll is longer than `out`, or the roll's length.
pub fn write_listed(image: &[u8], reading: Reading, out: &mut [u8]) -> Written
    ensures value { result ≡ listed_roll_answer image.now reading (length out.old) }
    ensures out_after { out.new ≡ listed_roll_output image.now reading out.old }
{
    let verdict = reading.verdict;
    let sections = reading.sections;
    write_sections(verdict, image, &image[..0], reading.flags, sections, out)
}

// How long that roll is, or the reading's refusal.
pub fn length_listed(image: &[u8], reading: Reading) -> Written
    ensures { result ≡ listed_roll_length image.now reading }
{
    let verdict = reading.verdict;
    let sections = reading.sections;
    length_of(verdict, image, &image[..0], reading.flags, sections)
}

// The answer is the image's refusal, or 14 where the roll is longer than `out`, or the roll's length.
pub fn write(image: &[u8], out: &mut [u8]) -> Written
    ensures value { result ≡ roll_answer image.now (length out.old) }
    ensures out_after { out.new ≡ roll_output image.now out.old }
{
    let reading = eif_reader::read(image);
    write_listed(image, reading, out)
}

// How long the roll of an image is, or the image's refusal.
pub fn length(image: &[u8]) -> Written
    ensures { result ≡ roll_length image.now }
{
    let reading = eif_reader::read(image);
    length_listed(image, reading)
}

// ---- the roll of the image written afresh with a replacement for one section, from where the data lies

// From a view that the caller has already: the view's refusal, or 14 where the roll is longer than `out`, or the roll's length.
pub fn write_view<'a>(
    base: &'a [u8],
    replacement: &'a [u8],
    view: Staged,
    out: &mut [u8],
) -> Written
    ensures value { result ≡ view_roll_answer base.now replacement.now view (length out.old) }
    ensures out_after { out.new ≡ view_roll_output base.now replacement.now view out.old }
{
    let verdict = view.verdict;
    let sections = view.sections;
    write_sections(verdict, base, replacement, view.flags, sections, out)
}

// How long that roll is, or the view's refusal.
pub fn length_view(base: &[u8], replacement: &[u8], view: Staged) -> Written
    ensures { result ≡ view_roll_length base.now replacement.now view }
{
    let verdict = view.verdict;
    let sections = view.sections;
    length_of(verdict, base, replacement, view.flags, sections)
}

// The answer is the staged view's refusal, or 14 where the roll is longer than `out`, or the roll's length.
pub fn write_staged<'a>(
    base: &'a [u8],
    replacement: &'a [u8],
    replaced: u64,
    out: &mut [u8],
) -> Written
    ensures value { result ≡ staged_roll_answer base.now replacement.now replaced (length out.old) }
    ensures out_after { out.new ≡ staged_roll_output base.now replacement.now replaced out.old }
{
    let view = staged_view::judge(base, replacement.len() as u64, replaced, replaced);
    write_view(base, replacement, view, out)
}

// How long that roll is, or the staged view's refusal.
pub fn length_staged(base: &[u8], replacement: &[u8], replaced: u64) -> Written
    ensures { result ≡ staged_roll_length base.now replacement.now replaced }
{
    let view = staged_view::judge(base, replacement.len() as u64, replaced, replaced);
    length_view(base, replacement, view)
}
