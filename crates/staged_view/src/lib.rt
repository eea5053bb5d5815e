// One section of an image replaced, without a second image: what each section's data is, as a part of the base or of the
// replacement, and whether the image written afresh with the replacement would be one.
#![tactic(auto)]

ghost use Rattle.std.specs.Prelude.{◌≡◌, map, ◌≤◌, ltb, length, set};
ghost use Rattle.eif.specs.Numbers.{size_limit, place_count};
ghost use Rattle.eif.specs.Plan.{place_at, plain_size, place_of, plan_of};
ghost use Rattle.staged.specs.Staged.{with_length, with_place, staged_verdict, shown_part};
ghost use Rattle.staged.specs.Listed.{listed_verdict, listed_view, listed_shown, listed_start, listed_place};
ghost use Rattle.staged.specs.View.{moved, blank_staged, staged_view, held_by, held_start, shown_start, staged_place};

use eif::{DataLength, FilePosition, PLACES, Place, Plan, Reading, Refusal, Section, Verdict};
use staged::{Staged, StagedPart};

// ---- the image written afresh

// The places of a plan for sections.
fn places_of(sections: [Section; PLACES]) -> [Place; PLACES]
    ensures { result ≡ map place_of sections }
{
    let none = Place {
        kind: 0,
        flags: 0,
        length: DataLength(0),
    };
    let mut places = [none; PLACES];
    let mut i: usize = 0;
    while i < PLACES {
        let x = sections[i];
        let size = x.length;
        places[i] = Place {
            kind: x.kind,
            flags: x.flags,
            length: size,
        };
        i += 1;
    }
    places
}

// Places, one of which has another length; as they are where there is no such place.
fn with_length(places: [Place; PLACES], replaced: u64, size: u64) -> [Place; PLACES]
    ensures { result ≡ set places replaced (with_length (place_at places replaced) size) }
{
    let mut changed = places;
    if PLACES as u64 <= replaced {
        return changed;
    }
    let k = replaced as usize;
    let old = changed[k];
    changed[k] = Place {
        kind: old.kind,
        flags: old.flags,
        length: DataLength(size),
    };
    changed
}

// The plan of the image written afresh: that of a reading, with another length of one section.
pub fn plan_listed(reading: Reading, replaced: u64, size: u64) -> Plan
    ensures { result ≡ with_place (plan_of reading) replaced size }
{
    let sections = reading.sections;
    let places = with_length(places_of(sections), replaced, size);
    Plan {
        version: reading.version,
        flags: reading.flags,
        default_mem: reading.default_mem,
        default_cpus: reading.default_cpus,
        count: reading.count,
        places,
    }
}

// Whether the image of that plan is over the limit.
fn too_long(reading: Reading, replaced: u64, size: u64) -> bool
    requires { reading.count ≤ place_count }
    ensures { result ≡ ltb size_limit (plain_size (with_place (plan_of reading) replaced size)) }
{
    plan_judge::image_size(plan_listed(reading, replaced, size)) == 0
}

// ---- the view

// A section with its data at another position, and of another length.
fn moved_to(x: Section, at: u64, size: u64) -> Section
    ensures { result ≡ moved x at size }
{
    Section {
        kind: x.kind,
        flags: x.flags,
        position: FilePosition(at),
        length: DataLength(size),
    }
}

// A refusal, beside which everything is zero.
fn refused(verdict: Verdict) -> Staged
    ensures { result ≡ blank_staged verdict }
{
    Staged {
        verdict,
        flags: 0,
        sections: [Section::BLANK; PLACES],
    }
}

// The data of any section: of the base where it starts in it, and else of the replacement.
pub fn held<'a>(base: &'a [u8], replacement: &'a [u8], x: Section) -> &'a [u8]
    ensures result_value { result.now ≡ held_by base.now replacement.now x }
    ensures ref_ptr_value { result.ref_ptr ≡ held_start base.now replacement.now x base.entry.ref_ptr replacement.entry.ref_ptr }
{
    let at = x.position.0 as usize;
    if at < base.len() {
        return stream_reader::section_data(base, x);
    }
    let after = moved_to(x, (at - base.len()) as u64, x.length.0);
    stream_reader::section_data(replacement, after)
}

// How long that data is.
pub fn held_length(base: &[u8], replacement: &[u8], x: Section) -> usize
    ensures { result ≡ length (held_by base.now replacement.now x) }
{
    let at = x.position.0 as usize;
    if at < base.len() {
        let own = stream_reader::section_data(base, x);
        return own.len();
    }
    let after = moved_to(x, (at - base.len()) as u64, x.length.0);
    let given = stream_reader::section_data(replacement, after);
    given.len()
}

// ---- from a reading of the base that the caller has already

// The verdict on a replacement of so many bytes: the reading's refusal; 5 where it counts more sections than there are places; 27 for the number of
// the replaced section or of the one to be shown; 1 where the image written afresh would be over the limit.
pub fn verdict_listed(reading: Reading, size: u64, replaced: u64, shown: u64) -> Verdict
    ensures { result ≡ listed_verdict reading size replaced shown }
{
    let verdict = reading.verdict;
    let no_such = Verdict::refuse(Refusal::NO_SUCH_SECTION, 0);
    let Verdict::Accepted = verdict else {
        return verdict;
    };
    let count = reading.count as u64;
    if (PLACES as u64) < count {
        return Verdict::refuse(Refusal::WRONG_COUNT, 0);
    }
    if count <= replaced {
        return no_such;
    }
    if count <= shown {
        return no_such;
    }
    if too_long(reading, replaced, size) {
        return Verdict::refuse(Refusal::IMAGE_TOO_LONG, 0);
    }
    Verdict::Accepted
}

// That verdict, and the sections, of which the replaced one stands as if a replacement of so many bytes followed a base of `end` bytes.
pub fn judge_listed(reading: Reading, end: u64, size: u64, replaced: u64, shown: u64) -> Staged
    ensures { result ≡ listed_view reading end size replaced shown }
{
    let verdict = verdict_listed(reading, size, replaced, shown);
    let Verdict::Accepted = verdict else {
        return refused(verdict);
    };
    let k = replaced as usize;
    let mut sections = reading.sections;
    let old = sections[k];
    sections[k] = moved_to(old, end, size);
    Staged {
        verdict: Verdict::Accepted,
        flags: reading.flags,
        sections,
    }
}

// The data of a section, where it lies: the replacement, or a part of the base. Refused: the base's empty start.
pub fn section_listed<'a>(
    base: &'a [u8],
    replacement: &'a [u8],
    reading: Reading,
    replaced: u64,
    shown: u64,
) -> &'a [u8]
    ensures result_value { result.now ≡ listed_shown base.now replacement.now reading replaced shown }
    ensures ref_ptr_value { result.ref_ptr ≡ listed_start base.now (length replacement.now) reading replaced shown base.entry.ref_ptr replacement.entry.ref_ptr }
{
    let verdict = verdict_listed(reading, replacement.len() as u64, replaced, shown);
    let Verdict::Accepted = verdict else {
        return &base[..0];
    };
    if replaced == shown {
        return replacement;
    }
    let sections = reading.sections;
    let at = shown as usize;
    let x = sections[at];
    stream_reader::section_data(base, x)
}

// Where that data lies, for a base of `end` bytes and a replacement of so many: in the replacement, or at a position of the base.
pub fn place_listed(reading: Reading, end: u64, size: u64, replaced: u64, shown: u64) -> StagedPart
    ensures { result ≡ listed_place reading end size replaced shown }
{
    let verdict = verdict_listed(reading, size, replaced, shown);
    let Verdict::Accepted = verdict else {
        return StagedPart {
            verdict,
            in_replacement: 0,
            start: 0,
            length: DataLength(0),
        };
    };
    if shown == replaced {
        return StagedPart {
            verdict,
            in_replacement: 1,
            start: 0,
            length: DataLength(size),
        };
    }
    let sections = reading.sections;
    let at = shown as usize;
    let x = sections[at];
    let start = octets::lesser(x.position.0 as usize, end as usize);
    let rest = octets::past(end, x.position.0);
    let held = octets::lesser(x.length.0 as usize, rest as usize);
    StagedPart {
        verdict,
        in_replacement: 0,
        start: start as u64,
        length: DataLength(held as u64),
    }
}

// ---- the same, with the base read first

// The verdict on the base and a replacement of so many bytes, and the view.
pub fn judge(base: &[u8], size: u64, replaced: u64, shown: u64) -> Staged
    ensures { result ≡ staged_view base.now size replaced shown }
{
    let reading = eif_reader::read(base);
    judge_listed(reading, base.len() as u64, size, replaced, shown)
}

// The verdict on what `section` shows.
pub fn verdict(base: &[u8], replacement: &[u8], replaced: u64, shown: u64) -> Verdict
    ensures { result ≡ staged_verdict base.now (length replacement.now) replaced shown }
{
    let reading = eif_reader::read(base);
    verdict_listed(reading, replacement.len() as u64, replaced, shown)
}

// The data of a section, where it lies.
pub fn section<'a>(base: &'a [u8], replacement: &'a [u8], replaced: u64, shown: u64) -> &'a [u8]
    ensures result_value { result.now ≡ shown_part base.now replacement.now replaced shown }
    ensures ref_ptr_value { result.ref_ptr ≡ shown_start base.now (length replacement.now) replaced shown base.entry.ref_ptr replacement.entry.ref_ptr }
{
    let reading = eif_reader::read(base);
    section_listed(base, replacement, reading, replaced, shown)
}

// Where that data lies, for a replacement of so many bytes.
pub fn place(base: &[u8], size: u64, replaced: u64, shown: u64) -> StagedPart
    ensures { result ≡ staged_place base.now size replaced shown }
{
    let reading = eif_reader::read(base);
    place_listed(reading, base.len() as u64, size, replaced, shown)
}
