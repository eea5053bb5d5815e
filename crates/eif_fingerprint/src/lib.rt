// Computes the fingerprint of an image: SHA-384 of its boot roll (FORMAT.md, The boot roll).
//
// The roll is hashed record by record from where the sections lie in memory; no roll is built and nothing is copied. In a staged view a section
// lies in the base or in the replacement; an image is the view with nothing replaced.
#![tactic(auto)]

ghost use Rattle.std.specs.Prelude.{◌≡◌};
ghost use Rattle.eif.specs.Roll.{head_of, flags_record};
ghost use Rattle.sha384.specs.State.{more_hashed};
ghost use Rattle.staged.specs.View.{held_by};
ghost use Rattle.eif_fingerprint.specs.Fingerprint.{record_hashed, records_hashed, roll_digest, read_fingerprint, view_fingerprint, fingerprint_answer, staged_fingerprint};

use eif::{FlagsRecord, PLACES, Reading, RecordHead, Section, SectionType, Verdict};
use sha384::State;
use sha384_block::DIGEST_SIZE;
use staged::Staged;

// An image's verdict and its fingerprint; the fingerprint is zero for a refused image.
#[derive(Clone, Copy)]
pub struct Fingerprinted {
    pub verdict: Verdict,
    pub digest: [u8; DIGEST_SIZE],
}

// ---- records

// The hash state after the head of a record.
pub fn hash_head(roll: State, size: u64, kind: u16) -> State
    ensures { result ≡ more_hashed roll (head_of size kind) }
{
    let mut head = [0u8; RecordHead::SIZE];
    octets::put_le64(&mut head, RecordHead::LENGTH_AT, size);
    octets::put_le16(&mut head, RecordHead::TYPE_AT, kind);
    sha384::after(roll, &head)
}

// The hash state after the flags record.
pub fn hash_flags(roll: State, flags: u16) -> State
    ensures { result ≡ more_hashed roll (flags_record flags) }
{
    let mut first = [0u8; FlagsRecord::SIZE];
    octets::put_le64(&mut first, RecordHead::LENGTH_AT, FlagsRecord::LENGTH);
    octets::put_le16(&mut first, RecordHead::TYPE_AT, FlagsRecord::TYPE);
    octets::put_le16(&mut first, RecordHead::SIZE, flags);
    sha384::after(roll, &first)
}

// The hash state after the record of a section; the state as it was if a roll leaves its type out.
fn hash_record<'a>(roll: State, base: &'a [u8], replacement: &'a [u8], x: Section) -> State
    ensures { result ≡ record_hashed (held_by base.now replacement.now) roll x }
{
    if SectionType::is_boot(x.kind) {
        let own = staged_view::held(base, replacement, x);
        let head = hash_head(roll, own.len() as u64, x.kind);
        return sha384::after(head, own);
    }
    roll
}

// The hash state after the records of all sections.
fn hash_records<'a>(
    roll: State,
    base: &'a [u8],
    replacement: &'a [u8],
    sections: [Section; PLACES],
) -> State
    ensures { result ≡ records_hashed (held_by base.now replacement.now) roll sections }
{
    let mut st = roll;
    let mut i: usize = 0;
    while i < PLACES {
        let section = sections[i];
        let next = hash_record(st, base, replacement, section);
        st = next;
        i += 1;
    }
    st
}

// ---- the fingerprint

// SHA-384 of the roll of flags and sections.
fn roll_digest<'a>(
    base: &'a [u8],
    replacement: &'a [u8],
    flags: u16,
    sections: [Section; PLACES],
) -> [u8; DIGEST_SIZE]
    ensures { result ≡ roll_digest flags (held_by base.now replacement.now) sections }
{
    let first = hash_flags(sha384::new(), flags);
    let all = hash_records(first, base, replacement, sections);
    let whole = hash_head(all, 0, RecordHead::END_TYPE);
    sha384::finish(whole)
}

// The fingerprint of an image that was read already; zero for a refused reading.
pub fn step(image: &[u8], reading: Reading) -> [u8; DIGEST_SIZE]
    ensures { result ≡ read_fingerprint image.now reading }
{
    let verdict = reading.verdict;
    let Verdict::Accepted = verdict else {
        return [0u8; DIGEST_SIZE];
    };
    let sections = reading.sections;
    roll_digest(image, &image[..0], reading.flags, sections)
}

// The fingerprint of an image; or its refusal, and zero.
pub fn fingerprint(image: &[u8]) -> Fingerprinted
    ensures { result ≡ fingerprint_answer image.now }
{
    let reading = eif_reader::read(image);
    let verdict = reading.verdict;
    let digest = step(image, reading);
    Fingerprinted { verdict, digest }
}

// The same from a staged view that the caller has already; zero for a refused view.
pub fn step_view<'a>(base: &'a [u8], replacement: &'a [u8], view: Staged) -> [u8; DIGEST_SIZE]
    ensures { result ≡ view_fingerprint base.now replacement.now view }
{
    let verdict = view.verdict;
    let Verdict::Accepted = verdict else {
        return [0u8; DIGEST_SIZE];
    };
    let sections = view.sections;
    roll_digest(base, replacement, view.flags, sections)
}

// The fingerprint of the image written afresh with a replacement for one section, from where the data lies; or the refusal, and zero.
pub fn fingerprint_staged<'a>(base: &'a [u8], replacement: &'a [u8], replaced: u64) -> Fingerprinted
    ensures { result ≡ staged_fingerprint base.now replacement.now replaced }
{
    let view = staged_view::judge(base, replacement.len() as u64, replaced, replaced);
    let verdict = view.verdict;
    let digest = step_view(base, replacement, view);
    Fingerprinted { verdict, digest }
}
