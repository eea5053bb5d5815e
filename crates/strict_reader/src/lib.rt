// The stricter reading of an image (FORMAT.md, Stricter reading): the ordinary reading, and then number 21 for a metadata section
// whose data is not one JSON text.
#![tactic(auto)]

ghost use Rattle.std.specs.Prelude.{◌≡◌, ◌≤◌};
ghost use Rattle.eif.specs.Reading.{section_in};
ghost use Rattle.eif.specs.Numbers.{place_count};
ghost use Rattle.strict_reader.specs.Strict.{not_json, metadata_verdict, read_strict, StrictlyRead};

use eif::{PLACES, Reading, Refusal, Section, SectionType, Verdict};

// Whether a section is metadata and its data is no JSON text.
fn not_json(image: &[u8], section: Section) -> bool
    ensures { result ≡ not_json image.now section }
{
    if section.kind != SectionType::METADATA {
        return false;
    }
    json_check::check(stream_reader::section_data(image, section)).is_err()
}

// Rule 21 at the sections in ascending index, up to the first that it refuses.
fn judge(image: &[u8], sections: [Section; PLACES], count: usize) -> Verdict
    requires { count ≤ place_count }
    ensures { result ≡ metadata_verdict image.now (section_in sections) count 0 }
{
    for i in 0..count {
        let section = sections[i];
        if not_json(image, section) {
            return Verdict::refuse_at(Refusal::METADATA_NOT_JSON, i as u64, section.position.0);
        }
    }
    Verdict::Accepted
}

// The stricter reading of an image.
pub fn read_strict(image: &[u8]) -> Reading
    ensures value { result ≡ read_strict image.now }
    ensures strictly_read { StrictlyRead image.now result }
{
    let reading = eif_reader::read(image);
    let verdict = reading.verdict;
    let Verdict::Accepted = verdict else {
        return reading;
    };
    let sections = reading.sections;
    let strict = judge(image, sections, reading.count as usize);
    let Verdict::Accepted = strict else {
        return eif_judge::refused(strict);
    };
    reading
}
