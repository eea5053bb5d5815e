// Judging a plan of an image by the rules 4, 5, 9 to 12, 1 and 15 (FORMAT.md, Writing an image), before a byte is written.
#![tactic(auto)]

ghost use Rattle.std.specs.Prelude.{◌≡◌, ◌<◌, ◌≤◌, length};
ghost use Rattle.eif.specs.Numbers.{place_count};
ghost use Rattle.eif.specs.Rules.{type_fault, types_verdict};
ghost use Rattle.eif.specs.Plan.{packed_at, size_fault, plan_verdict, plan_length};
ghost use Rattle.type_judge.specs.Kinds.{listed_kind};
ghost use Rattle.plan_judge.specs.Types.{kinds_of};
ghost use Rattle.plan_judge.specs.Size.{limited, image_size, data_size};

use eif::{Header, PLACES, Place, Plan, Refusal, SectionHeader, SectionType, Verdict, Written};

// ---- the section types

// The types of all places, used or not.
fn kinds_of(places: [Place; PLACES]) -> [u16; PLACES]
    ensures { result ≡ kinds_of places }
{
    let mut kinds = [0u16; PLACES];
    let mut i: usize = 0;
    while i < PLACES {
        kinds[i] = places[i].kind;
        i += 1;
    }
    kinds
}

// The rules 9, 10 and 11 at a section, of which all types are given.
fn type_fault(kinds: &[u16], i: usize, version: u16) -> u8
    requires { i < length kinds.now }
    ensures { result ≡ type_fault version (listed_kind kinds.now) i }
{
    let kind = kinds[i];
    if SectionType::allowed(kind, version) {
        return type_judge::order_fault(&kinds[..i], kind);
    }
    Refusal::TYPE_NOT_ALLOWED
}

// The rules 9, 10 and 11 at each section, up to the first that fails; then 12.
fn judge_types(kinds: &[u16], version: u16) -> Verdict
    ensures { result ≡ types_verdict version (listed_kind kinds.now) (length kinds.now) }
{
    let mut i: usize = 0;
    while i < kinds.len() {
        let fault = type_fault(kinds, i, version);
        if fault != 0 {
            return Verdict::refuse(fault, i as u64);
        }
        i += 1;
    }
    if type_judge::lacks(kinds, version) {
        return Verdict::refuse(Refusal::SECTION_MISSING, 0);
    }
    Verdict::Accepted
}

// ---- sizes

// How long the image of the first places is, or 0 where it is over the limit. What is left up to the limit is counted down,
// so that no sum wraps.
fn packed_size(places: [Place; PLACES], count: usize) -> u64
    requires { count ≤ place_count }
    ensures { result ≡ limited (packed_at places count) }
{
    let limit = eif::SIZE_LIMIT as u64;
    let head = SectionHeader::SIZE as u64;
    let mut left = limit - Header::SIZE as u64;
    let mut i: usize = 0;
    while i < count {
        let size = places[i].length.0;
        if octets::passes(left, head, size) {
            return 0;
        }
        left = left - head - size;
        i += 1;
    }
    limit - left
}

// How long the image of a plan is, or 0 where the plan has no image of a size within the limit.
pub fn image_size(plan: Plan) -> u64
    ensures { result ≡ image_size plan }
{
    let count = plan.count as usize;
    if PLACES < count {
        return 0;
    }
    let places = plan.places;
    packed_size(places, count)
}

// How much data the image of a plan has, or 0 where the plan has no image of a size within the limit. An image is its header,
// a header for each section, and the data.
pub fn data_size(plan: Plan) -> u64
    ensures { result ≡ data_size plan }
{
    let size = image_size(plan);
    if size == 0 {
        return 0;
    }
    size - Header::SIZE as u64 - SectionHeader::SIZE as u64 * plan.count as u64
}

// The rules 1 and 15.
fn size_fault(plan: Plan, given: u64) -> u8
    requires { plan.count ≤ place_count }
    ensures { result ≡ size_fault plan given }
{
    if image_size(plan) == 0 {
        return Refusal::IMAGE_TOO_LONG;
    }
    if given != data_size(plan) {
        return Refusal::DATA_LENGTH_DIFFERS;
    }
    0
}

// ---- the verdict

// By all rules on a plan but 14, for so many bytes of data.
pub fn judge(plan: Plan, given: u64) -> Verdict
    ensures { result ≡ plan_verdict plan given }
{
    let fields = type_judge::field_fault(plan.version, plan.count);
    if fields != 0 {
        return Verdict::refuse(fields, 0);
    }
    let places = plan.places;
    let kinds = kinds_of(places);
    let count = plan.count as usize;
    let types = judge_types(&kinds[..count], plan.version);
    let Verdict::Accepted = types else {
        return types;
    };
    let sizes = size_fault(plan, given);
    if sizes != 0 {
        return Verdict::refuse(sizes, 0);
    }
    Verdict::Accepted
}

// How long the image of a plan is, or the writer's refusal of the plan.
pub fn length(plan: Plan) -> Written
    ensures { result ≡ plan_length plan }
{
    let verdict = judge(plan, data_size(plan));
    let Verdict::Accepted = verdict else {
        return Written { verdict, length: 0 };
    };
    Written {
        verdict,
        length: image_size(plan),
    }
}
