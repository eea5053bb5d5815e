// Writes the plain image of a plan in pieces (FORMAT.md, Writing in pieces).
//
// A state goes in by value and comes back: `begin`, then `step` until the image is complete, then `finish` for its checksum. A step writes
// bytes of the header, one section's own header, or data of the section begun last. Every public function is total: each contract holds
// for any state, and the laws of a state from `begin` are in writing_laws.
#![tactic(auto)]

ghost use Rattle.std.specs.Prelude.{◌≡◌, ◌-◌, ◌<◌, ◌≤◌, length};
ghost use Rattle.octets.specs.Over.{over};
ghost use Rattle.crc32.specs.Crc.{crc_from};
ghost use Rattle.eif.specs.Numbers.{place_count, size_limit};
ghost use Rattle.eif.specs.Layout.{header_size};
ghost use Rattle.eif.specs.Plan.{plain_size};
ghost use Rattle.writing.specs.Writing.{empty_writing, start_writing, writing_begun, sections_in, own_headers, data_step, data_bytes, header_step, header_part, section_step, next_header, begins_section, writing_stepped, step_bytes, writing_summed};

use eif::{DataLength, Header, PLACES, Place, Plan, Refusal, SectionHeader, Verdict, Written};

// What is still to be written of an image, and the checksum's remainder over the header and what was written after it. In this order C leaves
// no room between the fields.
#[repr(C)]
#[derive(Clone, Copy)]
pub struct Writing {
    pub header_written: u64,
    pub sections_begun: u64,
    pub section_left: u64,
    pub data_left: u64,
    pub count: u64,
    pub places: [Place; PLACES],
    pub header: [u8; Header::SIZE],
    pub checksum: u32,
}

// The answer to `begin`: the state, and the image's length or the plan's refusal.
#[derive(Clone, Copy)]
pub struct Begun {
    pub state: Writing,
    pub written: Written,
}

// The answer to a step: the state after it, how many bytes of data it took, and how many bytes it wrote.
#[repr(C)]
#[derive(Clone, Copy)]
pub struct Stepped {
    pub state: Writing,
    pub taken: u64,
    pub written: u64,
}

// The answer to `finish`: the checksum, which is 0 beside a refusal.
#[derive(Clone, Copy)]
pub struct Summed {
    pub verdict: Verdict,
    pub checksum: u32,
}

// ---- begin

// The state of a refused plan, which writes nothing.
pub fn empty() -> Writing
    ensures { result ≡ empty_writing }
{
    let none = Place {
        kind: 0,
        flags: 0,
        length: DataLength(0),
    };
    Writing {
        header_written: Header::SIZE as u64,
        sections_begun: 0,
        section_left: 0,
        data_left: 0,
        count: 0,
        places: [none; PLACES],
        header: [0u8; Header::SIZE],
        checksum: 0,
    }
}

// The state before the first byte of the image of an accepted plan.
fn start(plan: Plan, checksum: u32) -> Writing
    requires { (plan.count ≤ place_count) × (plain_size plan ≤ size_limit) }
    ensures { result ≡ start_writing plan checksum }
{
    let header = eif_writer::header(plan, checksum);
    let places = plan.places;
    Writing {
        header_written: 0,
        sections_begun: 0,
        section_left: 0,
        data_left: plan_judge::data_size(plan),
        count: plan.count as u64,
        places,
        header,
        checksum: crc32_fold::update(crc32_fold::START, eif_checksum::front(&header)),
    }
}

// Begins the image of a plan; `checksum` is the number for its checksum field.
pub fn begin(plan: Plan, checksum: u32) -> Begun
    ensures { result ≡ writing_begun plan checksum }
{
    let written = plan_judge::length(plan);
    let verdict = written.verdict;
    let Verdict::Accepted = verdict else {
        return Begun {
            state: empty(),
            written,
        };
    };
    Begun {
        state: start(plan, checksum),
        written,
    }
}

// ---- a step

// Writes data of the section begun last, as much as it needs, is lent and has room.
fn write_data(state: Writing, lent: &[u8], out: &mut [u8]) -> Stepped
    ensures value { result ≡ data_step state lent.now (length out.old) }
    ensures out_after { out.new ≡ over out.old 0 (data_bytes state lent.now (length out.old)) }
{
    let count = octets::lesser(
        state.section_left as usize,
        octets::lesser(lent.len(), out.len()),
    );
    let bytes = &lent[..count];
    octets::copy(out, 0, bytes);
    let taken = count as u64;
    let places = state.places;
    let header = state.header;
    let after = Writing {
        header_written: state.header_written,
        sections_begun: state.sections_begun,
        section_left: state.section_left - taken,
        data_left: octets::past(state.data_left, taken),
        count: state.count,
        places,
        header,
        checksum: crc32_fold::update(state.checksum, bytes),
    };
    Stepped {
        state: after,
        taken,
        written: taken,
    }
}

// Writes bytes of the file's header, as many as there is room for.
fn write_header(state: Writing, out: &mut [u8]) -> Stepped
    requires { state.header_written < header_size }
    ensures value { result ≡ header_step state (length out.old) }
    ensures out_after { out.new ≡ over out.old 0 (header_part state (length out.old)) }
{
    let from = state.header_written as usize;
    let count = octets::lesser(Header::SIZE - from, out.len());
    let places = state.places;
    let header = state.header;
    octets::copy(out, 0, &header[from..from + count]);
    let written = count as u64;
    let after = Writing {
        header_written: state.header_written + written,
        sections_begun: state.sections_begun,
        section_left: state.section_left,
        data_left: state.data_left,
        count: state.count,
        places,
        header,
        checksum: state.checksum,
    };
    Stepped {
        state: after,
        taken: 0,
        written,
    }
}

// Writes the own header of the next section.
fn begin_section(state: Writing, out: &mut [u8]) -> Stepped
    requires { state.sections_begun < place_count }
    ensures value { result ≡ section_step state }
    ensures out_after { out.new ≡ over out.old 0 (next_header state) }
{
    let places = state.places;
    let header = state.header;
    let place = places[state.sections_begun as usize];
    let own = eif_writer::section_header(place);
    octets::copy(out, 0, &own);
    let after = Writing {
        header_written: state.header_written,
        sections_begun: state.sections_begun + 1,
        section_left: place.length.0,
        data_left: state.data_left,
        count: state.count,
        places,
        header,
        checksum: crc32_fold::update(state.checksum, &own),
    };
    Stepped {
        state: after,
        taken: 0,
        written: SectionHeader::SIZE as u64,
    }
}

// How many sections the state has.
fn sections(state: Writing) -> usize
    ensures { result ≡ sections_in state }
{
    octets::lesser(state.count as usize, PLACES)
}

// Whether a step with this room begins a section.
fn begins(state: Writing, room: usize) -> bool
    ensures { result ≡ begins_section state room }
{
    if (state.sections_begun as usize) < sections(state) {
        return SectionHeader::SIZE <= room;
    }
    false
}

// Writes the image's next bytes over the start of the output; later bytes stay. Takes data only for the section begun last.
pub fn step(state: Writing, lent: &[u8], out: &mut [u8]) -> Stepped
    ensures value { result ≡ writing_stepped state lent.now (length out.old) }
    ensures out_after { out.new ≡ over out.old 0 (step_bytes state lent.now (length out.old)) }
{
    if state.section_left != 0 {
        return write_data(state, lent, out);
    }
    if state.header_written < Header::SIZE as u64 {
        return write_header(state, out);
    }
    if begins(state, out.len()) {
        return begin_section(state, out);
    }
    Stepped {
        state,
        taken: 0,
        written: 0,
    }
}

// ---- finish

// The checksum's remainder after the own headers of the sections from one place up to another.
fn remainder_after(checksum: u32, places: [Place; PLACES], from: usize, end: usize) -> u32
    requires { end ≤ place_count }
    ensures { result ≡ crc_from checksum (own_headers places (end - from) from) }
{
    let mut remainder = checksum;
    let mut i = from;
    while i < end {
        let own = eif_writer::section_header(places[i]);
        remainder = crc32_fold::update(remainder, &own);
        i += 1;
    }
    remainder
}

// 15 where data is missing, otherwise the checksum of the plain image.
pub fn finish(state: Writing) -> Summed
    ensures { result ≡ writing_summed state }
{
    let missing = Summed {
        verdict: Verdict::refuse(Refusal::DATA_LENGTH_DIFFERS, 0),
        checksum: 0,
    };
    if state.count == 0 {
        return missing;
    }
    if state.data_left != 0 {
        return missing;
    }
    let places = state.places;
    let remainder = remainder_after(
        state.checksum,
        places,
        state.sections_begun as usize,
        sections(state),
    );
    Summed {
        verdict: Verdict::Accepted,
        checksum: crc32_fold::finish(remainder),
    }
}
