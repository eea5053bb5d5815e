// Writing the plain image of a plan: header, sections with the lent data in plan order, and the checksum.
//
// The plan is judged first, and a refusal leaves every byte of the output as it was.
#![tactic(auto)]

ghost use Rattle.std.specs.Prelude.{◌≡◌, ◌≤◌, length};
ghost use Rattle.octets.specs.Bytes.{be_bytes_each};
ghost use Rattle.octets.specs.Over.{over};
ghost use Rattle.eif.specs.Numbers.{place_count, size_limit};
ghost use Rattle.eif.specs.Table.{join_from};
ghost use Rattle.eif.specs.Layout.{header_size, default_mem_at, entry_size};
ghost use Rattle.eif.specs.Plan.{packed_at, data_before, plain_size, header_bytes, section_header, section_bytes, write_answer, write_output, planned_size, table_of};
ghost use Rattle.eif_writer.specs.Parts.{first_fields, next_fields, header_with};

use eif::{Header, PLACES, Place, Plan, Refusal, SectionHeader, Verdict, Written};

// ---- the header

// The table of offsets: sections are packed from the end of the header.
fn offsets(places: [Place; PLACES], count: usize) -> [u64; PLACES]
    requires { (count ≤ place_count) × (packed_at places count ≤ size_limit) }
    ensures { result ≡ table_of (packed_at places) count }
{
    let mut table = [0u64; PLACES];
    let mut at = Header::SIZE as u64;
    let mut i: usize = 0;
    while i < count {
        table[i] = at;
        at = at + SectionHeader::SIZE as u64 + places[i].length.0;
        i += 1;
    }
    table
}

// The table of sizes.
fn sizes(places: [Place; PLACES], count: usize) -> [u64; PLACES]
    requires { count ≤ place_count }
    ensures { result ≡ table_of (planned_size places) count }
{
    let mut table = [0u64; PLACES];
    let mut i: usize = 0;
    while i < count {
        table[i] = places[i].length.0;
        i += 1;
    }
    table
}

// A table, its entries one after the other.
fn put_table(out: &mut [u8], at: usize, table: [u64; PLACES])
    requires { at ≤ header_size }
    ensures { out.new ≡ over out.old at (be_bytes_each entry_size table) }
{
    let mut i: usize = 0;
    while i < PLACES {
        octets::put_be64(out, at + Header::ENTRY_SIZE * i, table[i]);
        i += 1;
    }
}

// The header's first fields: magic number, version and flags.
fn put_first(out: &mut [u8], plan: Plan)
    ensures { out.new ≡ over out.old 0 (first_fields plan) }
{
    octets::put_be32(out, Header::MAGIC_AT, Header::MAGIC);
    octets::put_be16(out, Header::VERSION_AT, plan.version);
    octets::put_be16(out, Header::FLAGS_AT, plan.flags);
}

// The fields between those and the tables: default_mem, default_cpus, reserved and num_sections.
fn put_next(out: &mut [u8], plan: Plan)
    ensures { out.new ≡ over out.old default_mem_at (next_fields plan) }
{
    octets::put_be64(out, Header::DEFAULT_MEM_AT, plan.default_mem);
    octets::put_be64(out, Header::DEFAULT_CPUS_AT, plan.default_cpus);
    octets::put_be16(out, Header::RESERVED_AT, 0);
    octets::put_be16(out, Header::COUNT_AT, plan.count);
}

// The header up to the checksum, which needs the sections first.
fn put_header(out: &mut [u8], plan: Plan)
    requires { (plan.count ≤ place_count) × (plain_size plan ≤ size_limit) }
    ensures { out.new ≡ over out.old 0 (header_bytes plan) }
{
    let places = plan.places;
    let count = plan.count as usize;
    let at = offsets(places, count);
    let long = sizes(places, count);
    put_first(out, plan);
    put_next(out, plan);
    put_table(out, Header::OFFSETS_AT, at);
    put_table(out, Header::SIZES_AT, long);
    octets::put_be32(out, Header::RESERVED_AFTER_AT, 0);
}

// The header of a plan's image, with a number in the checksum field; zeros where the plan has no image of a size within the limit.
pub fn header(plan: Plan, checksum: u32) -> [u8; Header::SIZE]
    ensures { result ≡ header_with plan checksum }
{
    let mut bytes = [0u8; Header::SIZE];
    if plan_judge::image_size(plan) == 0 {
        return bytes;
    }
    put_header(&mut bytes, plan);
    octets::put_be32(&mut bytes, Header::CHECKSUM_AT, checksum);
    bytes
}

// ---- the sections

// A section's own header.
pub fn section_header(place: Place) -> [u8; SectionHeader::SIZE]
    ensures { result ≡ section_header place }
{
    let mut own = [0u8; SectionHeader::SIZE];
    octets::put_be16(&mut own, SectionHeader::TYPE_AT, place.kind);
    octets::put_be16(&mut own, SectionHeader::FLAGS_AT, place.flags);
    octets::put_be64(&mut own, SectionHeader::SIZE_AT, place.length.0);
    own
}

// The sections, in plan order, each with its part of the data.
fn put_sections(out: &mut [u8], places: [Place; PLACES], count: usize, lent: &[u8])
    requires count_le_place_count { (count ≤ place_count) × (packed_at places count ≤ size_limit) }
    requires lent_len { length lent.now ≡ data_before places count }
    ensures { out.new ≡ over out.old header_size (join_from (section_bytes places lent.now) count 0) }
{
    let mut at = Header::SIZE;
    let mut from: usize = 0;
    let mut i: usize = 0;
    while i < count {
        let place = places[i];
        let size = place.length.0 as usize;
        let next = from + size;
        let own = section_header(place);
        octets::copy(out, at, &own);
        octets::copy(out, at + SectionHeader::SIZE, &lent[from..next]);
        at = at + SectionHeader::SIZE + size;
        from = next;
        i += 1;
    }
}

// ---- the image

// Writes over the start of the output and answers the image's length; later bytes stay. `lent` is the sections' data, joined
// in plan order.
pub fn write(plan: Plan, lent: &[u8], out: &mut [u8]) -> Written
    ensures value { result ≡ write_answer plan (length lent.now) (length out.old) }
    ensures out_after { out.new ≡ write_output plan lent.now out.old }
{
    let verdict = plan_judge::judge(plan, lent.len() as u64);
    let Verdict::Accepted = verdict else {
        return Written { verdict, length: 0 };
    };
    let total = plan_judge::image_size(plan);
    if (out.len() as u64) < total {
        return Written {
            verdict: Verdict::refuse(Refusal::OUTPUT_TOO_SHORT, 0),
            length: 0,
        };
    }
    let places = plan.places;
    put_header(out, plan);
    put_sections(out, places, plan.count as usize, lent);
    eif_checksum::put(out, total as usize);
    Written {
        verdict,
        length: total,
    }
}
