// Images for the programs that run cases, damaged ones too: built in a lent buffer, field by field, and given the right
// checksum. Every function is total: what would lie past the buffer is left out.
#![tactic(auto)]

ghost use Rattle.std.specs.Prelude.{◌≡◌, ◌≤◌, min, length, take};
ghost use Rattle.eif.specs.Worked.{worked_plan};
ghost use Rattle.eif_checksum.specs.Put.{with_checksum};
ghost use Rattle.case_images.specs.Build.{with_header, with_entry, with_own_header, with_section, place_with};
ghost use Rattle.case_images.specs.Shapes.{most, start_of, packed_from, with_sections, without_flags, end_of, with_image};

use eif::{DataLength, Header, PLACES, Place, Plan, SectionHeader, SectionType};

// The header's magic number, version, flags and number of sections.
pub fn put_header(image: &mut [u8], version: u16, flags: u16, count: u16)
    ensures { image.new ≡ with_header image.old version flags count }
{
    octets::put_be32(image, Header::MAGIC_AT, Header::MAGIC);
    octets::put_be16(image, Header::VERSION_AT, version);
    octets::put_be16(image, Header::FLAGS_AT, flags);
    octets::put_be16(image, Header::COUNT_AT, count);
}

// The table's entries for section i.
pub fn put_entry(image: &mut [u8], i: u8, offset: u64, size: u64)
    ensures { image.new ≡ with_entry image.old i offset size }
{
    let place = Header::ENTRY_SIZE * (i as usize);
    octets::put_be64(image, Header::OFFSETS_AT + place, offset);
    octets::put_be64(image, Header::SIZES_AT + place, size);
}

// A section's own header.
pub fn put_own_header(image: &mut [u8], at: u32, kind: u16, flags: u16, size: u64)
    ensures { image.new ≡ with_own_header image.old at kind flags size }
{
    let from = at as usize;
    octets::put_be16(image, from + SectionHeader::TYPE_AT, kind);
    octets::put_be16(image, from + SectionHeader::FLAGS_AT, flags);
    octets::put_be64(image, from + SectionHeader::SIZE_AT, size);
}

// Section i at a position: its entries, its own header and its data.
pub fn put_section(image: &mut [u8], i: u8, at: u32, kind: u16, flags: u16, lent: &[u8])
    ensures { image.new ≡ with_section image.old i at kind flags lent.now }
{
    let size = lent.len() as u64;
    put_entry(image, i, at as u64, size);
    put_own_header(image, at, kind, flags, size);
    octets::copy(image, at as usize + SectionHeader::SIZE, lent);
}

// The right checksum of the whole buffer, in its place.
pub fn put_checksum(image: &mut [u8])
    ensures { image.new ≡ with_checksum image.old (length image.old) }
{
    let size = image.len();
    eif_checksum::put(image, size);
}

// A place of a plan.
pub fn place(kind: u16, flags: u16, length: u64) -> Place
    ensures { result ≡ place_with kind flags length }
{
    Place {
        kind,
        flags,
        length: DataLength(length),
    }
}

// The plan of the worked example of FORMAT.md.
pub fn worked_plan() -> Plan
    ensures { result ≡ worked_plan }
{
    let none = place(0, 0, 0);
    let mut places = [none; PLACES];
    places[0] = place(SectionType::KERNEL, 0, 1);
    places[1] = place(SectionType::COMMAND_LINE, 0, 1);
    places[2] = place(SectionType::RAMDISK, 0, 0);
    Plan {
        version: 2,
        flags: 0,
        default_mem: 0,
        default_cpus: 0,
        count: 3,
        places,
    }
}

// ---- whole images

// The size of the worked example.
pub const WORKED_SIZE: usize = Header::SIZE + 3 * SectionHeader::SIZE + 2;

// The most sections of a shape.
pub const MOST: usize = 6;

// An image of packed sections: its header's fields, and of each section its type, its flags and the length of its data.
#[derive(Clone, Copy)]
pub struct Shape {
    pub version: u16,
    pub flags: u16,
    pub count: u16,
    pub kinds: [u16; MOST],
    pub own_flags: [u16; MOST],
    pub lengths: [u16; MOST],
}

const KERNEL: u16 = SectionType::KERNEL;

const COMMAND_LINE: u16 = SectionType::COMMAND_LINE;

const RAMDISK: u16 = SectionType::RAMDISK;

// The shapes that two programs or more have.
impl Shape {
    // The worked example of FORMAT.md, of `WORKED_SIZE` bytes; its data is `Ka`.
    pub const WORKED: Shape = Shape {
        version: 2,
        flags: 0,
        count: 3,
        kinds: [KERNEL, COMMAND_LINE, RAMDISK, 0, 0, 0],
        own_flags: [0; MOST],
        lengths: [1, 1, 0, 0, 0, 0],
    };

    // A kernel, a command line and three ramdisks; its data is `kernelcmdfirstsecondthird`.
    pub const IN_ORDER: Shape = Shape {
        version: 2,
        flags: 0,
        count: 5,
        kinds: [KERNEL, COMMAND_LINE, RAMDISK, RAMDISK, RAMDISK, 0],
        own_flags: [0; MOST],
        lengths: [6, 3, 5, 6, 5, 0],
    };

    // Its data is `cmdkernelram`.
    pub const COMMAND_LINE_FIRST: Shape = Shape {
        version: 2,
        flags: 0,
        count: 3,
        kinds: [COMMAND_LINE, KERNEL, RAMDISK, 0, 0, 0],
        own_flags: [0; MOST],
        lengths: [3, 6, 3, 0, 0, 0],
    };

    // Between two ramdisks; its data is `kernelonecmdtwo`.
    pub const COMMAND_LINE_BETWEEN: Shape = Shape {
        version: 2,
        flags: 0,
        count: 4,
        kinds: [KERNEL, RAMDISK, COMMAND_LINE, RAMDISK, 0, 0],
        own_flags: [0; MOST],
        lengths: [6, 3, 3, 3, 0, 0],
    };

    // After two ramdisks; its data is `kernelonetwocmd`.
    pub const COMMAND_LINE_LAST: Shape = Shape {
        version: 2,
        flags: 0,
        count: 4,
        kinds: [KERNEL, RAMDISK, RAMDISK, COMMAND_LINE, 0, 0],
        own_flags: [0; MOST],
        lengths: [6, 3, 3, 3, 0, 0],
    };

    // A kernel and a command line of a byte each.
    pub const NO_RAMDISK: Shape = Shape {
        version: 2,
        flags: 0,
        count: 2,
        kinds: [KERNEL, COMMAND_LINE, 0, 0, 0, 0],
        own_flags: [0; MOST],
        lengths: [1, 1, 0, 0, 0, 0],
    };

    // What a staged view stands on, with flags; its data is `Kerna=1firstsecond`.
    pub const BASE: Shape = Shape {
        version: 2,
        flags: 1,
        count: 4,
        kinds: [KERNEL, COMMAND_LINE, RAMDISK, RAMDISK, 0, 0],
        own_flags: [0, 0, 0, 7, 0, 0],
        lengths: [4, 3, 5, 6, 0, 0],
    };
}

// A shape with no flags.
pub fn without_flags(version: u16, count: u16, kinds: [u16; MOST], lengths: [u16; MOST]) -> Shape
    ensures { result ≡ without_flags version count kinds lengths }
{
    Shape {
        version,
        flags: 0,
        count,
        kinds,
        own_flags: [0; MOST],
        lengths,
    }
}

fn wide(n: u16) -> usize
    ensures { (result ≡ n) × (result ≤ 65535) }
{
    n as usize
}

// The sections, with the data that is lent, joined; the answer is where the last one ends.
fn put_sections(
    image: &mut [u8],
    counted: u16,
    kinds: [u16; MOST],
    own_flags: [u16; MOST],
    lengths: [u16; MOST],
    lent: &[u8],
) -> usize
    ensures value { result ≡ packed_from (start_of lengths (length lent.now) (min counted most)) (min counted most) }
    ensures image_after { image.new ≡ with_sections image.old kinds own_flags lengths lent.now (min counted most) }
{
    let count = octets::lesser(counted as usize, MOST);
    let mut from: usize = 0;
    let mut i: usize = 0;
    while i < count {
        let size = octets::lesser(wide(lengths[i]), lent.len() - from);
        let at = Header::SIZE + SectionHeader::SIZE * i + from;
        put_section(
            image,
            i as u8,
            at as u32,
            kinds[i],
            own_flags[i],
            &lent[from..from + size],
        );
        from += size;
        i += 1;
    }
    Header::SIZE + SectionHeader::SIZE * count + from
}

// The image of a shape over the start of a buffer, with its checksum; the answer is its size, or the buffer's where that is shorter.
pub fn put_image(image: &mut [u8], shape: Shape, lent: &[u8]) -> usize
    ensures value { result ≡ min (end_of shape (length lent.now)) (length image.old) }
    ensures upper_bound { (result ≤ length image.new) × (result ≡ length (take result image.new)) }
    ensures image_after { image.new ≡ with_image image.old shape lent.now }
{
    put_header(image, shape.version, shape.flags, shape.count);
    let kinds = shape.kinds;
    let own_flags = shape.own_flags;
    let lengths = shape.lengths;
    let end = put_sections(image, shape.count, kinds, own_flags, lengths, lent);
    let size = octets::lesser(end, image.len());
    eif_checksum::put(image, size);
    size
}
