// The Enclave Image File: its vocabulary. The definitions that all contracts cite stand in specs/; docs/FORMAT.md has the same
// rules in words. The code here is a section type's own tests, and how a refusal is made.
#![tactic(auto)]

ghost use Rattle.std.specs.Prelude.{◌≡◌};
ghost use Rattle.eif.specs.Answers.{refuse, refuse_at};
ghost use Rattle.eif.specs.Rules.{boot_type, allowed_in};

// ---- limits

// The longest image, in bytes.
pub const SIZE_LIMIT: usize = 1073741824;

// The places of the section table, and with them the most sections; and the fewest sections.
pub const PLACES: usize = 32;

pub const FEWEST_SECTIONS: u16 = 2;

pub const OLDEST_VERSION: u16 = 2;

pub const NEWEST_VERSION: u16 = 4;

// The version that allows a signature, and the one that allows metadata and asks for it.
pub const SIGNATURE_VERSION: u16 = 3;

pub const METADATA_VERSION: u16 = 4;

// ---- layout

// The file's header: its size, its magic number and where its fields stand.
#[derive(Clone, Copy)]
pub struct Header;

impl Header {
    pub const SIZE: usize = 548;

    pub const MAGIC: u32 = 0x2e656966;

    pub const MAGIC_AT: usize = 0;

    pub const VERSION_AT: usize = 4;

    pub const FLAGS_AT: usize = 6;

    pub const DEFAULT_MEM_AT: usize = 8;

    pub const DEFAULT_CPUS_AT: usize = 16;

    pub const RESERVED_AT: usize = 24;

    pub const COUNT_AT: usize = 26;

    pub const OFFSETS_AT: usize = 28;

    pub const SIZES_AT: usize = 284;

    // An entry of a table, of offsets or of sizes.
    pub const ENTRY_SIZE: usize = 8;

    pub const RESERVED_AFTER_AT: usize = 540;

    pub const CHECKSUM_AT: usize = 544;

    // The end of the checksum field, and with it of the header.
    pub const CHECKSUM_END: usize = Header::CHECKSUM_AT + 4;
}

// A section's own header: its size and where its fields stand.
#[derive(Clone, Copy)]
pub struct SectionHeader;

impl SectionHeader {
    pub const SIZE: usize = 12;

    pub const TYPE_AT: usize = 0;

    pub const FLAGS_AT: usize = 2;

    pub const SIZE_AT: usize = 4;

    // The own headers of as many sections as the table has places.
    pub const ALL_SIZE: usize = SectionHeader::SIZE * PLACES;
}

// A record's head in a boot roll: its size, where its fields stand, and the type of the end record.
#[derive(Clone, Copy)]
pub struct RecordHead;

impl RecordHead {
    pub const SIZE: usize = 10;

    pub const LENGTH_AT: usize = 0;

    pub const TYPE_AT: usize = 8;

    pub const END_TYPE: u16 = 0;
}

// The flags record, a boot roll's first: its type, the length of its data, and its size.
#[derive(Clone, Copy)]
pub struct FlagsRecord;

impl FlagsRecord {
    pub const TYPE: u16 = 256;

    pub const LENGTH: u64 = 2;

    pub const SIZE: usize = RecordHead::SIZE + FlagsRecord::LENGTH as usize;
}

// ---- numbers that must not be mixed up

// A position in the file, in a stream and in a boot roll, and a length of data.
#[repr(C)]
#[derive(Clone, Copy)]
pub struct FilePosition(pub u64);

#[repr(C)]
#[derive(Clone, Copy)]
pub struct StreamPosition(pub u64);

#[repr(C)]
#[derive(Clone, Copy)]
pub struct RollPosition(pub u64);

#[repr(C)]
#[derive(Clone, Copy)]
pub struct DataLength(pub u64);

// ---- section types

#[derive(Clone, Copy)]
pub struct SectionType;

impl SectionType {
    pub const KERNEL: u16 = 1;

    pub const COMMAND_LINE: u16 = 2;

    pub const RAMDISK: u16 = 3;

    pub const SIGNATURE: u16 = 4;

    pub const METADATA: u16 = 5;

    // Whether a type is kernel, command line or ramdisk: those every version allows, a roll holds, and are measured.
    pub fn is_boot(number: u16) -> bool
        ensures { result ≡ boot_type number }
    {
        if number < SectionType::KERNEL {
            return false;
        }
        number <= SectionType::RAMDISK
    }

    // Whether an image of a version may hold a section of a type.
    pub fn allowed(number: u16, version: u16) -> bool
        ensures { result ≡ allowed_in version number }
    {
        if number == SectionType::SIGNATURE {
            return SIGNATURE_VERSION <= version;
        }
        if number == SectionType::METADATA {
            return METADATA_VERSION <= version;
        }
        SectionType::is_boot(number)
    }
}

// ---- answers

// Why something is refused: the answer number, the index of the section or record that it is about, else 0, and where in the
// file or the roll the field at fault stands, else 0 (FORMAT.md, Answer numbers and Positions).
#[derive(Clone, Copy)]
pub struct Refusal {
    pub number: u8,
    pub index: u64,
    pub position: u64,
}

// The answer numbers.
impl Refusal {
    pub const IMAGE_TOO_LONG: u8 = 1;

    pub const IMAGE_TOO_SHORT: u8 = 2;

    pub const WRONG_MAGIC: u8 = 3;

    pub const WRONG_VERSION: u8 = 4;

    pub const WRONG_COUNT: u8 = 5;

    pub const STARTS_EARLY: u8 = 6;

    pub const ENDS_LATE: u8 = 7;

    pub const SIZES_DIFFER: u8 = 8;

    pub const TYPE_NOT_ALLOWED: u8 = 9;

    pub const RAMDISK_BEFORE_KERNEL: u8 = 10;

    pub const TYPE_REPEATED: u8 = 11;

    pub const SECTION_MISSING: u8 = 12;

    pub const CHECKSUM_DIFFERS: u8 = 13;

    pub const OUTPUT_TOO_SHORT: u8 = 14;

    pub const DATA_LENGTH_DIFFERS: u8 = 15;

    pub const RECORD_CUT: u8 = 16;

    pub const RECORD_TYPE_WRONG: u8 = 17;

    pub const BYTES_AFTER_END: u8 = 18;

    pub const PAST_STREAM_END: u8 = 19;

    pub const NOT_PACKED: u8 = 20;

    pub const METADATA_NOT_JSON: u8 = 21;

    pub const PIECE_RECORD_WRONG: u8 = 22;

    pub const PIECE_OUT_OF_TURN: u8 = 23;

    pub const BUFFER_TOO_SHORT: u8 = 24;

    pub const PIECE_DIFFERS: u8 = 25;

    pub const PIECE_MISSING: u8 = 26;

    pub const NO_SUCH_SECTION: u8 = 27;

    pub const NOT_SIGN1: u8 = 28;

    pub const MESSAGE_TOO_LONG: u8 = 29;
}

#[derive(Clone, Copy)]
pub enum Verdict {
    Accepted,
    Refused(Refusal),
}

impl Verdict {
    // A refusal with no position.
    pub fn refuse(number: u8, index: u64) -> Verdict
        ensures { result ≡ refuse number index }
    {
        Verdict::refuse_at(number, index, 0)
    }

    // A refusal about what stands at a position.
    pub fn refuse_at(number: u8, index: u64, position: u64) -> Verdict
        ensures { result ≡ refuse_at number index position }
    {
        Verdict::Refused(Refusal {
            number,
            index,
            position,
        })
    }
}

// ---- reading an image

// What a reading says of a section. `kind` is its type.
#[repr(C)]
#[derive(Clone, Copy)]
pub struct Section {
    pub kind: u16,
    pub flags: u16,
    pub position: FilePosition,
    pub length: DataLength,
}

impl Section {
    // What stands in a place with no section.
    pub const BLANK: Section = Section {
        kind: 0,
        flags: 0,
        position: FilePosition(0),
        length: DataLength(0),
    };
}

// `architecture` is the lowest bit of the flags; `ramdisk_mark` is a term of FORMAT.md: its bit i is one exactly when section i
// is a ramdisk.
#[derive(Clone, Copy)]
pub struct Reading {
    pub verdict: Verdict,
    pub version: u16,
    pub flags: u16,
    pub architecture: u16,
    pub default_mem: u64,
    pub default_cpus: u64,
    pub count: u16,
    pub sections: [Section; PLACES],
    pub ramdisk_mark: u32,
}

// ---- writing an image

// A section to be written.
#[repr(C)]
#[derive(Clone, Copy)]
pub struct Place {
    pub kind: u16,
    pub flags: u16,
    pub length: DataLength,
}

// What an image is to hold, but for the data; places past the count are ignored.
#[repr(C)]
#[derive(Clone, Copy)]
pub struct Plan {
    pub version: u16,
    pub flags: u16,
    pub default_mem: u64,
    pub default_cpus: u64,
    pub count: u16,
    pub places: [Place; PLACES],
}

// What a writer of an image or of a roll answers: the length of what it wrote.
#[derive(Clone, Copy)]
pub struct Written {
    pub verdict: Verdict,
    pub length: u64,
}

// ---- the measured streams

// Terms of FORMAT.md, Measured streams.
#[derive(Clone, Copy)]
pub enum Stream {
    Whole,
    Boot,
    App,
}

// The sections of a stream, in its order: the first `count` places.
#[derive(Clone, Copy)]
pub struct StreamSections {
    pub count: u64,
    pub sections: [Section; PLACES],
}

// What copying from a stream answers: the number of bytes copied.
#[derive(Clone, Copy)]
pub struct Copied {
    pub verdict: Verdict,
    pub count: u64,
}

// How long a stream is.
#[derive(Clone, Copy)]
pub struct StreamLength {
    pub verdict: Verdict,
    pub length: DataLength,
}

// ---- reading a boot roll

// What a roll's reading says of a record. `kind` is its type; the position is that of its data.
#[repr(C)]
#[derive(Clone, Copy)]
pub struct RollRecord {
    pub kind: u16,
    pub position: RollPosition,
    pub length: DataLength,
}

impl RollRecord {
    // What stands in a place with no record.
    pub const BLANK: RollRecord = RollRecord {
        kind: 0,
        position: RollPosition(0),
        length: DataLength(0),
    };
}

// `flags` are those of the flags record, which the list leaves out.
#[derive(Clone, Copy)]
pub struct RollReading {
    pub verdict: Verdict,
    pub flags: u16,
    pub count: u64,
    pub records: [RollRecord; PLACES],
}
