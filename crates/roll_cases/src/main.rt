// Runs the cases of the boot roll, one line each: the roll's reader over the worked roll and its neighbours, and the roll's writer
// over small images. Section types are FORMAT.md's numbers, and R3 is the roll that it prints, byte for byte.
#![tactic(auto)]

use case_images::{Shape, WORKED_SIZE};
use case_lines::{hex, labelled, say, tell, text};
use eif::{FlagsRecord, Header, PLACES, RecordHead, RollReading, RollRecord, SectionType};
use std::io;

// ---- lines

fn is_blank(r: RollRecord) -> bool {
    if r.kind != 0 {
        return false;
    }
    if r.position.0 != 0 {
        return false;
    }
    r.length.0 == 0
}

// A record's type, data position and length; nothing where all are zero.
fn listed(rt: &impl Print, r: RollRecord) -> io::Result<()> {
    if is_blank(r) {
        return Ok(());
    }
    labelled(rt, b" (", r.kind as u64)?;
    labelled(rt, b" ", r.position.0)?;
    labelled(rt, b" ", r.length.0)?;
    text(rt, b")")
}

// ---- reading a roll

// Every place of the list that is not all zero.
fn list(rt: &impl Print, records: [RollRecord; PLACES]) -> io::Result<()> {
    let mut i: usize = 0;
    while i < PLACES {
        listed(rt, records[i])?;
        i += 1;
    }
    Ok(())
}

// The verdict, the flags and the count.
fn head_line(rt: &impl Print, label: &[u8], reading: RollReading) -> io::Result<()> {
    let verdict = reading.verdict;
    text(rt, label)?;
    text(rt, b": ")?;
    say(rt, verdict)?;
    labelled(rt, b", flags ", reading.flags as u64)?;
    labelled(rt, b", ", reading.count)?;
    text(rt, b" records")
}

// These and the list, or its last place alone.
fn shown(rt: &impl Print, label: &[u8], roll: &[u8], last: bool) -> io::Result<()> {
    let reading = roll_reader::read(roll);
    let records = reading.records;
    head_line(rt, label, reading)?;
    if last {
        text(rt, b", last")?;
        listed(rt, records[PLACES - 1])?;
    } else {
        list(rt, records)?;
    }
    text(rt, b"\n")
}

// ---- rolls of a few records

// The records of a roll below, without its end record.
const RECORDS: usize = 5;

// Room for the longest of them.
const ROOM: usize = 72;

// A record's head, and data after it.
fn put_record(roll: &mut [u8], at: u16, kind: u16, length: u64, lent: &[u8]) {
    let from = at as usize;
    octets::put_le64(roll, from + RecordHead::LENGTH_AT, length);
    octets::put_le16(roll, from + RecordHead::TYPE_AT, kind);
    octets::copy(roll, from + RecordHead::SIZE, lent);
}

// Records one after the other: their types, the lengths in their heads, and their data, joined, of which each has as much as there is.
fn put_records(roll: &mut [u8], kinds: [u16; RECORDS], lengths: [u64; RECORDS], lent: &[u8]) {
    let mut at: usize = 0;
    let mut from: usize = 0;
    let mut i: usize = 0;
    while i < RECORDS {
        let least = octets::lesser(lengths[i] as usize, ROOM);
        let size = octets::lesser(least, lent.len() - from);
        put_record(
            roll,
            at as u16,
            kinds[i],
            lengths[i],
            &lent[from..from + size],
        );
        at += RecordHead::SIZE + size;
        from += size;
        i += 1;
    }
}

// The first bytes of a roll of such records.
fn read(
    rt: &impl Print,
    label: &[u8],
    kinds: [u16; RECORDS],
    lengths: [u64; RECORDS],
    lent: &[u8],
    size: usize,
) -> io::Result<()> {
    let mut roll = [0u8; ROOM];
    put_records(&mut roll, kinds, lengths, lent);
    if size <= ROOM {
        shown(rt, label, &roll[0..size], false)?;
    }
    Ok(())
}

// The lengths in the roll that FORMAT.md, The boot roll, prints: a flags record, kernel, command line and an empty ramdisk; 54 bytes.
const LENGTHS: [u64; RECORDS] = [FlagsRecord::LENGTH, 1, 1, 0, 0];

// The first bytes of a roll with three types after the flags record, and other data.
fn three(
    rt: &impl Print,
    label: &[u8],
    first: u16,
    second: u16,
    third: u16,
    lent: &[u8],
    size: usize,
) -> io::Result<()> {
    let kinds = [
        FlagsRecord::TYPE,
        first,
        second,
        third,
        RecordHead::END_TYPE,
    ];
    read(rt, label, kinds, LENGTHS, lent, size)
}

fn worked(rt: &impl Print, label: &[u8], size: usize) -> io::Result<()> {
    three(rt, label, 1, 2, 3, b"\0\0Ka", size)
}

fn types(rt: &impl Print, label: &[u8], first: u16, second: u16, third: u16) -> io::Result<()> {
    three(rt, label, first, second, third, b"\0\0Ka", 54)
}

// The same types with other lengths.
fn lengths(
    rt: &impl Print,
    label: &[u8],
    told: [u64; RECORDS],
    lent: &[u8],
    size: usize,
) -> io::Result<()> {
    read(rt, label, [FlagsRecord::TYPE, 1, 2, 3, 0], told, lent, size)
}

// R1 to R6.
fn rows(rt: &impl Print) -> io::Result<()> {
    worked(rt, b"R1 no bytes", 12)?;
    read(
        rt,
        b"R2 ten zero bytes",
        [FlagsRecord::TYPE, 0, 0, 0, 0],
        [FlagsRecord::LENGTH, 0, 0, 0, 0],
        b"\0\0",
        22,
    )?;
    shown(
        rt,
        b"R3 the worked roll",
        b"\x02\0\0\0\0\0\0\0\0\x01\0\0\x01\0\0\0\0\0\0\0\x01\0K\x01\0\0\0\0\0\0\0\x02\0a\0\0\0\0\0\0\0\0\x03\0\0\0\0\0\0\0\0\0\0\0",
        false,
    )?;
    worked(rt, b"R4 without its last byte", 53)?;
    worked(rt, b"R5 with a byte 00 added", 55)?;
    three(
        rt,
        b"R6 kernel and command line exchanged",
        2,
        1,
        3,
        b"\0\0aK",
        54,
    )
}

// R7 to R11.
fn later_rows(rt: &impl Print) -> io::Result<()> {
    read(
        rt,
        b"R7 ramdisk first",
        [FlagsRecord::TYPE, 3, 1, 2, 0],
        [FlagsRecord::LENGTH, 0, 1, 1, 0],
        b"\0\0Ka",
        54,
    )?;
    read(
        rt,
        b"R8 kernel twice",
        [FlagsRecord::TYPE, 1, 1, 2, 3],
        [FlagsRecord::LENGTH, 1, 1, 1, 0],
        b"\0\0KKa",
        65,
    )?;
    types(rt, b"R9 first type 4", 4, 2, 3)?;
    types(rt, b"R10 type 0 with length 1", 0, 2, 3)?;
    lengths(
        rt,
        b"R11 length of eight ff",
        [FlagsRecord::LENGTH, 18446744073709551615, 0, 0, 0],
        b"\0\0",
        22,
    )
}

// At an inner record and the last.
fn inner(rt: &impl Print) -> io::Result<()> {
    worked(rt, b"without its end record", 44)?;
    lengths(
        rt,
        b"second record's data past the end",
        [FlagsRecord::LENGTH, 1, 65537, 0, 0],
        b"\0\0Ka",
        54,
    )?;
    types(rt, b"second type 4", 1, 4, 3)?;
    lengths(
        rt,
        b"end record with length 1",
        [FlagsRecord::LENGTH, 1, 1, 0, 1],
        b"\0\0Ka",
        54,
    )?;
    three(
        rt,
        b"ramdisk second, before the kernel",
        2,
        3,
        1,
        b"\0\0ar",
        54,
    )?;
    types(rt, b"command line twice", 1, 2, 2)?;
    read(
        rt,
        b"a byte after the end record, and no kernel",
        [FlagsRecord::TYPE, 0, 0, 0, 0],
        [FlagsRecord::LENGTH, 0, 0, 0, 0],
        b"\0\0",
        23,
    )
}

// Neighbours of the flags record.
fn flags(rt: &impl Print) -> io::Result<()> {
    worked(rt, b"no bytes", 0)?;
    read(
        rt,
        b"ten zero bytes, no flags record",
        [0; RECORDS],
        [0; RECORDS],
        b"",
        10,
    )?;
    read(
        rt,
        b"no flags record",
        [1, 2, 3, 0, 0],
        [1, 1, 0, 0, 0],
        b"Ka",
        42,
    )?;
    worked(rt, b"nine bytes of a flags record", 9)?;
    worked(rt, b"its data cut", 11)?;
    worked(rt, b"a lone flags record", 12)?;
    read(
        rt,
        b"a second flags record",
        [FlagsRecord::TYPE, FlagsRecord::TYPE, 1, 2, 3],
        [FlagsRecord::LENGTH, FlagsRecord::LENGTH, 1, 1, 0],
        b"\0\0\0\0Ka",
        66,
    )?;
    three(rt, b"every flag", 1, 2, 3, b"\xff\xffKa", 54)?;
    lengths(
        rt,
        b"a flags record of length 3",
        [3, 1, 1, 0, 0],
        b"\0\0\0Ka",
        55,
    )
}

// Data one byte past the end is refused before the order of types.
fn before_order(rt: &impl Print) -> io::Result<()> {
    three(rt, b"ramdisk first, data whole", 3, 0, 0, b"\0\0r", 23)?;
    three(
        rt,
        b"ramdisk first, data one byte past the end",
        3,
        0,
        0,
        b"\0\0r",
        22,
    )?;
    three(rt, b"second kernel, data whole", 1, 1, 0, b"\0\0KK", 34)?;
    three(
        rt,
        b"second kernel, data one byte past the end",
        1,
        1,
        0,
        b"\0\0KK",
        33,
    )
}

// ---- as many records as an image has places, and one more

// Where the last of them ends, all empty and behind a flags record; with an end record after it; and with one record more.
const RECORDS_END: usize = FlagsRecord::SIZE + RecordHead::SIZE * PLACES;

const ENDED: usize = RECORDS_END + RecordHead::SIZE;

const ONE_MORE: usize = ENDED + RecordHead::SIZE;

fn kind_at(i: usize) -> u16 {
    if i == 0 {
        SectionType::KERNEL
    } else if i == 1 {
        SectionType::COMMAND_LINE
    } else {
        SectionType::RAMDISK
    }
}

// Their heads.
fn put_heads(roll: &mut [u8]) {
    let mut i: usize = 0;
    while i < PLACES {
        let at = FlagsRecord::SIZE + RecordHead::SIZE * i;
        octets::put_le16(roll, at + RecordHead::TYPE_AT, kind_at(i));
        i += 1;
    }
}

// These, a head after them, and of all that the first bytes.
fn many(rt: &impl Print, label: &[u8], kind: u16, length: u64, size: usize) -> io::Result<()> {
    let mut roll = [0u8; ONE_MORE];
    put_record(&mut roll, 0, FlagsRecord::TYPE, FlagsRecord::LENGTH, b"");
    put_heads(&mut roll);
    put_record(&mut roll, RECORDS_END as u16, kind, length, b"");
    if size <= ONE_MORE {
        shown(rt, label, &roll[0..size], true)?;
    }
    Ok(())
}

fn many_records(rt: &impl Print) -> io::Result<()> {
    many(rt, b"32 records", 0, 0, ENDED)?;
    many(rt, b"a 33rd record", 3, 0, ONE_MORE)?;
    many(
        rt,
        b"a 33rd record with its data past the end",
        3,
        18446744073709551615,
        ONE_MORE,
    )?;
    many(rt, b"a 33rd record with a cut head", 0, 0, ENDED - 1)?;
    many(rt, b"a 33rd record with a bad head", 4, 0, ONE_MORE)
}

// ---- writing a roll

// The answer, the length and every byte of the output.
fn write(rt: &impl Print, label: &[u8], image: &[u8], out: &mut [u8]) -> io::Result<()> {
    let written = roll_writer::write(image, out);
    text(rt, label)?;
    text(rt, b": ")?;
    case_lines::written(rt, written)?;
    text(rt, b", ")?;
    hex(rt, out)?;
    text(rt, b"\n")
}

fn rooms(rt: &impl Print, image: &[u8]) -> io::Result<()> {
    let mut short = [0xeeu8; 53];
    write(rt, b"the worked image, room 53", image, &mut short)?;
    let mut exact = [0xeeu8; 54];
    write(rt, b"the worked image, room 54", image, &mut exact)?;
    shown(rt, b"its roll read", &exact, false)?;
    let mut long = [0xeeu8; 55];
    write(rt, b"the worked image, room 55", image, &mut long)
}

fn refused(rt: &impl Print, image: &mut [u8]) -> io::Result<()> {
    let mut out = [0xeeu8; 54];
    octets::put_be16(image, Header::FLAGS_AT, 1);
    write(rt, b"its flags changed, its checksum not", image, &mut out)?;
    let shape = case_images::without_flags(2, 3, [2, 3, 3, 0, 0, 0], [1, 1, 0, 0, 0, 0]);
    case_images::put_image(image, shape, b"Ka");
    write(rt, b"a ramdisk before the kernel", image, &mut out)
}

// The worked image again, by its plan and the image writer.
fn planned(rt: &impl Print) -> io::Result<()> {
    let mut image = [0u8; WORKED_SIZE];
    let written = eif_writer::write(case_images::worked_plan(), b"Ka", &mut image);
    text(rt, b"the worked plan: ")?;
    case_lines::written(rt, written)?;
    text(rt, b"\n")?;
    let mut out = [0xeeu8; 54];
    write(rt, b"its image's roll", &image, &mut out)
}

// ---- two images

// The two rolls, by their lengths, and whether they are equal.
fn compare(rt: &impl Print, label: &[u8], one: &[u8], other: &[u8]) -> io::Result<()> {
    let mut x = [0u8; 76];
    let first = roll_writer::write(one, &mut x);
    let mut y = [0u8; 76];
    let second = roll_writer::write(other, &mut y);
    text(rt, label)?;
    text(rt, b": ")?;
    case_lines::written(rt, first)?;
    text(rt, b"; ")?;
    case_lines::written(rt, second)?;
    tell(rt, check::same(&x, &y), b"; equal\n", b"; different\n")
}

// Of two images, the second over bytes that are not zero where `fill` is not.
fn images(
    rt: &impl Print,
    label: &[u8],
    one: Shape,
    first: &[u8],
    other: Shape,
    second: &[u8],
    fill: u8,
) -> io::Result<()> {
    let mut x = [0u8; 636];
    let end = case_images::put_image(&mut x, one, first);
    let mut y = [fill; 636];
    let last = case_images::put_image(&mut y, other, second);
    compare(rt, label, &x[..end], &y[..last])
}

// The worked image with other flags.
fn flagged(flags: u16) -> Shape {
    Shape {
        version: 2,
        flags,
        count: 3,
        kinds: [1, 2, 3, 0, 0, 0],
        own_flags: [0; case_images::MOST],
        lengths: [1, 1, 0, 0, 0, 0],
    }
}

// A signature and metadata more, and flags of every section.
const SIGNED: Shape = Shape {
    version: 4,
    flags: 0,
    count: 6,
    kinds: [1, 2, 4, 3, 3, 5],
    own_flags: [1, 2, 3, 4, 5, 6],
    lengths: [1, 1, 6, 3, 3, 2],
};

fn pairs(rt: &impl Print) -> io::Result<()> {
    let two = case_images::without_flags(2, 4, [1, 2, 3, 3, 0, 0], [1, 1, 3, 3, 0, 0]);
    images(
        rt,
        b"ramdisks exchanged",
        two,
        b"Kaoldnew",
        two,
        b"Kanewold",
        0,
    )?;
    images(
        rt,
        b"version, signature, unused entries",
        two,
        b"Kaoldnew",
        SIGNED,
        b"Kasignedoldnew{}",
        0xaa,
    )?;
    images(
        rt,
        b"another architecture",
        Shape::WORKED,
        b"Ka",
        flagged(1),
        b"Ka",
        0,
    )?;
    images(
        rt,
        b"another flag",
        Shape::WORKED,
        b"Ka",
        flagged(32768),
        b"Ka",
        0,
    )
}

fn flags_written(rt: &impl Print, image: &mut [u8]) -> io::Result<()> {
    case_images::put_image(image, flagged(0x1234), b"Ka");
    let mut out = [0xeeu8; 54];
    write(rt, b"flags 1234", image, &mut out)?;
    shown(rt, b"its roll read", &out, false)
}

fn byte_moved(rt: &impl Print) -> io::Result<()> {
    let one = case_images::without_flags(2, 2, [1, 2, 0, 0, 0, 0], [2, 1, 0, 0, 0, 0]);
    let other = case_images::without_flags(2, 2, [1, 2, 0, 0, 0, 0], [1, 2, 0, 0, 0, 0]);
    images(
        rt,
        b"kernel's last byte moved",
        one,
        b"abc",
        other,
        b"abc",
        0,
    )
}

fn reading(rt: &impl Print) -> io::Result<()> {
    rows(rt)?;
    later_rows(rt)?;
    inner(rt)?;
    flags(rt)?;
    many_records(rt)?;
    before_order(rt)
}

fn main(rt: HostRuntime) -> io::Result<()> {
    reading(&rt)?;
    let mut image = [0u8; WORKED_SIZE];
    case_images::put_image(&mut image, Shape::WORKED, b"Ka");
    rooms(&rt, &image)?;
    planned(&rt)?;
    refused(&rt, &mut image)?;
    pairs(&rt)?;
    flags_written(&rt, &mut image)?;
    byte_moved(&rt)
}
