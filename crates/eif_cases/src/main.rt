// Runs cases of reading an image, one line each: what was done to an image, and the reader's answer. Section types are FORMAT.md's numbers.
#![tactic(auto)]

use case_images::{Shape, WORKED_SIZE};
use case_lines::{labelled, say, text};
use eif::{Header, Reading, Section, SectionType, Verdict};
use std::io;

// A number over what stands at a position: the position, in how many bytes (2, 4 or 8; any other width changes nothing), and the number.
#[derive(Clone, Copy)]
struct Change(usize, u8, u64);

const NONE: Change = Change(0, 0, 0);

fn make(image: &mut [u8], change: Change) {
    let width = change.1;
    if width == 2 {
        octets::put_be16(image, change.0, (change.2 % 65536) as u16);
        return;
    }
    if width == 4 {
        octets::put_be32(image, change.0, (change.2 % 4294967296) as u32);
        return;
    }
    if width == 8 {
        octets::put_be64(image, change.0, change.2);
    }
}

// ---- images

// The worked example: version 2, kernel 4b, command line 61, an empty ramdisk; sections at 548, 561 and 574; 586 bytes.
fn put_worked(image: &mut [u8]) {
    case_images::put_image(image, Shape::WORKED, b"Ka");
}

// Version 4 with every type: kernel, command line, two ramdisks, signature, metadata at 548, 561, 574, 588, 601 and 614; 628 bytes.
fn put_full(image: &mut [u8]) {
    let shape = Shape {
        version: 4,
        flags: 1,
        count: 6,
        kinds: [1, 2, 3, 3, 4, 5],
        own_flags: [0, 0, 0, 7, 0, 0],
        lengths: [1, 1, 2, 1, 1, 2],
    };
    case_images::put_image(image, shape, b"Kar1st{}");
    octets::put_be64(image, Header::DEFAULT_MEM_AT, 0x0102030405060708);
    octets::put_be64(image, Header::DEFAULT_CPUS_AT, 2);
}

// Two sections: at 548 with a byte of data, and an empty one at 561; 573 bytes.
fn put_pair(image: &mut [u8], version: u16, first: u16, second: u16) {
    let shape = case_images::without_flags(
        version,
        2,
        [first, second, 0, 0, 0, 0],
        [1, 0, 0, 0, 0, 0],
    );
    case_images::put_image(image, shape, b"K");
}

// ---- answers

fn fields(rt: &impl Print, reading: Reading) -> io::Result<()> {
    labelled(rt, b"version ", reading.version as u64)?;
    labelled(rt, b" flags ", reading.flags as u64)?;
    labelled(rt, b" architecture ", reading.architecture as u64)?;
    labelled(rt, b" memory ", reading.default_mem)?;
    labelled(rt, b" cpus ", reading.default_cpus)?;
    labelled(rt, b" count ", reading.count as u64)?;
    labelled(rt, b" ramdisks ", reading.ramdisk_mark as u64)
}

// Every place of the table, used or not, but for those that are all zero.
fn rows(rt: &impl Print, sections: [Section; eif::PLACES]) -> io::Result<()> {
    let mut i: usize = 0;
    while i < eif::PLACES {
        let section = sections[i];
        if !is_blank(section) {
            row(rt, i as u64, section)?;
        }
        i += 1;
    }
    Ok(())
}

fn is_blank(section: Section) -> bool {
    if section.kind != 0 {
        return false;
    }
    if section.flags != 0 {
        return false;
    }
    if section.position.0 != 0 {
        return false;
    }
    section.length.0 == 0
}

fn row(rt: &impl Print, i: u64, section: Section) -> io::Result<()> {
    labelled(rt, b"\n  ", i)?;
    labelled(rt, b" type ", section.kind as u64)?;
    labelled(rt, b" flags ", section.flags as u64)?;
    labelled(rt, b" position ", section.position.0)?;
    labelled(rt, b" length ", section.length.0)
}

fn answer(rt: &impl Print, label: &[u8], image: &[u8]) -> io::Result<()> {
    let reading = eif_reader::read(image);
    let verdict = reading.verdict;
    text(rt, label)?;
    text(rt, b": ")?;
    match verdict {
        Verdict::Accepted => fields(rt, reading)?,
        Verdict::Refused(_) => say(rt, verdict)?,
    }
    let sections = reading.sections;
    rows(rt, sections)?;
    text(rt, b"\n")
}

// The worked example with two changes, its checksum mended.
fn small_twice(rt: &impl Print, label: &[u8], a: Change, b: Change) -> io::Result<()> {
    let mut image = [0u8; WORKED_SIZE];
    put_worked(&mut image);
    changed(rt, label, &mut image, a, b)
}

// With one change.
fn small(rt: &impl Print, label: &[u8], at: usize, width: u8, value: u64) -> io::Result<()> {
    small_twice(rt, label, Change(at, width, value), NONE)
}

// The image with every type and two changes, its checksum mended.
fn full_twice(rt: &impl Print, label: &[u8], a: Change, b: Change) -> io::Result<()> {
    let mut image = [0u8; 628];
    put_full(&mut image);
    changed(rt, label, &mut image, a, b)
}

fn full(rt: &impl Print, label: &[u8], at: usize, width: u8, value: u64) -> io::Result<()> {
    full_twice(rt, label, Change(at, width, value), NONE)
}

fn changed(
    rt: &impl Print,
    label: &[u8],
    image: &mut [u8],
    a: Change,
    b: Change,
) -> io::Result<()> {
    make(image, a);
    make(image, b);
    case_images::put_checksum(image);
    answer(rt, label, image)
}

fn paired(rt: &impl Print, label: &[u8], version: u16, first: u16, second: u16) -> io::Result<()> {
    let mut image = [0u8; 573];
    put_pair(&mut image, version, first, second);
    answer(rt, label, &image)
}

// The worked example with a change after its checksum was put.
fn after_checksum(rt: &impl Print, label: &[u8], a: Change) -> io::Result<()> {
    let mut image = [0u8; WORKED_SIZE];
    put_worked(&mut image);
    make(&mut image, a);
    answer(rt, label, &image)
}

// ---- cases that no change of a field makes

// The checksum with its lowest bit turned, and run over its own field as four zeros.
fn wrong_sums(rt: &impl Print) -> io::Result<()> {
    let mut image = [0u8; WORKED_SIZE];
    put_worked(&mut image);
    let sum = octets::be32(&image, Header::CHECKSUM_AT);
    octets::put_be32(&mut image, Header::CHECKSUM_AT, sum ^ 1);
    answer(rt, b"checksum one off", &image)?;
    zeros_counted(rt, &mut image)
}

fn zeros_counted(rt: &impl Print, image: &mut [u8]) -> io::Result<()> {
    octets::put_be32(image, Header::CHECKSUM_AT, 0);
    let sum = crc32_fold::checksum(image);
    octets::put_be32(image, Header::CHECKSUM_AT, sum);
    answer(rt, b"checksum over its field as zeros", image)
}

// Only the beginning of the worked example.
fn cut(rt: &impl Print, label: &[u8], size: usize) -> io::Result<()> {
    let mut image = [0u8; WORKED_SIZE];
    put_worked(&mut image);
    if size <= WORKED_SIZE {
        answer(rt, label, &image[0..size])?;
    }
    Ok(())
}

// One byte after the last section of the worked example, counted by the checksum.
fn tail(rt: &impl Print, label: &[u8]) -> io::Result<()> {
    let mut image = [0u8; WORKED_SIZE + 1];
    put_worked(&mut image);
    case_images::put_checksum(&mut image);
    answer(rt, label, &image)
}

// Two sections and one byte after them.
fn paired_tail(
    rt: &impl Print,
    label: &[u8],
    version: u16,
    first: u16,
    second: u16,
) -> io::Result<()> {
    let mut image = [0u8; 574];
    put_pair(&mut image, version, first, second);
    case_images::put_checksum(&mut image);
    answer(rt, label, &image)
}

// Rule 12 before 13, and each beside a byte after the last section.
fn missing_or_checksum(rt: &impl Print) -> io::Result<()> {
    let mut pair = [0u8; 573];
    put_pair(&mut pair, 4, 1, 2);
    octets::put_be32(&mut pair, Header::CHECKSUM_AT, 0);
    answer(rt, b"12 and 13", &pair)?;
    paired_tail(rt, b"12, and a byte after the last section", 3, 1, 4)?;
    tail_wrong_checksum(rt)
}

fn tail_wrong_checksum(rt: &impl Print) -> io::Result<()> {
    let mut image = [0u8; WORKED_SIZE + 1];
    put_worked(&mut image);
    octets::put_be32(&mut image, Header::CHECKSUM_AT, 0);
    answer(rt, b"a byte after the last section, and 13", &image)
}

// The second section one byte further on, and with it the end: a gap of one byte and no tail.
fn gap(rt: &impl Print, label: &[u8]) -> io::Result<()> {
    let mut image = [0u8; 574];
    put_pair(&mut image, 2, 1, 2);
    case_images::put_section(&mut image, 1, 562, SectionType::COMMAND_LINE, 0, b"");
    case_images::put_checksum(&mut image);
    answer(rt, label, &image)
}

// ---- the cases

fn of_the_rules(rt: &impl Print) -> io::Result<()> {
    cut(rt, b"the worked example", WORKED_SIZE)?;
    cut(rt, b"547 bytes", Header::SIZE - 1)?;
    cut(rt, b"no bytes", 0)?;
    small(rt, b"count 1", 26, 2, 1)?;
    small(rt, b"count 33", 26, 2, 33)?;
    paired(rt, b"version 2, kernel and empty command line", 2, 1, 2)?;
    small(rt, b"first offset 547", 28, 8, 547)?;
    small(rt, b"size of all ones", 292, 8, 0xffffffffffffffff)?;
    small(rt, b"size one more than the file has", 300, 8, 1)?;
    small(rt, b"type 6", 561, 2, 6)?;
    small(rt, b"type 0", 561, 2, 0)?;
    full(rt, b"version 4 with every type", 0, 0, 0)?;
    full(rt, b"version 3 with metadata", 4, 2, 3)?;
    paired(rt, b"version 4 without metadata", 4, 1, 2)?;
    wrong_sums(rt)?;
    paired(rt, b"command line before the kernel", 2, 2, 1)?;
    small(rt, b"flags 65534", 6, 2, 65534)?;
    gap(rt, b"a gap of one byte")?;
    tail(rt, b"one byte after the last section")
}

// The numbers that are about no one section.
fn of_the_header(rt: &impl Print) -> io::Result<()> {
    cut(rt, b"2", 300)?;
    small(rt, b"3", 0, 4, 0x2e656967)?;
    small(rt, b"4 below", 4, 2, 1)?;
    small(rt, b"4 above", 4, 2, 5)?;
    small(rt, b"5 below", 26, 2, 0)?;
    small(rt, b"5 above", 26, 2, 65535)?;
    paired(rt, b"12 kernel", 3, 2, 4)?;
    paired(rt, b"12 command line", 3, 1, 4)?;
    paired(rt, b"12 metadata", 4, 1, 2)?;
    after_checksum(rt, b"13", Change(8, 8, 1))
}

// 6, 20 and 7 to 11 at a first, an inner and a last section.
fn of_a_section(rt: &impl Print) -> io::Result<()> {
    full(rt, b"6 first", 28, 8, 540)?;
    full(rt, b"6 inner", 44, 8, 573)?;
    full(rt, b"6 last", 68, 8, 613)?;
    full(rt, b"20 first", 28, 8, 549)?;
    full(rt, b"20 inner", 44, 8, 575)?;
    full(rt, b"20 last", 68, 8, 615)?;
    full(rt, b"20 offset of all ones", 44, 8, 0xffffffffffffffff)?;
    full(rt, b"7 first", 284, 8, 69)?;
    full(rt, b"7 inner", 300, 8, 43)?;
    full(rt, b"7 last", 324, 8, 3)?;
    full(rt, b"7 end that wraps to 0", 300, 8, 0xfffffffffffffdb6)?;
    full(rt, b"8 first", 552, 8, 2)?;
    full(rt, b"8 inner", 578, 8, 1)?;
    full(rt, b"8 last", 618, 8, 0)?;
    full(rt, b"9 first", 548, 2, 6)?;
    full(rt, b"9 inner", 574, 2, 0)?;
    full(rt, b"9 last", 614, 2, 65535)?;
    full(rt, b"10 first", 548, 2, 3)?;
    full(rt, b"10 inner", 548, 2, 4)?;
    paired(rt, b"10 last", 2, 2, 3)?;
    full(rt, b"11 inner", 574, 2, 1)?;
    full(rt, b"11 last", 614, 2, 4)
}

// The one that comes first in the order of FORMAT.md, Reading an image, is the answer, wherever the other stands.
fn two_at_once(rt: &impl Print) -> io::Result<()> {
    small_twice(rt, b"3 and 4", Change(0, 4, 0), Change(4, 2, 9))?;
    small_twice(rt, b"4 and 5", Change(4, 2, 9), Change(26, 2, 1))?;
    small_twice(rt, b"5 and 6", Change(26, 2, 1), Change(28, 8, 547))?;
    full_twice(
        rt,
        b"6 at 1, 20 at 3",
        Change(36, 8, 560),
        Change(52, 8, 589),
    )?;
    full_twice(
        rt,
        b"20 at 1, 6 at 3",
        Change(36, 8, 562),
        Change(52, 8, 587),
    )?;
    full_twice(
        rt,
        b"20 and 7 at 2",
        Change(44, 8, 575),
        Change(300, 8, 0xffffffffffffffff),
    )?;
    full_twice(rt, b"6 at 1, 9 at 3", Change(36, 8, 560), Change(588, 2, 6))?;
    full_twice(rt, b"9 at 1, 6 at 3", Change(561, 2, 6), Change(52, 8, 587))?;
    full_twice(
        rt,
        b"6 and 7 at 2",
        Change(44, 8, 573),
        Change(300, 8, 0xffffffffffffffff),
    )?;
    full_twice(
        rt,
        b"7 and 8 at 2",
        Change(300, 8, 0xffffffffffffffff),
        Change(578, 8, 1),
    )?;
    full_twice(rt, b"8 and 9 at 2", Change(578, 8, 1), Change(574, 2, 6))?;
    small_twice(rt, b"8 and 10 at 0", Change(552, 8, 2), Change(548, 2, 3))?;
    small_twice(rt, b"8 and 11 at 2", Change(578, 8, 1), Change(574, 2, 1))?;
    full(rt, b"10 at 2, 11 at 4", 548, 2, 4)?;
    full_twice(rt, b"11 at 1, 9 at 2", Change(561, 2, 1), Change(574, 2, 6))?;
    full(rt, b"9 at 5, and 12", 614, 2, 9)?;
    paired(rt, b"11 at 1, and 12", 2, 1, 1)?;
    missing_or_checksum(rt)?;
    after_checksum(rt, b"20 at 0, and 13", Change(28, 8, 549))
}

fn main(rt: HostRuntime) -> io::Result<()> {
    of_the_rules(&rt)?;
    of_the_header(&rt)?;
    of_a_section(&rt)?;
    two_at_once(&rt)
}
