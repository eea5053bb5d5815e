// Runs cases of the stricter reading, one line each: an image, the answers of the ordinary and of the stricter reading, and the fields of
// the latter, which are zero beside a refusal. Section types are FORMAT.md's numbers.
#![tactic(auto)]

use case_images::Shape;
use case_lines::{labelled, say, text};
use eif::{Header, Reading, SectionType};
use std::io;

// ---- answers

fn fields(rt: &impl Print, reading: Reading) -> io::Result<()> {
    labelled(rt, b"; version ", reading.version as u64)?;
    labelled(rt, b" flags ", reading.flags as u64)?;
    labelled(rt, b" count ", reading.count as u64)?;
    let first = reading.sections[0];
    labelled(rt, b" first type ", first.kind as u64)?;
    labelled(rt, b" position ", first.position.0)?;
    labelled(rt, b" length ", first.length.0)?;
    text(rt, b"\n")
}

fn both(rt: &impl Print, label: &[u8], image: &[u8]) -> io::Result<()> {
    let ordinary = eif_reader::read(image);
    let strict = strict_reader::read_strict(image);
    let first = ordinary.verdict;
    let second = strict.verdict;
    text(rt, label)?;
    text(rt, b": ")?;
    say(rt, first)?;
    text(rt, b", strict ")?;
    say(rt, second)?;
    fields(rt, strict)
}

// ---- images

// Version 4: kernel at 548, command line at 561, and at 574 the metadata, which ends the file.
fn put_metadata(image: &mut [u8], lent: &[u8]) {
    let shape = Shape {
        version: 4,
        flags: 1,
        count: 3,
        kinds: [1, 2, 5, 0, 0, 0],
        own_flags: [0; case_images::MOST],
        lengths: [1, 1, 0, 0, 0, 0],
    };
    case_images::put_image(image, shape, b"Ka");
    case_images::put_section(image, 2, 574, SectionType::METADATA, 0, lent);
}

fn checksum_first(rt: &impl Print, label: &[u8], image: &mut [u8], size: usize) -> io::Result<()> {
    if size <= image.len() {
        case_images::put_checksum(&mut image[0..size]);
        both(rt, label, &image[0..size])?;
    }
    Ok(())
}

fn metadata(rt: &impl Print, label: &[u8], lent: &[u8]) -> io::Result<()> {
    let mut image = [0u8; 842];
    if lent.len() <= 256 {
        put_metadata(&mut image, lent);
        checksum_first(rt, label, &mut image, 586 + lent.len())?;
    }
    Ok(())
}

// Three sections with one byte each, at 548, 561 and 574.
fn put_three(image: &mut [u8], version: u16, kinds: [u16; case_images::MOST], lent: &[u8]) {
    let shape = case_images::without_flags(version, 3, kinds, [1, 1, 1, 0, 0, 0]);
    case_images::put_image(image, shape, lent);
}

fn three(
    rt: &impl Print,
    label: &[u8],
    version: u16,
    kinds: [u16; case_images::MOST],
    lent: &[u8],
) -> io::Result<()> {
    let mut image = [0u8; 587];
    put_three(&mut image, version, kinds, lent);
    both(rt, label, &image)
}

fn wrong_checksum(
    rt: &impl Print,
    label: &[u8],
    version: u16,
    kinds: [u16; case_images::MOST],
    lent: &[u8],
) -> io::Result<()> {
    let mut image = [0u8; 587];
    put_three(&mut image, version, kinds, lent);
    octets::put_be32(&mut image, Header::CHECKSUM_AT, 0);
    both(rt, label, &image)
}

// ---- the cases

fn accepted(rt: &impl Print) -> io::Result<()> {
    metadata(rt, b"an empty object", b"{}")?;
    metadata(
        rt,
        b"a builder's metadata",
        b"{\"ImageName\":\"station\",\"ImageVersion\":\"1.0\",\"DockerInfo\":{\"Size\":7}}",
    )?;
    metadata(rt, b"white space around", b" \n{ } \n")?;
    metadata(rt, b"a number", b"5")?;
    metadata(
        rt,
        b"32 arrays",
        b"[[[[[[[[[[[[[[[[[[[[[[[[[[[[[[[[]]]]]]]]]]]]]]]]]]]]]]]]]]]]]]]]",
    )
}

fn refused(rt: &impl Print) -> io::Result<()> {
    metadata(rt, b"cut in the middle", b"{\"ImageName\":\"sta")?;
    metadata(rt, b"no metadata bytes", b"")?;
    metadata(rt, b"two texts", b"{} {}")?;
    metadata(rt, b"byte order mark", b"\xef\xbb\xbf{}")?;
    metadata(rt, b"zero byte after it", b"{}\0")?;
    metadata(
        rt,
        b"bytes that are no UTF-8",
        b"{\"ImageName\":\"\xed\xa0\x80\"}",
    )?;
    metadata(
        rt,
        b"33 arrays",
        b"[[[[[[[[[[[[[[[[[[[[[[[[[[[[[[[[[]]]]]]]]]]]]]]]]]]]]]]]]]]]]]]]]]",
    )
}

// The index is that of the metadata section, and no other section is asked to be JSON.
fn by_place(rt: &impl Print) -> io::Result<()> {
    three(rt, b"metadata first", 4, [5, 1, 2, 0, 0, 0], b"{{{")?;
    three(rt, b"metadata second", 4, [1, 5, 2, 0, 0, 0], b"{{{")?;
    three(rt, b"metadata last", 4, [1, 2, 5, 0, 0, 0], b"{{{")?;
    three(rt, b"a digit in each", 4, [1, 5, 2, 0, 0, 0], b"777")?;
    three(rt, b"version 3, no metadata", 3, [1, 2, 4, 0, 0, 0], b"{{{")?;
    three(rt, b"version 2, a ramdisk", 2, [1, 2, 3, 0, 0, 0], b"{{{")
}

// The image's own refusals come first.
fn after_the_others(rt: &impl Print) -> io::Result<()> {
    wrong_checksum(rt, b"13, and no JSON", 4, [1, 2, 5, 0, 0, 0], b"{{{")?;
    three(rt, b"9, and no JSON", 3, [1, 2, 5, 0, 0, 0], b"{{{")?;
    three(rt, b"11, and no JSON", 4, [1, 5, 5, 0, 0, 0], b"{{{")?;
    three(rt, b"12, and no JSON", 4, [1, 3, 5, 0, 0, 0], b"{{{")
}

fn main(rt: HostRuntime) -> io::Result<()> {
    accepted(&rt)?;
    refused(&rt)?;
    by_place(&rt)?;
    after_the_others(&rt)
}
