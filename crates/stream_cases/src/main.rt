// Runs the cases of the three streams, one line each: what each stream of small images is, and copying from positions at and
// around borders and ends. An output buffer is shown whole; it held dots before the call. Section types are FORMAT.md's numbers.
#![tactic(auto)]

use case_images::Shape;
use case_lines::{labelled, say, text};
use eif::{Copied, Header, SectionType, Stream, StreamPosition};
use std::io;

// ---- lines

fn in_brackets(rt: &impl Print, bytes: &[u8]) -> io::Result<()> {
    text(rt, b"[")?;
    text(rt, bytes)?;
    text(rt, b"]")
}

// The answer, the number of bytes copied and every byte of the output.
fn told(rt: &impl Print, label: &[u8], copied: Copied, out: &[u8]) -> io::Result<()> {
    let verdict = copied.verdict;
    text(rt, label)?;
    text(rt, b": ")?;
    say(rt, verdict)?;
    labelled(rt, b", ", copied.count)?;
    text(rt, b" ")?;
    in_brackets(rt, out)?;
    text(rt, b"\n")
}

fn copy(
    rt: &impl Print,
    label: &[u8],
    image: &[u8],
    stream: Stream,
    from: u64,
    out: &mut [u8],
) -> io::Result<()> {
    let copied = stream_reader::copy(image, stream, StreamPosition(from), out);
    told(rt, label, copied, out)
}

// A copy of at most four bytes.
fn copy_few(
    rt: &impl Print,
    label: &[u8],
    image: &[u8],
    stream: Stream,
    from: u64,
) -> io::Result<()> {
    let mut out = [b'.'; 4];
    copy(rt, label, image, stream, from, &mut out)
}

fn length(rt: &impl Print, label: &[u8], image: &[u8], stream: Stream) -> io::Result<()> {
    let length = stream_reader::length(image, stream);
    let verdict = length.verdict;
    text(rt, label)?;
    text(rt, b": ")?;
    say(rt, verdict)?;
    labelled(rt, b", ", length.length.0)?;
    text(rt, b"\n")
}

// A stream's length, and its bytes in a buffer of 26.
fn whole_of(rt: &impl Print, name: &[u8], image: &[u8], stream: Stream) -> io::Result<()> {
    let mut out = [b'.'; 26];
    labelled(rt, name, stream_reader::length(image, stream).length.0)?;
    text(rt, b" ")?;
    stream_reader::copy(image, stream, StreamPosition(0), &mut out);
    in_brackets(rt, &out)
}

fn streams(rt: &impl Print, label: &[u8], image: &[u8]) -> io::Result<()> {
    text(rt, label)?;
    whole_of(rt, b": Whole ", image, Stream::Whole)?;
    whole_of(rt, b", Boot ", image, Stream::Boot)?;
    whole_of(rt, b", App ", image, Stream::App)?;
    text(rt, b"\n")
}

// ---- which sections, in what order

// Room for the longest image.
const ROOM: usize = 640;

fn streams_of(rt: &impl Print, label: &[u8], shape: Shape, lent: &[u8]) -> io::Result<()> {
    let mut image = [0u8; ROOM];
    let size = case_images::put_image(&mut image, shape, lent);
    streams(rt, label, &image[..size])
}

fn command_lines(rt: &impl Print) -> io::Result<()> {
    streams_of(
        rt,
        b"command line before the kernel",
        Shape::COMMAND_LINE_FIRST,
        b"cmdkernelram",
    )?;
    streams_of(
        rt,
        b"command line after the ramdisks",
        Shape::COMMAND_LINE_LAST,
        b"kernelonetwocmd",
    )?;
    streams_of(
        rt,
        b"command line between two ramdisks",
        Shape::COMMAND_LINE_BETWEEN,
        b"kernelonecmdtwo",
    )
}

fn empty_sections(rt: &impl Print) -> io::Result<()> {
    streams_of(
        rt,
        b"empty sections in the middle",
        case_images::without_flags(2, 5, [1, 2, 3, 3, 3, 0], [1, 0, 1, 0, 1, 0]),
        b"kab",
    )?;
    streams_of(
        rt,
        b"first ramdisk empty",
        case_images::without_flags(2, 4, [1, 2, 3, 3, 0, 0], [1, 1, 0, 1, 0, 0]),
        b"kcb",
    )
}

fn no_ramdisk(rt: &impl Print) -> io::Result<()> {
    let mut image = [0u8; 574];
    case_images::put_image(&mut image, Shape::NO_RAMDISK, b"kc");
    streams(rt, b"no ramdisk", &image)?;
    copy_few(rt, b"its App from 0", &image, Stream::App, 0)?;
    copy_few(rt, b"its App from 1", &image, Stream::App, 1)
}

fn one_ramdisk(rt: &impl Print) -> io::Result<()> {
    streams_of(
        rt,
        b"one ramdisk",
        case_images::without_flags(2, 3, [1, 2, 3, 0, 0, 0], [1, 1, 1, 0, 0, 0]),
        b"kcr",
    )?;
    streams_of(
        rt,
        b"a signature between",
        case_images::without_flags(3, 4, [1, 4, 2, 3, 0, 0], [1, 3, 1, 1, 0, 0]),
        b"ksigcr",
    )
}

// ---- positions and room, for the image in order

fn within(rt: &impl Print, image: &[u8]) -> io::Result<()> {
    let mut kernel = [b'.'; 6];
    copy(
        rt,
        b"Whole from 0, room 6",
        image,
        Stream::Whole,
        0,
        &mut kernel,
    )?;
    let mut borders = [b'.'; 8];
    copy(
        rt,
        b"Whole from 4, over two borders",
        image,
        Stream::Whole,
        4,
        &mut borders,
    )?;
    let mut last = [b'.'; 8];
    copy(
        rt,
        b"Whole from 20, room 8",
        image,
        Stream::Whole,
        20,
        &mut last,
    )?;
    let mut none = [b'.'; 0];
    copy(
        rt,
        b"Whole from 3, no room",
        image,
        Stream::Whole,
        3,
        &mut none,
    )
}

fn ends(rt: &impl Print, image: &[u8]) -> io::Result<()> {
    copy_few(rt, b"Whole from 25", image, Stream::Whole, 25)?;
    copy_few(rt, b"Whole from 26", image, Stream::Whole, 26)?;
    copy_few(rt, b"Boot from 13", image, Stream::Boot, 13)?;
    copy_few(rt, b"Boot from 14", image, Stream::Boot, 14)?;
    copy_few(rt, b"Boot from 15", image, Stream::Boot, 15)?;
    copy_few(rt, b"App from 5", image, Stream::App, 5)?;
    copy_few(rt, b"App from 11", image, Stream::App, 11)?;
    copy_few(rt, b"App from 12", image, Stream::App, 12)?;
    copy_few(
        rt,
        b"Whole from all ones",
        image,
        Stream::Whole,
        18446744073709551615,
    )
}

// Seven bytes at a time, each copy from where the last one ended.
fn pieces(rt: &impl Print, image: &[u8]) -> io::Result<()> {
    text(rt, b"Whole in pieces of 7: ")?;
    let second = piece(rt, image, 0)?;
    let third = piece(rt, image, second)?;
    let fourth = piece(rt, image, third)?;
    let fifth = piece(rt, image, fourth)?;
    piece(rt, image, fifth)?;
    text(rt, b"\n")
}

// Where the next piece starts is handed back.
fn piece(rt: &impl Print, image: &[u8], from: u64) -> io::Result<u64> {
    let mut out = [b'.'; 7];
    let copied = stream_reader::copy(image, Stream::Whole, StreamPosition(from), &mut out);
    in_brackets(rt, &out)?;
    Ok(std::num::wrapping_add_u64(from, copied.count))
}

// From the sections of Whole, found once, of the image's first bytes.
fn from_listed(
    rt: &impl Print,
    label: &[u8],
    image: &[u8],
    size: usize,
    from: u64,
) -> io::Result<()> {
    if image.len() < size {
        return Ok(());
    }
    let mut out = [b'.'; 8];
    let sections = eif_reader::read(image).sections;
    let list = stream_reader::sections(sections, Stream::Whole);
    let copied = stream_reader::copy_listed(&image[..size], list, StreamPosition(from), &mut out);
    told(rt, label, copied, &out)
}

fn listed(rt: &impl Print, image: &[u8]) -> io::Result<()> {
    from_listed(rt, b"from its sections at 4", image, 633, 4)?;
    from_listed(rt, b"at 25", image, 633, 25)?;
    from_listed(rt, b"at 26", image, 633, 26)?;
    from_listed(rt, b"at 9, the image cut at 600", image, 600, 9)?;
    from_listed(rt, b"at 14, the image cut at 600", image, 600, 14)?;
    from_listed(rt, b"at 15, the image cut at 600", image, 600, 15)?;
    from_listed(rt, b"at 0, no image", image, 0, 0)
}

// ---- the image's own refusal comes first

fn wrong_checksum(rt: &impl Print, image: &mut [u8]) -> io::Result<()> {
    octets::put_be16(image, Header::FLAGS_AT, 1);
    copy_few(rt, b"its checksum wrong, from 0", image, Stream::Whole, 0)?;
    copy_few(
        rt,
        b"its checksum wrong, from all ones",
        image,
        Stream::Whole,
        18446744073709551615,
    )?;
    length(rt, b"its checksum wrong, length", image, Stream::Whole)
}

fn before_kernel(rt: &impl Print) -> io::Result<()> {
    let mut image = [0u8; 596];
    case_images::put_image(&mut image, Shape::COMMAND_LINE_FIRST, b"cmdkernelram");
    octets::put_be16(&mut image, 563, SectionType::RAMDISK);
    case_images::put_checksum(&mut image);
    copy_few(rt, b"a ramdisk before the kernel", &image, Stream::Boot, 0)
}

fn put_in_order(image: &mut [u8]) {
    case_images::put_image(image, Shape::IN_ORDER, b"kernelcmdfirstsecondthird");
}

// Two bytes at a position; the checksum stays.
fn damaged(rt: &impl Print, label: &[u8], at: usize, value: u16) -> io::Result<()> {
    let mut image = [0u8; 633];
    put_in_order(&mut image);
    octets::put_be16(&mut image, at, value);
    copy_few(rt, label, &image, Stream::Whole, 0)
}

// An offset one too far on, and a type that is not allowed, at a first, an inner and the last section.
fn at_a_section(rt: &impl Print) -> io::Result<()> {
    damaged(rt, b"20 first", 34, 549)?;
    damaged(rt, b"20 inner", 50, 582)?;
    damaged(rt, b"20 last", 66, 617)?;
    damaged(rt, b"9 first", 548, 6)?;
    damaged(rt, b"9 inner", 581, 6)?;
    damaged(rt, b"9 last", 616, 6)
}

fn one_more(rt: &impl Print) -> io::Result<()> {
    let mut image = [0u8; 634];
    put_in_order(&mut image);
    case_images::put_checksum(&mut image);
    length(
        rt,
        b"one byte after the last section, length",
        &image,
        Stream::App,
    )
}

fn in_order(rt: &impl Print, image: &[u8]) -> io::Result<()> {
    streams(rt, b"in order", image)?;
    within(rt, image)?;
    ends(rt, image)?;
    pieces(rt, image)?;
    listed(rt, image)
}

fn orders(rt: &impl Print) -> io::Result<()> {
    command_lines(rt)?;
    empty_sections(rt)?;
    no_ramdisk(rt)?;
    one_ramdisk(rt)
}

fn main(rt: HostRuntime) -> io::Result<()> {
    let mut image = [0u8; 633];
    put_in_order(&mut image);
    in_order(&rt, &image)?;
    orders(&rt)?;
    wrong_checksum(&rt, &mut image)?;
    before_kernel(&rt)?;
    at_a_section(&rt)?;
    one_more(&rt)
}
