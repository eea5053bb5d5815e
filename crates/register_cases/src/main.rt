// Runs the cases of the registers: a line for each image with its answer, and a line for each register in hexadecimal. First images
// of every shape of streams, then refused ones, then the step over a reading and less than its image. Section types are FORMAT.md's numbers.
#![tactic(auto)]

use case_images::Shape;
use case_lines::{hex, say, text};
use eif::{Header, SectionType};
use eif_registers::Digest;
use sha384_block::DIGEST_SIZE;
use std::io;

// ---- lines

fn register(rt: &impl Print, name: &[u8], bytes: [u8; DIGEST_SIZE]) -> io::Result<()> {
    text(rt, name)?;
    hex(rt, &bytes)?;
    text(rt, b"\n")
}

fn digest(rt: &impl Print, name: &[u8], d: Digest) -> io::Result<()> {
    let bytes = d.0;
    register(rt, name, bytes)
}

fn registers(rt: &impl Print, label: &[u8], image: &[u8]) -> io::Result<()> {
    let measured = eif_registers::registers(image);
    let verdict = measured.verdict;
    let three = measured.registers;
    text(rt, label)?;
    text(rt, b": ")?;
    say(rt, verdict)?;
    text(rt, b"\n")?;
    digest(rt, b"  PCR0 ", three[0])?;
    digest(rt, b"  PCR1 ", three[1])?;
    digest(rt, b"  PCR2 ", three[2])
}

// The step over an image's reading and no more than the first bytes of the image.
fn step(rt: &impl Print, label: &[u8], image: &[u8], size: usize) -> io::Result<()> {
    if image.len() < size {
        return Ok(());
    }
    let three = eif_registers::step(&image[..size], eif_reader::read(image));
    let zeroth = three[0];
    let first = three[1];
    let second = three[2];
    text(rt, label)?;
    text(rt, b"\n")?;
    register(rt, b"  PCR0 ", zeroth)?;
    register(rt, b"  PCR1 ", first)?;
    register(rt, b"  PCR2 ", second)
}

// ---- cases

// Room for the longest image.
const ROOM: usize = 1165;

fn registers_of(rt: &impl Print, label: &[u8], shape: Shape, lent: &[u8]) -> io::Result<()> {
    let mut image = [0u8; ROOM];
    let size = case_images::put_image(&mut image, shape, lent);
    registers(rt, label, &image[..size])
}

fn one_byte_each(rt: &impl Print) -> io::Result<()> {
    registers_of(rt, b"the worked example", Shape::WORKED, b"Ka")?;
    registers_of(rt, b"no ramdisk", Shape::NO_RAMDISK, b"Ka")
}

fn in_order(rt: &impl Print, image: &[u8]) -> io::Result<()> {
    registers(rt, b"three ramdisks", image)?;
    step(rt, b"the step over the same", image, 633)?;
    step(rt, b"the same, with the image cut at 600", image, 600)?;
    step(rt, b"the same, with no image", image, 0)
}

// A kernel of a block and one byte, and ramdisks that end and start inside blocks.
fn long_sections(rt: &impl Print) -> io::Result<()> {
    let mut lent = [b'x'; 569];
    octets::copy(&mut lent, 256, b"first ramdisk");
    registers_of(
        rt,
        b"sections longer than a block",
        case_images::without_flags(2, 4, [1, 2, 3, 3, 0, 0], [129, 127, 13, 300, 0, 0]),
        &lent,
    )
}

fn command_lines(rt: &impl Print) -> io::Result<()> {
    registers_of(
        rt,
        b"command line before the kernel",
        Shape::COMMAND_LINE_FIRST,
        b"cmdkernelram",
    )?;
    registers_of(
        rt,
        b"command line between two ramdisks",
        Shape::COMMAND_LINE_BETWEEN,
        b"kernelonecmdtwo",
    )?;
    registers_of(
        rt,
        b"command line after the ramdisks",
        Shape::COMMAND_LINE_LAST,
        b"kernelonetwocmd",
    )
}

fn refused(rt: &impl Print, image: &mut [u8]) -> io::Result<()> {
    octets::put_be16(image, Header::FLAGS_AT, 1);
    registers(rt, b"its checksum wrong", image)?;
    octets::put_be16(image, 598, SectionType::KERNEL);
    registers(rt, b"a second kernel", image)?;
    registers(rt, b"nothing", b"")
}

fn main(rt: HostRuntime) -> io::Result<()> {
    let mut image = [0u8; 633];
    case_images::put_image(&mut image, Shape::IN_ORDER, b"kernelcmdfirstsecondthird");
    one_byte_each(&rt)?;
    in_order(&rt, &image)?;
    long_sections(&rt)?;
    command_lines(&rt)?;
    refused(&rt, &mut image)
}
