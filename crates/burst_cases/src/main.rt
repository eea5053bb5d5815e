// Runs cases of what the checksum promises, a line each: damage within four neighbouring bytes that are checked and damage to the checksum
// alone, each tried at every place of a small image and never accepted; and a stretch that reaches into the checksum, of which nothing is
// promised: two images that differ in four neighbouring bytes of the file, and both are accepted. Section types are FORMAT.md's numbers.
#![tactic(auto)]

ghost use Rattle.std.specs.Prelude.{◌<◌, ◌≤◌};
ghost use Rattle.burst_cases.specs.Sizes.{damaged_size, stretch_count};

use case_lines::{byte, labelled, tell, text};
use eif::{Header, Verdict};
use std::io;

// ---- the image and its damage

// The size of the image: that of the worked example, and three bytes of ramdisk.
const SIZE: usize = case_images::WORKED_SIZE + 3;

// How many stretches of four neighbouring checked bytes it has: the four bytes of the checksum are not checked, and none starts at the last
// three.
const STRETCHES: usize = SIZE - 4 - 3;

// Kernel, command line and a ramdisk of three bytes, and in the reserved bytes before the checksum a number, which nothing judges.
fn build(image: &mut [u8], reserved: u32) {
    let shape = case_images::without_flags(2, 3, [1, 2, 3, 0, 0, 0], [1, 1, 3, 0, 0, 0]);
    case_images::put_image(image, shape, b"Kaabc");
    octets::put_be32(image, Header::RESERVED_AFTER_AT, reserved);
    case_images::put_checksum(image);
}

fn accepted(image: &[u8]) -> bool {
    let reading = eif_reader::read(image);
    let verdict = reading.verdict;
    match verdict {
        Verdict::Accepted => true,
        Verdict::Refused(_) => false,
    }
}

fn one_if(yes: bool) -> usize
    ensures { result ≤ 1 }
{
    if yes { 1 } else { 0 }
}

fn invert(image: &mut [u8], at: usize, bits: u8) {
    if at < image.len() {
        image[at] = image[at] ^ bits;
    }
}

// Where the checked byte k stands: the four bytes of the checksum are not among them.
fn place(k: usize) -> usize
    requires { k < damaged_size }
{
    if k < Header::CHECKSUM_AT { k } else { k + 4 }
}

// Whether the image is accepted with four neighbouring checked bytes damaged, from the byte k on.
fn slips(k: usize, a: u8, b: u8, c: u8, d: u8) -> bool
    requires { k < stretch_count }
{
    let mut image = [0u8; SIZE];
    build(&mut image, 0);
    invert(&mut image, place(k), a);
    invert(&mut image, place(k + 1), b);
    invert(&mut image, place(k + 2), c);
    invert(&mut image, place(k + 3), d);
    accepted(&image)
}

// How many places let the damage through.
fn count_slips(a: u8, b: u8, c: u8, d: u8) -> usize
    ensures { result ≤ stretch_count }
{
    let mut n: usize = 0;
    let mut k: usize = 0;
    while k < STRETCHES {
        n += one_if(slips(k, a, b, c, d));
        k += 1;
    }
    n
}

// Whether the image is accepted with one byte of its checksum damaged.
fn field_slips(at: usize, bits: u8) -> bool {
    let mut image = [0u8; SIZE];
    build(&mut image, 0);
    invert(&mut image, at, bits);
    accepted(&image)
}

// How many of 255 damages to a byte of the checksum are let through.
fn count_field_slips(at: usize) -> usize
    ensures { result ≤ 255 }
{
    let mut n: usize = 0;
    let mut bits: u8 = 0;
    while bits < 255 {
        bits += 1;
        n += one_if(field_slips(at, bits));
    }
    n
}

// ---- the cases

fn damage(rt: &impl Print, a: u8, b: u8, c: u8, d: u8) -> io::Result<()> {
    text(rt, b"four neighbouring checked bytes inverted by ")?;
    byte(rt, a)?;
    byte(rt, b)?;
    byte(rt, c)?;
    byte(rt, d)?;
    labelled(rt, b", at each of ", STRETCHES as u64)?;
    labelled(rt, b" places: accepted ", count_slips(a, b, c, d) as u64)?;
    text(rt, b"\n")
}

fn field_damage(rt: &impl Print, at: usize) -> io::Result<()> {
    labelled(rt, b"byte ", at as u64)?;
    labelled(
        rt,
        b" alone, in each of 255 ways: accepted ",
        count_field_slips(at) as u64,
    )?;
    text(rt, b"\n")
}

// Each byte in which two images differ.
fn differences(rt: &impl Print, one: &[u8; SIZE], other: &[u8; SIZE]) -> io::Result<()> {
    let mut i: usize = 0;
    while i < SIZE {
        difference(rt, i, one[i], other[i])?;
        i += 1;
    }
    Ok(())
}

fn difference(rt: &impl Print, at: usize, one: u8, other: u8) -> io::Result<()> {
    if one != other {
        labelled(rt, b"byte ", at as u64)?;
        text(rt, b": ")?;
        byte(rt, one)?;
        text(rt, b" and ")?;
        byte(rt, other)?;
        text(rt, b"\n")?;
    }
    Ok(())
}

fn answer(rt: &impl Print, image: &[u8]) -> io::Result<()> {
    tell(rt, accepted(image), b"accepted\n", b"refused\n")
}

fn main(rt: HostRuntime) -> io::Result<()> {
    damage(&rt, 1, 0, 0, 0)?;
    damage(&rt, 0x80, 0, 0, 1)?;
    damage(&rt, 0xFF, 0xFF, 0xFF, 0xFF)?;
    damage(&rt, 0xED, 0xB8, 0x83, 0x20)?;
    field_damage(&rt, Header::CHECKSUM_AT)?;
    field_damage(&rt, Header::CHECKSUM_AT + 1)?;
    field_damage(&rt, Header::CHECKSUM_AT + 2)?;
    field_damage(&rt, Header::CHECKSUM_AT + 3)?;
    text(
        &rt,
        b"a stretch that reaches into the checksum, found by search:\n",
    )?;
    let mut one = [0u8; SIZE];
    build(&mut one, 0);
    let mut other = [0u8; SIZE];
    build(&mut other, 0x0019F999);
    differences(&rt, &one, &other)?;
    answer(&rt, &one)?;
    answer(&rt, &other)
}
