// Runs cases of the staged view, one line each: what is shown of each section, and the roll beside that of the image written afresh.
#![tactic(auto)]

use case_images::Shape;
use case_lines::{hex, labelled, say, tell, text};
use eif::{PLACES, Plan, SectionType};
use std::io;

// ---- the view

// What is shown of a section: the verdict, the length and the bytes.
fn shown<'a>(
    rt: &impl Print,
    base: &'a [u8],
    replacement: &'a [u8],
    replaced: u64,
    section: u64,
) -> io::Result<()> {
    labelled(rt, b"replaced ", replaced)?;
    labelled(rt, b", shown ", section)?;
    text(rt, b": ")?;
    let verdict = staged_view::verdict(base, replacement, replaced, section);
    say(rt, verdict)?;
    let part = staged_view::section(base, replacement, replaced, section);
    let place = staged_view::place(base, replacement.len() as u64, replaced, section);
    labelled(rt, b", length ", part.len() as u64)?;
    text(rt, b", ")?;
    text(rt, part)?;
    labelled(rt, b", of the replacement ", place.in_replacement as u64)?;
    labelled(rt, b" from ", place.start)?;
    labelled(rt, b" length ", place.length.0)?;
    text(rt, b"\n")
}

// ---- the base: kernel, command line and two ramdisks

fn views(rt: &impl Print, base: &[u8]) -> io::Result<()> {
    shown(rt, base, b"mended", 2, 0)?;
    shown(rt, base, b"mended", 2, 1)?;
    shown(rt, base, b"mended", 2, 2)?;
    shown(rt, base, b"mended", 2, 3)?;
    shown(rt, base, b"", 3, 3)?;
    shown(rt, base, b"mended", 4, 0)?;
    shown(rt, base, b"mended", 0, 4)?;
    shown(rt, base, b"mended", 18446744073709551615, 0)
}

// The base's refusal comes first.
fn damaged(rt: &impl Print, base: &[u8]) -> io::Result<()> {
    let mut other = [0u8; 614];
    octets::copy(&mut other, 0, base);
    case_images::put_header(&mut other, 9, 1, 4);
    shown(rt, &other, b"mended", 9, 9)
}

// ---- the roll

// The roll of an image, and the staged roll.
fn both<'a>(
    rt: &impl Print,
    image: &[u8],
    base: &'a [u8],
    replacement: &'a [u8],
    replaced: u64,
) -> io::Result<()> {
    let mut plain = [238u8; 82];
    let first = roll_writer::write(image, &mut plain);
    text(rt, b"the image's roll: ")?;
    case_lines::written(rt, first)?;
    let mut staged = [238u8; 82];
    let second = roll_writer::write_staged(base, replacement, replaced, &mut staged);
    text(rt, b"; the staged roll: ")?;
    case_lines::written(rt, second)?;
    text(rt, b", ")?;
    hex(rt, &staged)?;
    tell(
        rt,
        check::same(&plain, &staged),
        b", equal\n",
        b", different\n",
    )
}

// The plan of the image written afresh with `mended` for section 2.
fn mended_plan() -> Plan {
    let none = case_images::place(0, 0, 0);
    let mut places = [none; PLACES];
    places[0] = case_images::place(SectionType::KERNEL, 0, 4);
    places[1] = case_images::place(SectionType::COMMAND_LINE, 0, 3);
    places[2] = case_images::place(SectionType::RAMDISK, 0, 6);
    places[3] = case_images::place(SectionType::RAMDISK, 7, 6);
    Plan {
        version: 2,
        flags: 1,
        default_mem: 0,
        default_cpus: 0,
        count: 4,
        places,
    }
}

fn mended(rt: &impl Print, base: &[u8]) -> io::Result<()> {
    let plan = mended_plan();
    let mut fresh = [0u8; 615];
    let image = eif_writer::write(plan, b"Kerna=1mendedsecond", &mut fresh);
    text(rt, b"afresh: ")?;
    case_lines::written(rt, image)?;
    text(rt, b"\n")?;
    both(rt, &fresh, base, b"mended", 2)
}

// Into a room of 8 bytes, for a section.
fn small_room(rt: &impl Print, base: &[u8], replaced: u64) -> io::Result<()> {
    let mut out = [238u8; 8];
    let answered = roll_writer::write_staged(base, &base[..0], replaced, &mut out);
    labelled(rt, b"room 8, section ", replaced)?;
    text(rt, b": ")?;
    case_lines::written(rt, answered)?;
    text(rt, b", ")?;
    hex(rt, &out)?;
    text(rt, b"\n")
}

// What is judged with a replacement of a length, for a section.
fn judged(rt: &impl Print, label: &[u8], base: &[u8], size: u64, section: u64) -> io::Result<()> {
    let answered = staged_view::judge(base, size, 2, section);
    let verdict = answered.verdict;
    text(rt, label)?;
    say(rt, verdict)?;
    text(rt, b"\n")
}

// Over the limit, by the length alone: the base written afresh is 614 bytes, of which the first ramdisk is 5.
fn limits(rt: &impl Print, base: &[u8]) -> io::Result<()> {
    judged(rt, b"at the limit: ", base, 1073741215, 2)?;
    judged(rt, b"one more: ", base, 1073741216, 2)?;
    judged(rt, b"the most: ", base, 18446744073709551615, 2)?;
    judged(rt, b"the most, shown 4: ", base, 18446744073709551615, 4)
}

fn main(rt: HostRuntime) -> io::Result<()> {
    let mut base = [0u8; 614];
    case_images::put_image(&mut base, Shape::BASE, b"Kerna=1firstsecond");
    views(&rt, &base)?;
    damaged(&rt, &base)?;
    mended(&rt, &base)?;
    // a section replaced by its own data
    both(&rt, &base, &base, b"second", 3)?;
    small_room(&rt, &base, 2)?;
    small_room(&rt, &base, 4)?;
    limits(&rt, &base)
}
