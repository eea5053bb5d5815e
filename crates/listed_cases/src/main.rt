// Runs cases of the calls over a reading or a staged view that the caller has already, one line each: with an image's own reading beside the calls that
// read it, and with readings and views of no image.
#![tactic(auto)]

use case_images::Shape;
use case_lines::{hex, labelled, say, tell, text};
use eif::{DataLength, FilePosition, Reading, Section, SectionType};
use staged::Staged;
use std::io;

// More than any image has.
const FAR: u64 = 18446744073709551615;

// ---- the roll from a reading

// With the image's own reading.
fn own_roll(rt: &impl Print, base: &[u8]) -> io::Result<()> {
    let mut plain = [238u8; 82];
    let first = roll_writer::write(base, &mut plain);
    let mut listed = [238u8; 82];
    let second = roll_writer::write_listed(base, eif_reader::read(base), &mut listed);
    text(rt, b"the image's roll: ")?;
    case_lines::written(rt, first)?;
    text(rt, b"; from its reading: ")?;
    case_lines::written(rt, second)?;
    tell(
        rt,
        check::same(&plain, &listed),
        b", equal\n",
        b", different\n",
    )
}

// Whether the fingerprint is SHA-384 of the roll, of 74 bytes.
fn digested(rt: &impl Print, base: &[u8], reading: Reading) -> io::Result<()> {
    let mut out = [0u8; 74];
    let _answered = roll_writer::write_listed(base, reading, &mut out);
    let hashed = sha384::finish(sha384::after(sha384::new(), &out));
    let digest = eif_fingerprint::step(base, reading);
    tell(
        rt,
        check::same(&hashed, &digest),
        b", its digest\n",
        b", another digest\n",
    )
}

// The length, and the roll into 75 bytes.
fn roll_from(rt: &impl Print, label: &[u8], base: &[u8], reading: Reading) -> io::Result<()> {
    let mut out = [238u8; 75];
    let size = roll_writer::length_listed(base, reading);
    let answered = roll_writer::write_listed(base, reading, &mut out);
    text(rt, label)?;
    case_lines::written(rt, size)?;
    text(rt, b"; into 75 bytes: ")?;
    case_lines::written(rt, answered)?;
    text(rt, b", ")?;
    hex(rt, &out)?;
    digested(rt, base, reading)
}

fn section(kind: u16, position: u64, length: u64) -> Section {
    Section {
        kind,
        flags: 0,
        position: FilePosition(position),
        length: DataLength(length),
    }
}

// The image's reading with three sections of no image: in the kernel's data, over the end of the file, and far past it. The last two are of a length.
fn overlapping(base: &[u8], length: u64) -> Reading {
    let mut made = eif_reader::read(base);
    made.sections[1] = section(SectionType::COMMAND_LINE, 561, 3);
    made.sections[2] = section(SectionType::RAMDISK, 609, length);
    made.sections[3] = section(SectionType::RAMDISK, FAR, length);
    made
}

// ---- the staged view from a reading

fn shown<'a>(
    rt: &impl Print,
    base: &'a [u8],
    reading: Reading,
    replaced: u64,
    number: u64,
) -> io::Result<()> {
    labelled(rt, b"replaced ", replaced)?;
    labelled(rt, b", shown ", number)?;
    text(rt, b": ")?;
    let place = staged_view::place_listed(reading, base.len() as u64, 6, replaced, number);
    let verdict = place.verdict;
    say(rt, verdict)?;
    text(rt, b", ")?;
    text(
        rt,
        staged_view::section_listed(base, b"mended", reading, replaced, number),
    )?;
    labelled(rt, b", of the replacement ", place.in_replacement as u64)?;
    labelled(rt, b" from ", place.start)?;
    labelled(rt, b" length ", place.length.0)?;
    text(rt, b"\n")
}

// With the count of no image.
fn counted(rt: &impl Print, base: &[u8], count: u16) -> io::Result<()> {
    let mut made = eif_reader::read(base);
    made.count = count;
    labelled(rt, b"count ", count as u64)?;
    text(rt, b": ")?;
    say(rt, staged_view::verdict_listed(made, 6, 2, 2))?;
    text(rt, b"\n")
}

// ---- roll, registers and fingerprint from a view

fn from_view(rt: &impl Print, label: &[u8], base: &[u8], view: Staged) -> io::Result<()> {
    let mut out = [238u8; 82];
    let answered = roll_writer::write_view(base, b"mended", view, &mut out);
    text(rt, label)?;
    case_lines::written(rt, answered)?;
    text(rt, b", ")?;
    hex(rt, &out)?;
    text(rt, b"\n")
}

// The base's own view: the same digests as the calls that read the base.
fn own_view(rt: &impl Print, base: &[u8]) -> io::Result<()> {
    let view = staged_view::judge_listed(eif_reader::read(base), base.len() as u64, 6, 2, 2);
    from_view(rt, b"the base's view: ", base, view)?;
    let plain = eif_fingerprint::fingerprint_staged(base, b"mended", 2);
    let first = plain.digest;
    let second = eif_fingerprint::step_view(base, b"mended", view);
    tell(
        rt,
        check::same(&first, &second),
        b"fingerprint equal\n",
        b"fingerprint different\n",
    )
}

// The replaced section starts two bytes into the replacement, and ends far past it.
fn other_view(rt: &impl Print, base: &[u8]) -> io::Result<()> {
    let mut view = staged_view::judge_listed(eif_reader::read(base), base.len() as u64, 6, 2, 2);
    view.sections[2] = section(SectionType::RAMDISK, 616, FAR);
    from_view(rt, b"another view: ", base, view)
}

// ---- all

fn rolls(rt: &impl Print, base: &[u8]) -> io::Result<()> {
    own_roll(rt, base)?;
    roll_from(rt, b"overlapping: ", base, overlapping(base, FAR))?;
    roll_from(rt, b"refused: ", base, eif_reader::read(b"no image"))
}

fn views(rt: &impl Print, base: &[u8]) -> io::Result<()> {
    let made = overlapping(base, 1000);
    shown(rt, base, made, 2, 1)?;
    shown(rt, base, made, 2, 2)?;
    shown(rt, base, made, 1, 2)?;
    shown(rt, base, made, 1, 3)?;
    shown(rt, base, made, 4, 3)?;
    shown(rt, base, overlapping(base, FAR), 2, 1)?;
    counted(rt, base, 32)?;
    counted(rt, base, 33)
}

fn main(rt: HostRuntime) -> io::Result<()> {
    let mut base = [0u8; 614];
    case_images::put_image(&mut base, Shape::BASE, b"Kerna=1firstsecond");
    rolls(&rt, &base)?;
    views(&rt, &base)?;
    own_view(&rt, &base)?;
    other_view(&rt, &base)
}
