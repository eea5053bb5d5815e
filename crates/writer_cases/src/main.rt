// Runs cases of writing an image, one line each: what was asked for, and the writer's answer. Output buffers are
// filled with a pattern first, so that a byte that should stay is seen to stay.
#![tactic(auto)]

use case_images::{Shape, WORKED_SIZE};
use case_lines::{labelled, say, tell, text};
use eif::{Header, Plan, SectionHeader, Verdict};
use std::io;

const LIMIT: u64 = eif::SIZE_LIMIT as u64;

// The data that an image of three sections has where it is as long as the limit.
const LONGEST: u64 = LIMIT - Header::SIZE as u64 - 3 * SectionHeader::SIZE as u64;

// ---- plans

// A plan of so many sections, of which three are given by their types and lengths.
fn plan(version: u16, count: u16, kinds: [u16; 3], lengths: [u64; 3]) -> Plan {
    let none = case_images::place(0, 0, 0);
    let mut places = [none; eif::PLACES];
    places[0] = case_images::place(kinds[0], 0, lengths[0]);
    places[1] = case_images::place(kinds[1], 0, lengths[1]);
    places[2] = case_images::place(kinds[2], 0, lengths[2]);
    Plan {
        version,
        flags: 0,
        default_mem: 0,
        default_cpus: 0,
        count,
        places,
    }
}

// ---- answers

fn attempt(
    rt: &impl Print,
    label: &[u8],
    asked: Plan,
    lent: &[u8],
    out: &mut [u8],
) -> io::Result<()> {
    let written = eif_writer::write(asked, lent, out);
    let verdict = written.verdict;
    text(rt, label)?;
    text(rt, b": ")?;
    match verdict {
        Verdict::Accepted => {
            labelled(rt, b"wrote ", written.length)?;
        }
        Verdict::Refused(_) => say(rt, verdict)?,
    }
    Ok(())
}

// A plan that is refused: the buffer stays as it was.
fn refused_data(rt: &impl Print, label: &[u8], asked: Plan, lent: &[u8]) -> io::Result<()> {
    let before = [0xeeu8; 700];
    let mut out = [0xeeu8; 700];
    attempt(rt, label, asked, lent, &mut out)?;
    tell(
        rt,
        check::same(&out, &before),
        b", untouched\n",
        b", CHANGED\n",
    )
}

// With two bytes of data.
fn refused(rt: &impl Print, label: &[u8], asked: Plan) -> io::Result<()> {
    refused_data(rt, label, asked, b"Ka")
}

// Three types, with a byte of data in the first two sections.
fn types(rt: &impl Print, label: &[u8], version: u16, a: u16, b: u16, c: u16) -> io::Result<()> {
    refused(rt, label, plan(version, 3, [a, b, c], [1, 1, 0]))
}

// Kernel, command line and ramdisk of given lengths.
fn lengths(rt: &impl Print, label: &[u8], count: u16, a: u64, b: u64, c: u64) -> io::Result<()> {
    refused(rt, label, plan(2, count, [1, 2, 3], [a, b, c]))
}

// ---- the worked example, byte for byte

// Built by case_images, without the writer.
fn exact_buffer(rt: &impl Print) -> io::Result<()> {
    let mut image = [0u8; WORKED_SIZE];
    case_images::put_image(&mut image, Shape::WORKED, b"Ka");
    let mut out = [0xeeu8; WORKED_SIZE];
    attempt(
        rt,
        b"the worked example",
        case_images::worked_plan(),
        b"Ka",
        &mut out,
    )?;
    tell(
        rt,
        check::same(&out, &image),
        b", the bytes expected\n",
        b", OTHER BYTES\n",
    )?;
    read_back(rt, &out)
}

fn read_back(rt: &impl Print, image: &[u8]) -> io::Result<()> {
    let reading = eif_reader::read(image);
    let verdict = reading.verdict;
    let sections = reading.sections;
    let second = sections[1];
    text(rt, b"read back: ")?;
    say(rt, verdict)?;
    labelled(rt, b", version ", reading.version as u64)?;
    labelled(rt, b", sections ", reading.count as u64)?;
    labelled(rt, b", second's data at ", second.position.0)?;
    text(rt, b"\n")
}

fn short_buffer(rt: &impl Print) -> io::Result<()> {
    let before = [0xeeu8; WORKED_SIZE - 1];
    let mut out = [0xeeu8; WORKED_SIZE - 1];
    attempt(
        rt,
        b"a buffer of 585",
        case_images::worked_plan(),
        b"Ka",
        &mut out,
    )?;
    tell(
        rt,
        check::same(&out, &before),
        b", untouched\n",
        b", CHANGED\n",
    )
}

fn long_buffer(rt: &impl Print) -> io::Result<()> {
    let mut out = [0xeeu8; WORKED_SIZE + 4];
    attempt(
        rt,
        b"a buffer of 590",
        case_images::worked_plan(),
        b"Ka",
        &mut out,
    )?;
    tail(rt, &out)
}

fn tail(rt: &impl Print, out: &[u8]) -> io::Result<()> {
    if WORKED_SIZE <= out.len() {
        tell(
            rt,
            check::same(&out[WORKED_SIZE..], b"\xee\xee\xee\xee"),
            b", tail kept\n",
            b", TAIL CHANGED\n",
        )?;
    }
    Ok(())
}

// ---- the cases

fn one_at_a_time(rt: &impl Print) -> io::Result<()> {
    types(rt, b"version 1", 1, 1, 2, 3)?;
    types(rt, b"version 5", 5, 1, 2, 3)?;
    lengths(rt, b"count 1", 1, 1, 1, 0)?;
    lengths(rt, b"count 33", 33, 1, 1, 0)?;
    types(rt, b"type 6 first", 2, 6, 2, 3)?;
    types(rt, b"type 0 inner", 2, 1, 0, 3)?;
    types(rt, b"signature in version 2, last", 2, 1, 2, 4)?;
    types(rt, b"metadata in version 3, last", 3, 1, 2, 5)?;
    types(rt, b"ramdisk first", 2, 3, 1, 2)?;
    types(rt, b"ramdisk before the kernel", 2, 2, 3, 1)?;
    types(rt, b"ramdisk last, no kernel", 3, 2, 4, 3)?;
    types(rt, b"kernel twice", 2, 1, 1, 2)?;
    types(rt, b"command line twice, last", 2, 1, 2, 2)?;
    refused(rt, b"no kernel", plan(3, 2, [2, 4, 0], [1, 1, 0]))?;
    types(rt, b"no command line", 2, 1, 3, 3)?;
    types(rt, b"version 4 without metadata", 4, 1, 2, 3)?;
    lengths(rt, b"as long as the limit, no data", 3, LONGEST, 0, 0)?;
    lengths(rt, b"one byte over the limit", 3, LONGEST, 1, 0)?;
    lengths(
        rt,
        b"lengths that pass 2 to the 64",
        3,
        0x8000000000000000,
        0x8000000000000000,
        2,
    )?;
    refused_data(rt, b"data one byte short", case_images::worked_plan(), b"K")?;
    refused_data(
        rt,
        b"data one byte long",
        case_images::worked_plan(),
        b"Kab",
    )
}

// The one that comes first in the order of FORMAT.md, Writing an image, is the answer.
fn two_at_once(rt: &impl Print) -> io::Result<()> {
    refused(rt, b"4 and 5", plan(9, 1, [1, 2, 3], [1, 1, 0]))?;
    refused(rt, b"5 and 9", plan(2, 33, [6, 2, 3], [1, 1, 0]))?;
    types(rt, b"9 at 1, 10 at 2", 2, 2, 6, 3)?;
    types(rt, b"10 at 1, 9 at 2", 2, 2, 3, 6)?;
    types(rt, b"11 at 1, 9 at 2", 2, 1, 1, 6)?;
    types(rt, b"11 at 2 and 12", 2, 1, 3, 1)?;
    refused(rt, b"12 and 1", plan(2, 3, [1, 3, 3], [LIMIT, 0, 0]))?;
    lengths(rt, b"1 and 15", 3, LIMIT, 0, 0)?;
    lengths(rt, b"15, with room for more", 3, 3, 0, 0)
}

fn short_of_both(rt: &impl Print) -> io::Result<()> {
    let before = [0xeeu8; 8];
    let mut out = [0xeeu8; 8];
    attempt(rt, b"15 and 14", case_images::worked_plan(), b"K", &mut out)?;
    tell(
        rt,
        check::same(&out, &before),
        b", untouched\n",
        b", CHANGED\n",
    )
}

// A length past the count enters no sum.
fn past_the_count(rt: &impl Print) -> io::Result<()> {
    let mut out = [0xeeu8; 574];
    attempt(
        rt,
        b"a huge length past the count",
        plan(2, 2, [1, 2, 3], [1, 1, 0xffffffffffffffff]),
        b"Ka",
        &mut out,
    )?;
    text(rt, b"\n")
}

fn main(rt: HostRuntime) -> io::Result<()> {
    exact_buffer(&rt)?;
    short_buffer(&rt)?;
    long_buffer(&rt)?;
    one_at_a_time(&rt)?;
    two_at_once(&rt)?;
    short_of_both(&rt)?;
    past_the_count(&rt)
}
