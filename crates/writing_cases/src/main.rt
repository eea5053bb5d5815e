// Runs cases of writing an image in pieces, one line each: the cuts of data and room, what each step took and wrote, the checksum, and whether the
// bytes written are those of the whole writer.
#![tactic(auto)]

use case_images::{Shape, WORKED_SIZE};
use case_lines::{labelled, say, tell, text};
use eif::{Header, PLACES, Plan, Verdict};
use staged_writing::StagedWriting;
use std::io;
use writing::{Stepped, Summed, Writing};

// The longest image here, and more steps than any run here has.
const MOST: usize = 636;

const STEPS: usize = 60;

// ---- plans

// A plan of three sections.
fn plan(
    version: u16,
    flags: u16,
    mem: u64,
    kinds: [u16; 3],
    own_flags: [u16; 3],
    lengths: [u64; 3],
) -> Plan {
    let none = case_images::place(0, 0, 0);
    let mut places = [none; PLACES];
    places[0] = case_images::place(kinds[0], own_flags[0], lengths[0]);
    places[1] = case_images::place(kinds[1], own_flags[1], lengths[1]);
    places[2] = case_images::place(kinds[2], own_flags[2], lengths[2]);
    Plan {
        version,
        flags,
        default_mem: mem,
        default_cpus: 2,
        count: 3,
        places,
    }
}

// Kernel, command line and metadata.
fn with_metadata() -> Plan {
    plan(4, 1, 536870912, [1, 2, 5], [0, 9, 7], [13, 20, 19])
}

// A kernel and a signature without data around a command line.
fn mostly_empty() -> Plan {
    plan(
        3,
        65535,
        18446744073709551615,
        [1, 2, 4],
        [0, 65535, 0],
        [0, 5, 0],
    )
}

// ---- answers

// The image's length, or the refusal.
fn begins(rt: &impl Print, written: eif::Written) -> io::Result<()> {
    text(rt, b": ")?;
    case_lines::written(rt, written)?;
    text(rt, b";")
}

// The checksum, or the refusal.
fn finishes(rt: &impl Print, done: Summed) -> io::Result<()> {
    let verdict = done.verdict;
    text(rt, b"; ")?;
    say(rt, verdict)?;
    labelled(rt, b", checksum ", done.checksum as u64)
}

// Whether the bytes written, with the checksum in its place, are the whole writer's image of a plan and its data.
fn compared(
    rt: &impl Print,
    image: [u8; MOST],
    checksum: u32,
    asked: Plan,
    lent: &[u8],
) -> io::Result<()> {
    let mut summed = image;
    octets::put_be32(&mut summed, Header::CHECKSUM_AT, checksum);
    let mut whole = [0u8; MOST];
    eif_writer::write(asked, lent, &mut whole);
    tell(
        rt,
        check::same(&summed, &whole),
        b", the whole writer's bytes\n",
        b", OTHER BYTES\n",
    )
}

// ---- runs

// The state, how many bytes of data were taken, and the bytes written.
#[derive(Clone, Copy)]
struct Run {
    state: Writing,
    taken: usize,
    written: usize,
    image: [u8; MOST],
}

// At most `cut` of the bytes from a position on.
fn part(bytes: &[u8], at: usize, cut: usize) -> &[u8] {
    if bytes.len() <= at {
        return &bytes[..0];
    }
    if bytes.len() - at <= cut {
        return &bytes[at..];
    }
    &bytes[at..at + cut]
}

// A sum of two numbers that are at most MOST here.
fn sum(a: usize, b: usize) -> usize {
    octets::lesser(a, MOST) + octets::lesser(b, MOST)
}

// A run after a step: what it took and wrote is printed, and the bytes are kept in the image.
fn after(rt: &impl Print, run: Run, answer: Stepped, bytes: &[u8]) -> io::Result<Run> {
    let mut image = run.image;
    let state = answer.state;
    labelled(rt, b" ", answer.taken)?;
    labelled(rt, b"/", answer.written)?;
    octets::copy(
        &mut image,
        run.written,
        part(bytes, 0, answer.written as usize),
    );
    Ok(Run {
        state,
        taken: sum(run.taken, answer.taken as usize),
        written: sum(run.written, answer.written as usize),
        image,
    })
}

// A step with room for this many bytes, of which this program has six sizes.
fn step(rt: &impl Print, run: Run, lent: &[u8], room: usize) -> io::Result<Run> {
    let state = run.state;
    if room == 0 {
        let mut none = [0xeeu8; 0];
        let answer = writing::step(state, lent, &mut none);
        return after(rt, run, answer, &none);
    }
    if room == 11 {
        let mut eleven = [0xeeu8; 11];
        let answer = writing::step(state, lent, &mut eleven);
        return after(rt, run, answer, &eleven);
    }
    if room == 12 {
        let mut twelve = [0xeeu8; 12];
        let answer = writing::step(state, lent, &mut twelve);
        return after(rt, run, answer, &twelve);
    }
    if room == 13 {
        let mut thirteen = [0xeeu8; 13];
        let answer = writing::step(state, lent, &mut thirteen);
        return after(rt, run, answer, &thirteen);
    }
    if room == 300 {
        let mut some = [0xeeu8; 300];
        let answer = writing::step(state, lent, &mut some);
        return after(rt, run, answer, &some);
    }
    let mut wide = [0xeeu8; 1000];
    let answer = writing::step(state, lent, &mut wide);
    after(rt, run, answer, &wide)
}

// Steps with data in cuts of a size and rooms of a size, up to a step that writes nothing.
fn steps(rt: &impl Print, state: Writing, lent: &[u8], cut: usize, room: usize) -> io::Result<Run> {
    let mut run = Run {
        state,
        taken: 0,
        written: 0,
        image: [0u8; MOST],
    };
    let mut i: usize = 0;
    while i < STEPS {
        let before = run.written;
        let next = step(rt, run, part(lent, run.taken, cut), room)?;
        run = next;
        if run.written == before {
            return Ok(run);
        }
        i += 1;
    }
    Ok(run)
}

// The image of a plan, and beside it that of the whole writer.
fn run_of(
    rt: &impl Print,
    label: &[u8],
    asked: Plan,
    field: u32,
    lent: &[u8],
    cut: usize,
    room: usize,
    size: usize,
) -> io::Result<()> {
    text(rt, label)?;
    let begun = writing::begin(asked, field);
    let state = begun.state;
    let written = begun.written;
    begins(rt, written)?;
    let run = steps(rt, state, lent, cut, room)?;
    let last = run.state;
    let image = run.image;
    let done = writing::finish(last);
    finishes(rt, done)?;
    compared(rt, image, done.checksum, asked, part(lent, 0, size))
}

// A run that ends before the image is complete: what finish answers.
fn part_of(
    rt: &impl Print,
    label: &[u8],
    asked: Plan,
    field: u32,
    lent: &[u8],
    cut: usize,
    room: usize,
) -> io::Result<()> {
    text(rt, label)?;
    let begun = writing::begin(asked, field);
    let state = begun.state;
    let written = begun.written;
    begins(rt, written)?;
    let run = steps(rt, state, lent, cut, room)?;
    let last = run.state;
    finishes(rt, writing::finish(last))?;
    labelled(rt, b", taken ", run.taken as u64)?;
    labelled(rt, b", written ", run.written as u64)?;
    text(rt, b"\n")
}

// ---- plans

const LETTERS: [u8; 52] = *b"abcdefghijklmnopqrstuvwxyzabcdefghijklmnopqrstuvwxyz";

fn plans(rt: &impl Print) -> io::Result<()> {
    let letters = LETTERS;
    run_of(
        rt,
        b"the worked example",
        case_images::worked_plan(),
        0,
        b"ab",
        1000,
        1000,
        2,
    )?;
    run_of(
        rt,
        b"with its checksum",
        case_images::worked_plan(),
        4106132893,
        b"ab",
        1000,
        1000,
        2,
    )?;
    run_of(
        rt,
        b"cuts of 7, room 13",
        with_metadata(),
        0,
        &letters,
        7,
        13,
        52,
    )?;
    run_of(
        rt,
        b"cuts of 1, room 300",
        with_metadata(),
        0,
        &letters,
        1,
        300,
        52,
    )?;
    run_of(rt, b"room 12", with_metadata(), 0, &letters, 1000, 12, 52)?;
    run_of(
        rt,
        b"sections without data",
        mostly_empty(),
        0,
        b"abcde",
        3,
        300,
        5,
    )?;
    run_of(
        rt,
        b"more data than is planned",
        mostly_empty(),
        0,
        b"abcdefgh",
        1000,
        1000,
        5,
    )?;
    part_of(rt, b"room 11", with_metadata(), 0, &letters, 1000, 11)?;
    part_of(rt, b"no room", mostly_empty(), 0, b"abcde", 1000, 0)?;
    part_of(rt, b"data missing", mostly_empty(), 0, b"abcd", 1000, 1000)?;
    part_of(
        rt,
        b"no data needed, nothing written",
        plan(2, 0, 0, [1, 2, 3], [0, 0, 0], [0, 0, 0]),
        0,
        b"ab",
        1000,
        0,
    )?;
    part_of(
        rt,
        b"a refused plan",
        plan(4, 0, 0, [1, 2, 3], [0, 0, 0], [1, 1, 0]),
        7,
        b"ab",
        1000,
        1000,
    )
}

// ---- staged views

// The state, and the bytes written.
#[derive(Clone, Copy)]
struct StagedRun {
    state: StagedWriting,
    written: usize,
    image: [u8; MOST],
}

// One step with a room of 300 bytes.
fn staged_step<'a>(
    rt: &impl Print,
    run: StagedRun,
    base: &'a [u8],
    replacement: &'a [u8],
) -> io::Result<StagedRun> {
    let state = run.state;
    let mut image = run.image;
    let mut room = [0xeeu8; 300];
    let answer = staged_writing::step(state, base, replacement, &mut room);
    labelled(rt, b" ", answer.written)?;
    octets::copy(
        &mut image,
        run.written,
        part(&room, 0, answer.written as usize),
    );
    let after = answer.state;
    Ok(StagedRun {
        state: after,
        written: sum(run.written, answer.written as usize),
        image,
    })
}

// Steps up to one that writes nothing.
fn staged_steps<'a>(
    rt: &impl Print,
    state: StagedWriting,
    base: &'a [u8],
    replacement: &'a [u8],
) -> io::Result<StagedRun> {
    let mut run = StagedRun {
        state,
        written: 0,
        image: [0u8; MOST],
    };
    let mut i: usize = 0;
    while i < STEPS {
        let before = run.written;
        let next = staged_step(rt, run, base, replacement)?;
        run = next;
        if run.written == before {
            return Ok(run);
        }
        i += 1;
    }
    Ok(run)
}

// One section of a base replaced, and beside it the whole writer's image of a plan and its data.
fn staged<'a>(
    rt: &impl Print,
    label: &[u8],
    base: &'a [u8],
    replacement: &'a [u8],
    replaced: u64,
    asked: Plan,
    lent: &[u8],
) -> io::Result<()> {
    text(rt, label)?;
    let begun = staged_writing::begin(base, replacement, replaced, 0);
    let state = begun.state;
    let written = begun.written;
    let verdict = written.verdict;
    begins(rt, written)?;
    let run = staged_steps(rt, state, base, replacement)?;
    let last = run.state;
    let image = run.image;
    let done = staged_writing::finish(last);
    finishes(rt, done)?;
    let Verdict::Accepted = verdict else {
        labelled(rt, b", written ", run.written as u64)?;
        text(rt, b"\n")?;
        return Ok(());
    };
    compared(rt, image, done.checksum, asked, lent)
}

// The plan of the worked example with other lengths.
fn lengths(a: u64, b: u64, c: u64) -> Plan {
    let made = plan(2, 0, 0, [1, 2, 3], [0, 0, 0], [a, b, c]);
    let places = made.places;
    Plan {
        version: 2,
        flags: 0,
        default_mem: 0,
        default_cpus: 0,
        count: 3,
        places,
    }
}

// Sections of the worked example replaced.
fn staged_views(rt: &impl Print, base: &[u8]) -> io::Result<()> {
    staged(
        rt,
        b"ramdisk replaced",
        base,
        b"rs",
        2,
        lengths(1, 1, 2),
        b"Kars",
    )?;
    staged(
        rt,
        b"kernel replaced",
        base,
        b"abcdefghijklmnopqrst",
        0,
        lengths(20, 1, 0),
        b"abcdefghijklmnopqrsta",
    )?;
    staged(
        rt,
        b"command line replaced by none",
        base,
        b"",
        1,
        lengths(1, 0, 0),
        b"K",
    )?;
    staged(
        rt,
        b"no such section",
        base,
        b"rs",
        3,
        lengths(0, 0, 0),
        b"x",
    )
}

// The base's refusal comes first.
fn refused_base(rt: &impl Print, base: &[u8]) -> io::Result<()> {
    let mut other = [0u8; WORKED_SIZE];
    octets::copy(&mut other, 0, base);
    case_images::put_header(&mut other, 9, 0, 3);
    staged(
        rt,
        b"a refused base",
        &other,
        b"rs",
        9,
        lengths(0, 0, 0),
        b"x",
    )
}

fn main(rt: HostRuntime) -> io::Result<()> {
    plans(&rt)?;
    let mut base = [0u8; WORKED_SIZE];
    case_images::put_image(&mut base, Shape::WORKED, b"Ka");
    staged_views(&rt, &base)?;
    refused_base(&rt, &base)
}
