// Runs cases of reading an image that arrives in pieces, one line each: how it was handed over, how many bytes were taken, and the answer.
#![tactic(auto)]

use arriving::Arriving;
use case_images::{Shape, WORKED_SIZE};
use case_lines::{labelled, say, text};
use eif::{Header, Reading, SectionHeader, Verdict};
use std::io;

// More than any piece here has.
const ALL: u64 = 1000;

// ---- answers

fn fields(rt: &impl Print, reading: Reading) -> io::Result<()> {
    labelled(rt, b", version ", reading.version as u64)?;
    labelled(rt, b", sections ", reading.count as u64)?;
    labelled(rt, b", ramdisk mark ", reading.ramdisk_mark as u64)
}

// The verdict, and the fields beside one that is no refusal.
fn answer(rt: &impl Print, reading: Reading) -> io::Result<()> {
    let verdict = reading.verdict;
    text(rt, b": ")?;
    say(rt, verdict)?;
    if let Verdict::Accepted = verdict {
        fields(rt, reading)?;
    }
    Ok(())
}

// The end is told; the state after it.
fn ends(rt: &impl Print, state: Arriving) -> io::Result<Arriving> {
    let done = arriving::finish(state);
    let reading = done.reading;
    let after = done.state;
    labelled(rt, b": taken ", after.taken)?;
    answer(rt, reading)?;
    text(rt, b"\n")?;
    Ok(after)
}

// ---- pieces

// The bytes from a position on, at most so many.
fn part(image: &[u8], at: usize, size: usize) -> &[u8] {
    if image.len() <= at {
        return &image[..0];
    }
    if image.len() - at <= size {
        return &image[at..];
    }
    &image[at..at + size]
}

fn fed(state: Arriving, piece: &[u8], allowance: u64) -> Arriving {
    let answer = arriving::feed(state, piece, allowance);
    let after = answer.state;
    after
}

// A call whose count is shown.
fn counted(rt: &impl Print, state: Arriving, piece: &[u8], allowance: u64) -> io::Result<Arriving> {
    let answer = arriving::feed(state, piece, allowance);
    let after = answer.state;
    labelled(rt, b", count ", answer.count)?;
    Ok(after)
}

// All of an image in pieces of a size, each with an allowance, up to a call that takes nothing; what a call does not take is handed over again.
// Each call before takes a byte, so that as many as the image has bytes are enough.
fn whole(image: &[u8], size: usize, allowance: u64) -> Arriving {
    let mut state = arriving::begin();
    let mut calls: usize = 0;
    while calls < image.len() {
        let answer = arriving::feed(state, part(image, state.taken as usize, size), allowance);
        let next = answer.state;
        state = next;
        if answer.count == 0 {
            return state;
        }
        calls += 1;
    }
    state
}

// ---- cases

// So many bytes: where an image is cut or ends, what a piece has, what a call may take.
const COUNTS: [usize; 8] = [
    0,
    1,
    2,
    SectionHeader::SIZE - 1,
    SectionHeader::SIZE,
    Header::SIZE - 1,
    Header::SIZE,
    Header::SIZE + 1,
];

// In two pieces.
fn cut(rt: &impl Print, image: &[u8], at: usize) -> io::Result<()> {
    labelled(rt, b"cut at ", at as u64)?;
    let first = fed(arriving::begin(), part(image, 0, at), ALL);
    ends(rt, fed(first, part(image, at, WORKED_SIZE), ALL))?;
    Ok(())
}

// Of the image only so many bytes.
fn short(rt: &impl Print, image: &[u8], size: usize) -> io::Result<()> {
    labelled(rt, b"ends after ", size as u64)?;
    ends(rt, fed(arriving::begin(), part(image, 0, size), ALL))?;
    Ok(())
}

fn of_size(rt: &impl Print, image: &[u8], size: usize) -> io::Result<()> {
    labelled(rt, b"pieces of ", size as u64)?;
    ends(rt, whole(image, size, ALL))?;
    Ok(())
}

fn of_allowance(rt: &impl Print, image: &[u8], allowance: u64) -> io::Result<()> {
    labelled(rt, b"all that is left with allowance ", allowance)?;
    ends(rt, whole(image, WORKED_SIZE, allowance))?;
    Ok(())
}

fn with_count(rt: &impl Print, image: &[u8], count: usize) -> io::Result<()> {
    cut(rt, image, count)?;
    short(rt, image, count)?;
    of_size(rt, image, count)?;
    of_allowance(rt, image, count as u64)
}

fn with_each_count(rt: &impl Print, image: &[u8]) -> io::Result<()> {
    let counts = COUNTS;
    let mut i: usize = 0;
    while i < 8 {
        with_count(rt, image, counts[i])?;
        i += 1;
    }
    Ok(())
}

// Empty pieces before, between and after, and a call that may take nothing.
fn nothing_taken(rt: &impl Print, image: &[u8]) -> io::Result<()> {
    text(rt, b"empty pieces")?;
    let before = counted(rt, arriving::begin(), part(image, 0, 0), ALL)?;
    let half = counted(rt, before, part(image, 0, 300), ALL)?;
    let between = counted(rt, half, part(image, 300, 0), ALL)?;
    let rest = counted(rt, between, part(image, 300, WORKED_SIZE), ALL)?;
    ends(rt, counted(rt, rest, part(image, WORKED_SIZE, 0), ALL)?)?;
    Ok(())
}

fn nothing_allowed(rt: &impl Print, image: &[u8]) -> io::Result<()> {
    text(rt, b"allowance 0, 5 and 1000")?;
    let none = counted(rt, arriving::begin(), image, 0)?;
    let five = counted(rt, none, image, 5)?;
    ends(rt, counted(rt, five, part(image, 5, WORKED_SIZE), ALL)?)?;
    Ok(())
}

// The end is told three times, with a piece after the first, which is not taken.
fn after_the_end(rt: &impl Print, image: &[u8]) -> io::Result<()> {
    text(rt, b"a whole image")?;
    let told = ends(rt, fed(arriving::begin(), image, ALL))?;
    text(rt, b"a piece after the end")?;
    let again = ends(rt, counted(rt, told, image, ALL)?)?;
    text(rt, b"the end once more")?;
    ends(rt, again)?;
    Ok(())
}

// The end told of no bytes: the image that comes then is not read.
fn told_first(rt: &impl Print, image: &[u8]) -> io::Result<()> {
    text(rt, b"the end first")?;
    let told = ends(rt, arriving::begin())?;
    text(rt, b"and an image after it")?;
    ends(rt, counted(rt, told, image, ALL)?)?;
    Ok(())
}

// ---- damage: two bytes at a position

#[derive(Clone, Copy)]
struct Damage {
    at: usize,
    value: u16,
}

// Magic, version, number of sections; section 1 too early, too late, too long, of another size than its own header says; of section 2 a type that is not
// allowed and one that was there; a ramdisk first; no command line; another checksum.
const DAMAGES: [Damage; 12] = [
    Damage { at: 0, value: 0 },
    Damage { at: 4, value: 5 },
    Damage { at: 26, value: 1 },
    Damage { at: 42, value: 560 },
    Damage { at: 42, value: 562 },
    Damage {
        at: 298,
        value: 60000,
    },
    Damage { at: 571, value: 2 },
    Damage { at: 574, value: 9 },
    Damage { at: 574, value: 1 },
    Damage { at: 548, value: 3 },
    Damage { at: 561, value: 3 },
    Damage { at: 544, value: 0 },
];

fn damaged(rt: &impl Print, image: &[u8], damage: Damage, size: usize) -> io::Result<()> {
    let mut other = [0u8; WORKED_SIZE];
    octets::copy(&mut other, 0, part(image, 0, size));
    octets::put_be16(&mut other, damage.at, damage.value);
    labelled(rt, b"damaged at ", damage.at as u64)?;
    let left = part(&other, 0, size);
    ends(rt, whole(left, 11, ALL))?;
    Ok(())
}

fn each_damage(rt: &impl Print, image: &[u8]) -> io::Result<()> {
    let damages = DAMAGES;
    let mut i: usize = 0;
    while i < 12 {
        damaged(rt, image, damages[i], WORKED_SIZE)?;
        i += 1;
    }
    Ok(())
}

// A byte after the last section, in a piece of its own.
fn one_more(rt: &impl Print, image: &[u8]) -> io::Result<()> {
    text(rt, b"one byte more")?;
    let all = fed(arriving::begin(), image, ALL);
    ends(rt, fed(all, b"x", ALL))?;
    Ok(())
}

// A wrong magic number is no answer before the end: the file may end too soon.
fn wrong_magic(rt: &impl Print, image: &[u8]) -> io::Result<()> {
    let damages = DAMAGES;
    damaged(rt, image, damages[0], 4)?;
    damaged(rt, image, damages[0], Header::SIZE - 1)?;
    damaged(rt, image, damages[0], Header::SIZE)
}

fn main(rt: HostRuntime) -> io::Result<()> {
    let mut image = [0u8; WORKED_SIZE];
    case_images::put_image(&mut image, Shape::WORKED, b"Ka");
    with_each_count(&rt, &image)?;
    nothing_taken(&rt, &image)?;
    nothing_allowed(&rt, &image)?;
    after_the_end(&rt, &image)?;
    told_first(&rt, &image)?;
    each_damage(&rt, &image)?;
    wrong_magic(&rt, &image)?;
    one_more(&rt, &image)
}
