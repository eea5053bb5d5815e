// Runs cases of the registers and of the fingerprint of an image that arrives: each image in pieces of several sizes and with several allowances,
// compared with the answers for the whole image. Each image has a line with its results and one with its fingerprint. A size is followed by four
// results: registers and fingerprint in pieces of that size, then both with that allowance. The fingerprint of the whole image is computed twice:
// by eif_fingerprint, and as SHA-384 of the roll that roll_writer writes.
#![tactic(auto)]

use arriving_fingerprint::Fingerprinting;
use arriving_registers::Measuring;
use case_images::{Shape, WORKED_SIZE};
use case_lines::{hex, labelled, say, tell, text};
use eif::{Header, SectionHeader, SectionType, Verdict};
use eif_registers::{Digest, Measurement};
use sha384_block::DIGEST_SIZE;
use std::io;

// Room for the longest image.
const ROOM: usize = 1165;

// More than any piece here has.
const ALL: u64 = 2000;

// ---- the whole image

// SHA-384 of the image's roll as roll_writer writes it; zero for a refused image.
fn roll_digest(image: &[u8]) -> [u8; DIGEST_SIZE] {
    let mut roll = [0u8; ROOM];
    let written = roll_writer::write(image, &mut roll);
    let verdict = written.verdict;
    let Verdict::Accepted = verdict else {
        return [0u8; DIGEST_SIZE];
    };
    let fed = sha384::update(sha384::new(), part(&roll, 0, written.length as usize));
    let state = fed.state;
    sha384::finish(state)
}

// ---- in pieces

// At most `size` bytes of the image from position `at`.
fn part(image: &[u8], at: usize, size: usize) -> &[u8] {
    if image.len() <= at {
        return &image[..0];
    }
    if image.len() - at <= size {
        return &image[at..];
    }
    &image[at..at + size]
}

// The state after the whole image in pieces of `size` bytes, each with `allowance`; stops at a call that takes nothing.
fn measured(image: &[u8], size: usize, allowance: u64) -> Measuring {
    let mut state = arriving_registers::begin();
    let mut calls: usize = 0;
    while calls < image.len() {
        let kept = state.arriving;
        let answer = arriving_registers::feed(
            state,
            part(image, kept.taken as usize, size),
            allowance,
        );
        let next = answer.state;
        state = next;
        if answer.count == 0 {
            return state;
        }
        calls += 1;
    }
    state
}

fn fingerprinted(image: &[u8], size: usize, allowance: u64) -> Fingerprinting {
    let mut state = arriving_fingerprint::begin();
    let mut calls: usize = 0;
    while calls < image.len() {
        let kept = state.arriving;
        let answer = arriving_fingerprint::feed(
            state,
            part(image, kept.taken as usize, size),
            allowance,
        );
        let next = answer.state;
        state = next;
        if answer.count == 0 {
            return state;
        }
        calls += 1;
    }
    state
}

// ---- comparisons

fn same_digest(a: Digest, b: Digest) -> bool {
    let x = a.0;
    let y = b.0;
    check::same(&x, &y)
}

fn same_registers(a: [Digest; 3], b: [Digest; 3]) -> bool {
    if !same_digest(a[0], b[0]) {
        return false;
    }
    if !same_digest(a[1], b[1]) {
        return false;
    }
    same_digest(a[2], b[2])
}

fn same_verdict(a: Verdict, b: Verdict) -> bool {
    eif_flat::number_of(a) == eif_flat::number_of(b)
}

fn registers_agree(image: &[u8], whole: Measurement, size: usize, allowance: u64) -> bool {
    let done = arriving_registers::finish(measured(image, size, allowance));
    let reading = done.reading;
    let verdict = reading.verdict;
    let expected = whole.verdict;
    if !same_verdict(verdict, expected) {
        return false;
    }
    let a = done.registers;
    let b = whole.registers;
    same_registers(a, b)
}

fn fingerprints_agree(image: &[u8], whole: [u8; DIGEST_SIZE], size: usize, allowance: u64) -> bool {
    let done = arriving_fingerprint::finish(fingerprinted(image, size, allowance));
    let digest = done.digest;
    check::same(&digest, &whole)
}

fn compare_once(rt: &impl Print, image: &[u8], size: usize, allowance: u64) -> io::Result<()> {
    let whole = eif_registers::registers(image);
    let roll = roll_digest(image);
    tell(
        rt,
        registers_agree(image, whole, size, allowance),
        b" same",
        b" DIFFERENT",
    )?;
    tell(
        rt,
        fingerprints_agree(image, roll, size, allowance),
        b" same",
        b" DIFFERENT",
    )
}

// ---- cases

const SIZES: [usize; 8] = [
    1,
    5,
    SectionHeader::SIZE,
    128,
    129,
    Header::SIZE,
    Header::SIZE + SectionHeader::SIZE,
    1000,
];

// In pieces of `size` bytes, and with the allowance `size`.
fn with_size(rt: &impl Print, image: &[u8], size: usize) -> io::Result<()> {
    labelled(rt, b"; ", size as u64)?;
    compare_once(rt, image, size, ALL)?;
    compare_once(rt, image, ROOM, size as u64)
}

fn with_each_size(rt: &impl Print, image: &[u8]) -> io::Result<()> {
    let sizes = SIZES;
    let mut i: usize = 0;
    while i < 8 {
        with_size(rt, image, sizes[i])?;
        i += 1;
    }
    Ok(())
}

// The fingerprint of the whole image, and whether it is the digest of the roll.
fn fingerprint(rt: &impl Print, image: &[u8]) -> io::Result<()> {
    let answer = eif_fingerprint::fingerprint(image);
    let digest = answer.digest;
    let roll = roll_digest(image);
    text(rt, b"\n  fingerprint ")?;
    hex(rt, &digest)?;
    tell(rt, check::same(&digest, &roll), b" same\n", b" DIFFERENT\n")
}

fn compare(rt: &impl Print, label: &[u8], image: &[u8]) -> io::Result<()> {
    text(rt, label)?;
    text(rt, b": ")?;
    let read = eif_reader::read(image);
    let verdict = read.verdict;
    say(rt, verdict)?;
    with_each_size(rt, image)?;
    fingerprint(rt, image)
}

fn compare_shape(rt: &impl Print, label: &[u8], shape: Shape, lent: &[u8]) -> io::Result<()> {
    let mut image = [0u8; ROOM];
    let size = case_images::put_image(&mut image, shape, lent);
    compare(rt, label, &image[..size])
}

fn shapes(rt: &impl Print) -> io::Result<()> {
    compare_shape(rt, b"the worked example", Shape::WORKED, b"Ka")?;
    compare_shape(rt, b"no ramdisk", Shape::NO_RAMDISK, b"Ka")?;
    compare_shape(
        rt,
        b"command line before the kernel",
        Shape::COMMAND_LINE_FIRST,
        b"cmdkernelram",
    )?;
    compare_shape(
        rt,
        b"command line between two ramdisks",
        Shape::COMMAND_LINE_BETWEEN,
        b"kernelonecmdtwo",
    )?;
    compare_shape(
        rt,
        b"command line after the ramdisks",
        Shape::COMMAND_LINE_LAST,
        b"kernelonetwocmd",
    )
}

fn long_sections(rt: &impl Print) -> io::Result<()> {
    let lent = [b'x'; 569];
    compare_shape(
        rt,
        b"sections longer than a block",
        case_images::without_flags(2, 4, [1, 2, 3, 3, 0, 0], [129, 127, 13, 300, 0, 0]),
        &lent,
    )
}

fn refused(rt: &impl Print, image: &mut [u8]) -> io::Result<()> {
    octets::put_be16(image, Header::FLAGS_AT, 1);
    compare(rt, b"its checksum wrong", image)?;
    octets::put_be16(image, 598, SectionType::KERNEL);
    compare(rt, b"a second kernel", image)?;
    octets::put_be64(image, Header::OFFSETS_AT + Header::ENTRY_SIZE, 700);
    compare(rt, b"a section elsewhere by the table", image)
}

// ---- the section of the next bytes, and a piece after the end

// Prints what the next thousand bytes belong to, after the first `taken` bytes of an image.
fn span(rt: &impl Print, image: &[u8], taken: usize) -> io::Result<()> {
    let fed = arriving::feed(arriving::begin(), part(image, 0, taken), ALL);
    let state = fed.state;
    let found = arriving_sections::next(state, 1000);
    labelled(rt, b"after ", taken as u64)?;
    labelled(rt, b" bytes: section ", found.place)?;
    labelled(rt, b", together ", found.length)?;
    labelled(rt, b", begun ", found.begun)?;
    text(rt, b"\n")
}

// The rows of FORMAT.md, Check while it arrives.
fn spans(rt: &impl Print) -> io::Result<()> {
    let mut image = [0u8; WORKED_SIZE];
    case_images::put_image(&mut image, Shape::WORKED, b"Ka");
    span(rt, &image, 0)?;
    span(rt, &image, 547)?;
    span(rt, &image, 548)?;
    span(rt, &image, 560)?;
    span(rt, &image, 561)?;
    span(rt, &image, 573)?;
    span(rt, &image, 574)?;
    span(rt, &image, 586)
}

fn after_the_end(rt: &impl Print, image: &[u8]) -> io::Result<()> {
    let done = arriving_registers::finish(measured(image, 100, ALL));
    let ended = done.state;
    let more = arriving_registers::feed(ended, b"more", ALL);
    labelled(rt, b"after the end: registers take ", more.count)?;
    let told = arriving_fingerprint::finish(fingerprinted(image, 100, ALL));
    let last = told.state;
    let again = arriving_fingerprint::feed(last, b"more", ALL);
    labelled(rt, b", the fingerprint takes ", again.count)?;
    text(rt, b"\n")
}

fn main(rt: HostRuntime) -> io::Result<()> {
    let mut image = [0u8; 633];
    case_images::put_image(&mut image, Shape::IN_ORDER, b"kernelcmdfirstsecondthird");
    shapes(&rt)?;
    compare(&rt, b"three ramdisks", &image)?;
    long_sections(&rt)?;
    spans(&rt)?;
    after_the_end(&rt, &image)?;
    refused(&rt, &mut image)?;
    compare(&rt, b"nothing", b"")
}
