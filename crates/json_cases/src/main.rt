// Texts and bytes that are none through `json_check::check`, a line each: a label, and `text` or the place of the fault. They come over
// standard input, a label, a tab and the bytes to a line, where %XX is the byte of two hexadecimal digits. Each production of RFC 8259 and
// of RFC 3629 is accepted and refused; the answers in the file `stdout` were made from the RFCs.
#![tactic(auto)]

ghost use Rattle.std.specs.Prelude.{◌+◌, ◌≤◌, ◌<◌, length};

use json_grammar::JsonFault;
use std::io::{self, Write};

// The most bytes to a line; more get no answer.
const LONGEST: usize = 512;

// ---- answers

fn write<W: Write>(out: &mut W, bytes: &[u8]) -> io::Result<()> {
    out.write_all(bytes)
}

fn answer<W: Write>(out: &mut W, text: &[u8]) -> io::Result<()> {
    match json_check::check(text) {
        Ok(()) => write(out, b"text")?,
        Err(JsonFault { place }) => write!(out, "fault at {place}")?,
    }
    write(out, b"\n")
}

// ---- the bytes of a line

// The value of a hexadecimal digit, and 0 for any other byte.
fn digit(b: u8) -> u8
    ensures { result < 16 }
{
    match b {
        b'0'..=b'9' => b - b'0',
        b'A'..=b'F' => b - b'A' + 10,
        _ => 0,
    }
}

// A byte, and in how many it was written.
#[derive(Clone, Copy)]
struct Written {
    byte: u8,
    width: usize,
}

fn byte_at(line: &[u8], at: usize) -> Written
    requires { at < length line.now }
    ensures { (1 ≤ result.width) × (at + result.width ≤ length line.now) }
{
    let b = line[at];
    if b != b'%' {
        return Written { byte: b, width: 1 };
    }
    if line.len() - at < 3 {
        return Written { byte: b, width: 1 };
    }
    Written {
        byte: digit(line[at + 1]) * 16 + digit(line[at + 2]),
        width: 3,
    }
}

// The answer to the first n bytes, where there are so many.
fn answer_first<W: Write>(out: &mut W, text: &[u8], n: usize) -> io::Result<()> {
    if n <= text.len() {
        answer(out, &text[0..n])?;
    }
    Ok(())
}

fn check<W: Write>(out: &mut W, line: &[u8]) -> io::Result<()> {
    let mut text = [0u8; LONGEST];
    let mut n: usize = 0;
    let mut at: usize = 0;
    while at < line.len() {
        if n == LONGEST {
            return Ok(());
        }
        let next = byte_at(line, at);
        text[n] = next.byte;
        n += 1;
        at += next.width;
    }
    answer_first(out, &text, n)
}

// ---- the lines

fn row<W: Write>(out: &mut W, line: &[u8]) -> io::Result<()> {
    let label = line.iter().position(|b| *b == b'\t');
    let Some(end) = label else {
        write(out, line)?;
        return write(out, b": ");
    };
    write(out, &line[..end])?;
    write(out, b": ")?;
    check(out, &line[end + 1..])
}

fn rows<W: Write>(out: &mut W, input: &[u8]) -> io::Result<()> {
    for line in input.split_inclusive(|b| *b == b'\n') {
        row(out, line.strip_suffix(b"\n").unwrap_or(line))?;
    }
    Ok(())
}

fn main(rt: HostRuntime) -> io::Result<()> {
    let mut input = [0u8; 16384];
    let n = block_reader::read_full(&mut rt.reader(), &mut input);
    rows(&mut io::writer(&rt), &input[..n])
}
