// Runs transfers, one line a call: shuffled with repeats and refusals, the same pieces in another order, buffers that are shorter than at
// open, and marks too short. The image is 8,195 bytes: two whole pieces and one of three bytes. A line has the record, the answer, the state,
// the marks and a sum of the image buffer's bytes.
#![tactic(auto)]

ghost use Rattle.std.specs.Prelude.{◌+◌, ◌≤◌, ◌<◌, length};
ghost use Rattle.assembler.specs.Records.{piece_size, number_size, data_at};

use assembler::{PIECE_SIZE, PieceRecord, PieceRecordKind, State};
use case_lines::{labelled, number, say, tell, text};
use eif::RecordHead;
use std::io;

// The longest record.
const LONGEST: usize = PieceRecord::DATA_AT + PIECE_SIZE as usize;

// ---- lines

fn wide(b: u8) -> u64
    ensures { result < 256 }
{
    b as u64
}

fn list(rt: &impl Print, bytes: &[u8]) -> io::Result<()> {
    let mut i: usize = 0;
    while i < bytes.len() {
        labelled(rt, b" ", wide(bytes[i]))?;
        i += 1;
    }
    Ok(())
}

// A sum in which each byte's place counts.
fn sum(bytes: &[u8]) -> u64 {
    let mut total: u64 = 0;
    let mut i: usize = 0;
    while i < bytes.len() {
        total = (total * 31 + wide(bytes[i])) % 1000003;
        i += 1;
    }
    total
}

fn state_text(rt: &impl Print, state: State) -> io::Result<()> {
    tell(rt, state.opened == 0, b" closed ", b" open ")?;
    number(rt, state.length)
}

// One call, and what it answers and leaves.
fn call(
    rt: &impl Print,
    state: State,
    sent: &[u8],
    image: &mut [u8],
    marks: &mut [u8],
) -> io::Result<State> {
    let stepped = assembler_step::step(state, sent, image, marks);
    let verdict = stepped.verdict;
    let next = stepped.state;
    say(rt, verdict)?;
    labelled(rt, b", ", stepped.length)?;
    state_text(rt, next)?;
    text(rt, b", marks")?;
    list(rt, marks)?;
    labelled(rt, b", sum ", sum(image))?;
    text(rt, b"\n")?;
    Ok(next)
}

// ---- records

// A record to send: its kind, its number, so many bytes of the image from there on, and a mask that changes each of them; and by how much the
// image buffer and the mark buffer are cut for the call.
#[derive(Clone, Copy)]
struct Sending(u16, u64, usize, u8, usize, usize);

// The byte at a place of the image that is sent.
fn content(at: u64) -> u8 {
    let a = at % 65536;
    ((a * 7 + a / 256) % 251) as u8
}

// A piece's data over the whole of a slice.
fn put_data(out: &mut [u8], start: u64, change: u8) {
    let mut i: usize = 0;
    while i < out.len() {
        out[i] = content(start % 65536 + i as u64 % 65536) ^ change;
        i += 1;
    }
}

// The length of what follows the head.
fn size_of(kind: u16, count: usize) -> usize
    requires { count ≤ piece_size }
    ensures { result ≤ number_size + piece_size }
{
    if kind == PieceRecordKind::OPEN {
        return PieceRecord::NUMBER_SIZE as usize;
    }
    if kind == PieceRecordKind::PIECE {
        return PieceRecord::NUMBER_SIZE as usize + count;
    }
    0
}

fn put_head(sent: &mut [u8], size: u64, kind: u16, number: u64) {
    octets::put_le64(sent, RecordHead::LENGTH_AT, size);
    octets::put_le16(sent, RecordHead::TYPE_AT, kind);
    octets::put_le64(sent, PieceRecord::NUMBER_AT, number);
}

fn record_text(rt: &impl Print, s: Sending) -> io::Result<()> {
    labelled(rt, b"kind ", s.0 as u64)?;
    labelled(rt, b" number ", s.1)?;
    labelled(rt, b" bytes ", s.2 as u64)?;
    labelled(rt, b" change ", wide(s.3))?;
    text(rt, b": ")
}

// Makes a record over a slice with room for the longest, and answers its length after the head.
fn make(sent: &mut [u8], s: Sending) -> usize
    requires { data_at + piece_size ≤ length sent.old }
    ensures { result ≤ number_size + piece_size }
{
    let count = octets::lesser(s.2, PIECE_SIZE as usize);
    let size = size_of(s.0, count);
    let end = PieceRecord::DATA_AT + count;
    put_data(&mut sent[PieceRecord::DATA_AT..end], s.1, s.3);
    put_head(sent, size as u64, s.0, s.1);
    size
}

// The call with a record that is made here.
fn send(
    rt: &impl Print,
    state: State,
    s: Sending,
    image: &mut [u8],
    marks: &mut [u8],
) -> io::Result<State> {
    let mut sent = [0u8; LONGEST];
    let size = make(&mut sent, s);
    record_text(rt, s)?;
    call(rt, state, &sent[..RecordHead::SIZE + size], image, marks)
}

// The length of a buffer that is cut.
fn cut(length: usize, by: usize) -> usize
    ensures { result ≤ length }
{
    length - octets::lesser(by, length)
}

fn send_cut(
    rt: &impl Print,
    state: State,
    s: Sending,
    image: &mut [u8],
    marks: &mut [u8],
) -> io::Result<State> {
    let room = cut(image.len(), s.4);
    let places = cut(marks.len(), s.5);
    send(rt, state, s, &mut image[..room], &mut marks[..places])
}

// ---- the cases, a row a call

const ROWS: usize = 35;

const SENDINGS: [Sending; ROWS] = [
    Sending(3, 0, 0, 0, 0, 0),
    Sending(1, 1073741825, 0, 0, 0, 0),
    Sending(1, 1073741824, 0, 0, 0, 0),
    Sending(1, 8205, 0, 0, 0, 0),
    Sending(1, 8195, 0, 0, 0, 0),
    Sending(1, 8195, 0, 0, 0, 0),
    Sending(1, 1073741825, 0, 0, 0, 0),
    Sending(2, 8192, 3, 0, 0, 0),
    Sending(2, 0, 4096, 0, 0, 0),
    Sending(2, 8192, 3, 0, 0, 0),
    Sending(3, 0, 0, 0, 0, 0),
    Sending(2, 0, 4096, 1, 0, 0),
    Sending(2, 1, 4096, 0, 0, 0),
    Sending(2, 12288, 4096, 0, 0, 0),
    Sending(2, 8192, 4096, 0, 0, 0),
    Sending(4, 0, 0, 0, 0, 0),
    Sending(2, 4096, 4096, 0, 0, 0),
    Sending(2, 0, 4096, 0, 0, 0),
    Sending(3, 0, 0, 0, 0, 0),
    Sending(3, 0, 0, 0, 0, 0),
    Sending(1, 0, 0, 0, 0, 0),
    Sending(3, 0, 0, 0, 0, 0),
    Sending(1, 8195, 0, 0, 0, 0),
    Sending(2, 4096, 4096, 0, 0, 0),
    Sending(2, 0, 4096, 0, 0, 0),
    Sending(2, 8192, 3, 0, 0, 0),
    Sending(3, 0, 0, 0, 0, 0),
    Sending(1, 3, 0, 0, 0, 0),
    Sending(2, 1, 3, 0, 1, 0),
    Sending(2, 0, 3, 0, 1, 0),
    Sending(2, 0, 3, 0, 0, 2),
    Sending(3, 0, 0, 0, 0, 2),
    Sending(2, 0, 3, 0, 0, 0),
    Sending(2, 0, 3, 1, 1, 0),
    Sending(1, 8193, 0, 0, 0, 3),
];

// The rows from the first to before the end, from a fresh state.
fn rows(
    rt: &impl Print,
    first: usize,
    end: usize,
    image: &mut [u8],
    marks: &mut [u8],
) -> io::Result<()> {
    let sendings = SENDINGS;
    let bound = octets::lesser(end, ROWS);
    let mut state = assembler_step::new();
    let mut i = first;
    while i < bound {
        let next = send_cut(rt, state, sendings[i], image, marks)?;
        state = next;
        i += 1;
    }
    Ok(())
}

fn transfer(rt: &impl Print, label: &[u8], first: usize, end: usize) -> io::Result<()> {
    let mut image = [9u8; 8204];
    let mut marks = [7u8; 5];
    text(rt, label)?;
    rows(rt, first, end, &mut image, &mut marks)
}

fn main(rt: HostRuntime) -> io::Result<()> {
    transfer(&rt, b"shuffled, with repeats and refusals\n", 0, 22)?;
    transfer(&rt, b"in another order\n", 22, 27)?;
    transfer(&rt, b"buffers shorter than at open\n", 27, 34)?;
    transfer(&rt, b"marks too short\n", 34, ROWS)
}
