// Assembles images from records that come over standard input, one after the other, each with its head, in a buffer of 65,536 bytes. At each
// close it writes the rows of the image, or its refusal, as eif_show does. A record that is refused is a line too, and the next one is taken.
//
// A record may say that it is longer than any piece. Its bytes are left out then, as many as it says, and the assembler is handed its start,
// with the length that this start has, which is too long too: it refuses that as it would the whole record. Where the input ends inside a
// record, what came of it is handed over, which its own length makes a refusal.
#![tactic(auto)]

ghost use Rattle.std.specs.Prelude.{◌≡◌, ◌+◌, ◌≤◌, length};
ghost use Rattle.assembler.specs.Records.{piece_size, data_at};

use assembler::{PIECE_SIZE, PieceRecord, State, Stepped};
use eif::{RecordHead, Verdict};
use std::io::{self, Read};

// The longest image, and with it the marks.
const ROOM: usize = 65536;

const PLACES: usize = ROOM / PIECE_SIZE as usize;

// What is kept of a record: one byte more than the longest piece has.
const KEPT: usize = PieceRecord::DATA_AT + PIECE_SIZE as usize + 1;

// What is kept of it after its head.
const KEPT_REST: usize = KEPT - RecordHead::SIZE;

// The most records that are taken: more than any input has.
const RECORDS: u64 = 0xFFFFFFFFFFFFFFFF;

// ---- the input

// At most so many bytes of the input, to a place in a buffer; how many came.
fn read_to<R: Read>(input: &mut R, buffer: &mut [u8], at: usize, want: usize) -> usize
    requires { at + want ≤ length buffer.old }
    ensures { result ≤ want }
{
    block_reader::read_full(input, &mut buffer[at..at + want])
}

// Leaves so many bytes of the input out, at most as many as are kept of a record; how many came.
fn skip_block<R: Read>(input: &mut R, want: usize) -> usize {
    let mut block = [0u8; KEPT_REST];
    let n = octets::lesser(want, KEPT_REST);
    read_to(input, &mut block, 0, n)
}

// Leaves so many bytes of the input out; whether they came.
fn skip<R: Read>(input: &mut R, size: u64) -> bool {
    let mut left = size;
    while 0 < left {
        let want = octets::lesser(left as usize, KEPT_REST);
        if skip_block(input, want) != want {
            return false;
        }
        left -= want as u64;
    }
    true
}

// What came of a record: how many bytes of it are kept, 0 at the end of the input; and whether all of it came.
#[derive(Clone, Copy)]
struct Came {
    count: usize,
    whole: bool,
}

fn read_record<R: Read>(input: &mut R, sent: &mut [u8]) -> Came
    requires { length sent.old ≡ data_at + piece_size + 1 }
    ensures { result.count ≤ data_at + piece_size + 1 }
{
    let head = read_to(input, sent, 0, RecordHead::SIZE);
    if head < RecordHead::SIZE {
        return Came {
            count: head,
            whole: false,
        };
    }
    let size = octets::le64(sent, RecordHead::LENGTH_AT);
    let want = octets::lesser(size as usize, KEPT_REST);
    let rest = read_to(input, sent, RecordHead::SIZE, want);
    let count = RecordHead::SIZE + rest;
    if rest != want {
        return Came {
            count,
            whole: false,
        };
    }
    let whole = skip(input, size - want as u64);
    if whole {
        octets::put_le64(sent, RecordHead::LENGTH_AT, want as u64);
    }
    Came { count, whole }
}

// ---- one record

// An accepted record after which no transfer is open was a close.
fn say(rt: &impl Print, answer: Stepped, image: &[u8]) -> io::Result<()> {
    let verdict = answer.verdict;
    match verdict {
        Verdict::Accepted => {
            if answer.state.opened == 0 {
                let end = octets::lesser(answer.length as usize, image.len());
                eif_print::print(rt, eif_lines::lines(eif_reader::read(&image[..end])))?;
            }
        }
        Verdict::Refused(r) => eif_print::print(rt, eif_lines::refusal(r))?,
    }
    Ok(())
}

// The state after a record, and whether there may be another.
#[derive(Clone, Copy)]
struct Turn {
    state: State,
    more: bool,
}

fn take_record<R: Read>(
    rt: &impl Print,
    input: &mut R,
    state: State,
    image: &mut [u8],
    marks: &mut [u8],
) -> io::Result<Turn> {
    let mut sent = [0u8; KEPT];
    let came = read_record(input, &mut sent);
    let count = came.count;
    if count == 0 {
        return Ok(Turn { state, more: false });
    }
    let answer = assembler_step::step(state, &sent[..count], image, marks);
    let next = answer.state;
    say(rt, answer, image)?;
    Ok(Turn {
        state: next,
        more: came.whole,
    })
}

// The state at the end of the input.
fn take_records<R: Read>(
    rt: &impl Print,
    input: &mut R,
    image: &mut [u8],
    marks: &mut [u8],
) -> io::Result<State> {
    let mut state = assembler_step::new();
    let mut left = RECORDS;
    while 0 < left {
        let turn = take_record(rt, input, state, image, marks)?;
        let next = turn.state;
        state = next;
        if turn.more {
            left -= 1;
        } else {
            left = 0;
        }
    }
    Ok(state)
}

fn main(rt: HostRuntime) -> io::Result<()> {
    let mut image = [0u8; ROOM];
    let mut marks = [0u8; PLACES];
    let state = take_records(&rt, &mut rt.reader(), &mut image, &mut marks)?;
    if state.opened != 0 {
        rt.write_all(b"transfer not closed\n")?;
    }
    Ok(())
}
