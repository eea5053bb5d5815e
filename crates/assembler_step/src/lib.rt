// An assembler of an image whose pieces come in any order and more than once (FORMAT.md, Pieces out of order): one record a call, over a lent
// image buffer and a lent mark buffer with a byte for each piece. The state goes in by value and comes back.
//
// Every call has an answer, for every state, record and pair of buffers. All rules are judged before the first write, so a refusal changes
// nothing. The laws of a run of calls are in assembler_laws.
#![tactic(auto)]

ghost use Rattle.std.specs.Prelude.{◌≡◌, ◌+◌, ◌<◌, ◌≤◌, length, replicate};
ghost use Rattle.octets.specs.Over.{over};
ghost use Rattle.eif.specs.declared.Verdict.TheVariants.{Accepted};
ghost use Rattle.assembler.specs.Records.{data_at, place_in};
ghost use Rattle.assembler.specs.Step.{fresh_state, open_state, stepped, piece_written, piece_marked, step_answer, image_after, marks_after};

use assembler::{PIECE_SIZE, PieceRecord, PieceRecordKind, State, Stepped};
use eif::{RecordHead, Verdict};

// The state before any call.
pub fn new() -> State
    ensures { result ≡ fresh_state }
{
    State {
        opened: 0,
        length: 0,
        room: 0,
        places: 0,
    }
}

// The state after an open, with buffers of these lengths.
fn open_state(length: u64, room: u64, places: u64) -> State
    ensures { result ≡ open_state length room places }
{
    State {
        opened: 1,
        length,
        room,
        places,
    }
}

fn accepted(state: State, length: u64) -> Stepped
    ensures { result ≡ stepped Accepted state length }
{
    Stepped {
        verdict: Verdict::Accepted,
        state,
        length,
    }
}

// Zeroes the first marks.
fn clear(marks: &mut [u8], count: usize)
    requires { count ≤ length marks.old }
    ensures { marks.new ≡ over marks.old 0 (replicate count 0) }
{
    let mut k: usize = 0;
    while k < count {
        marks[k] = 0;
        k += 1;
    }
}

// Writes a piece's bytes and its mark, unless it is held.
fn take_piece(sent: &[u8], image: &mut [u8], marks: &mut [u8])
    requires data_at_in_bounds { data_at ≤ length sent.now }
    requires sent_in_bounds { place_in sent.now < length marks.old }
    ensures image_after { image.new ≡ piece_written sent.now image.old marks.old }
    ensures marks_after { marks.new ≡ piece_marked sent.now marks.old }
{
    let start = octets::le64(sent, PieceRecord::NUMBER_AT);
    let place = (start / PIECE_SIZE) as usize;
    if marks[place] != 0 {
        return;
    }
    octets::copy(image, start as usize, &sent[PieceRecord::DATA_AT..]);
    marks[place] = 1;
}

// One record.
pub fn step(state: State, sent: &[u8], image: &mut [u8], marks: &mut [u8]) -> Stepped
    ensures value { result ≡ step_answer state sent.now image.old marks.old }
    ensures image_after { image.new ≡ image_after state sent.now image.old marks.old }
    ensures marks_after { marks.new ≡ marks_after state sent.now image.old marks.old }
{
    let number = assembler_judge::judge(state, sent, image, marks);
    if number != 0 {
        return Stepped {
            verdict: Verdict::refuse(number, 0),
            state,
            length: 0,
        };
    }
    let kind = octets::le16(sent, RecordHead::TYPE_AT);
    if kind == PieceRecordKind::OPEN {
        let length = octets::le64(sent, PieceRecord::NUMBER_AT);
        let next = open_state(length, image.len() as u64, marks.len() as u64);
        clear(marks, assembler_judge::pieces(length) as usize);
        return accepted(next, 0);
    }
    if kind == PieceRecordKind::PIECE {
        take_piece(sent, image, marks);
        return accepted(state, 0);
    }
    accepted(new(), state.length)
}
