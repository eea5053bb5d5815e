// The rules that refuse a record of a transfer (FORMAT.md, Pieces out of order), all of them before anything is written.
#![tactic(auto)]

ghost use Rattle.std.specs.Prelude.{◌≡◌, ◌+◌, ◌<◌, ◌≤◌, length};
ghost use Rattle.assembler.specs.Records.{data_at, number_in, data_in, formed, pieces_of, off_grid, place_in};
ghost use Rattle.assembler.specs.Rules.{all_held, is_held, held_with_other, too_small, short_for, fault_of};
ghost use Rattle.assembler.specs.ByKind.{open_fault, piece_fault, close_fault};

use assembler::{PIECE_SIZE, PieceRecord, PieceRecordKind, State};
use eif::{RecordHead, Refusal};

// ---- the form of a record, and the pieces of an image

// How many pieces an image of a length has.
pub fn pieces(length: u64) -> u64
    ensures { result ≡ pieces_of length }
{
    if length % PIECE_SIZE == 0 {
        length / PIECE_SIZE
    } else {
        length / PIECE_SIZE + 1
    }
}

// Of one of the three forms, start and piece length aside.
fn is_formed(sent: &[u8]) -> bool
    ensures { result ≡ formed sent.now }
{
    if sent.len() < RecordHead::SIZE {
        return false;
    }
    let size = octets::le64(sent, RecordHead::LENGTH_AT);
    if size != (sent.len() - RecordHead::SIZE) as u64 {
        return false;
    }
    let kind = octets::le16(sent, RecordHead::TYPE_AT);
    if kind == PieceRecordKind::OPEN {
        return size == PieceRecord::NUMBER_SIZE;
    }
    if kind == PieceRecordKind::PIECE {
        return PieceRecord::NUMBER_SIZE <= size;
    }
    if kind == PieceRecordKind::CLOSE {
        return size == 0;
    }
    false
}

// A start at or past the image length, off the grid, or a wrong piece length.
fn off_grid(length: u64, start: u64, count: u64) -> bool
    ensures { result ≡ off_grid length start count }
{
    if length <= start {
        return true;
    }
    if start % PIECE_SIZE != 0 {
        return true;
    }
    let left = length - start;
    if left < PIECE_SIZE {
        return count != left;
    }
    count != PIECE_SIZE
}

// ---- the buffers' lengths

// Buffers of these lengths: one is too short for an image or its marks.
fn too_small(length: u64, image: u64, marks: u64) -> bool
    ensures { result ≡ too_small length image marks }
{
    if image < length {
        return true;
    }
    marks < pieces(length)
}

// Or shorter than at open.
fn is_short(state: State, image: u64, marks: u64) -> bool
    ensures { result ≡ short_for state image marks }
{
    if image < state.room {
        return true;
    }
    if marks < state.places {
        return true;
    }
    too_small(state.length, image, marks)
}

// ---- marks and bytes

// Whether no mark is 0.
fn all_held(marks: &[u8]) -> bool
    ensures { result ≡ all_held marks.now }
{
    let mut k: usize = 0;
    while k < marks.len() {
        if marks[k] == 0 {
            return false;
        }
        k += 1;
    }
    true
}

// Whether a piece's mark is anything but 0.
fn is_held(sent: &[u8], marks: &[u8]) -> bool
    requires { place_in sent.now < length marks.now }
    ensures { result ≡ is_held sent.now marks.now }
{
    let place = (octets::le64(sent, PieceRecord::NUMBER_AT) / PIECE_SIZE) as usize;
    marks[place] != 0
}

// Whether a piece is held already with other bytes.
fn is_held_with_other(sent: &[u8], image: &[u8], marks: &[u8]) -> bool
    requires data_at_in_bounds { data_at ≤ length sent.now }
    requires sent_in_bounds { number_in sent.now + length (data_in sent.now) ≤ length image.now }
    requires sent_in_bounds_2 { place_in sent.now < length marks.now }
    ensures { result ≡ held_with_other sent.now image.now marks.now }
{
    if !is_held(sent, marks) {
        return false;
    }
    let from = octets::le64(sent, PieceRecord::NUMBER_AT) as usize;
    let bytes = &sent[PieceRecord::DATA_AT..];
    let standing = &image[from..from + bytes.len()];
    !check::same(standing, bytes)
}

// ---- the first rule that applies, by the record's kind, after its form and turn; 0: none

fn open_fault(length: u64, image: u64, marks: u64) -> u8
    ensures { result ≡ open_fault length image marks }
{
    if (eif::SIZE_LIMIT as u64) < length {
        return Refusal::IMAGE_TOO_LONG;
    }
    if too_small(length, image, marks) {
        return Refusal::BUFFER_TOO_SHORT;
    }
    0
}

fn piece_fault(state: State, sent: &[u8], image: &[u8], marks: &[u8]) -> u8
    requires { data_at ≤ length sent.now }
    ensures { result ≡ piece_fault state sent.now image.now marks.now }
{
    let start = octets::le64(sent, PieceRecord::NUMBER_AT);
    let count = (sent.len() - PieceRecord::DATA_AT) as u64;
    if off_grid(state.length, start, count) {
        return Refusal::PIECE_RECORD_WRONG;
    }
    if is_short(state, image.len() as u64, marks.len() as u64) {
        return Refusal::BUFFER_TOO_SHORT;
    }
    if is_held_with_other(sent, image, marks) {
        return Refusal::PIECE_DIFFERS;
    }
    0
}

fn close_fault(state: State, image: u64, marks: &[u8]) -> u8
    ensures { result ≡ close_fault state image marks.now }
{
    if is_short(state, image, marks.len() as u64) {
        return Refusal::BUFFER_TOO_SHORT;
    }
    let count = pieces(state.length) as usize;
    if all_held(&marks[..count]) {
        return 0;
    }
    Refusal::PIECE_MISSING
}

// The answer number of a record; 0: it is accepted.
pub fn judge(state: State, sent: &[u8], image: &[u8], marks: &[u8]) -> u8
    ensures { result ≡ fault_of state sent.now image.now marks.now }
{
    if !is_formed(sent) {
        return Refusal::PIECE_RECORD_WRONG;
    }
    let kind = octets::le16(sent, RecordHead::TYPE_AT);
    if kind == PieceRecordKind::OPEN {
        if state.opened != 0 {
            return Refusal::PIECE_OUT_OF_TURN;
        }
        let length = octets::le64(sent, PieceRecord::NUMBER_AT);
        return open_fault(length, image.len() as u64, marks.len() as u64);
    }
    if state.opened == 0 {
        return Refusal::PIECE_OUT_OF_TURN;
    }
    if kind == PieceRecordKind::PIECE {
        return piece_fault(state, sent, image, marks);
    }
    close_fault(state, image.len() as u64, marks)
}
