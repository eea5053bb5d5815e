// An image that comes in pieces, in any order and more than once (FORMAT.md, Pieces out of order): the vocabulary. The definitions stand in
// specs/, the refusals in `assembler_judge`, the call in `assembler_step`.
#![tactic(auto)]

use eif::{RecordHead, Verdict};

// The bytes of every piece but the last.
pub const PIECE_SIZE: u64 = 4096;

// A record's kind.
#[derive(Clone, Copy)]
pub struct PieceRecordKind;

impl PieceRecordKind {
    pub const OPEN: u16 = 1;

    pub const PIECE: u16 = 2;

    pub const CLOSE: u16 = 3;
}

// What follows a record's head: an open's image length, a piece's start and its data.
#[derive(Clone, Copy)]
pub struct PieceRecord;

impl PieceRecord {
    pub const NUMBER_AT: usize = RecordHead::SIZE;

    pub const NUMBER_SIZE: u64 = 8;

    pub const DATA_AT: usize = PieceRecord::NUMBER_AT + PieceRecord::NUMBER_SIZE as usize;
}

// Whether a transfer is open (0: no), its image length, and the lengths of the image buffer and of the mark buffer when it was opened.
#[repr(C)]
#[derive(Clone, Copy)]
pub struct State {
    pub opened: u64,
    pub length: u64,
    pub room: u64,
    pub places: u64,
}

// What a call answers: the verdict, the next state, and at a close the image length, else 0.
#[derive(Clone, Copy)]
pub struct Stepped {
    pub verdict: Verdict,
    pub state: State,
    pub length: u64,
}
