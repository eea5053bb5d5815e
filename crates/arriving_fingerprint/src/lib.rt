// Computes the fingerprint of an image that arrives in pieces: SHA-384 of its boot roll (FORMAT.md, The boot roll and Check while it arrives).
//
// Each call takes a state by value and returns the next one, as in arriving: `begin`, then `feed` for each piece, then `finish` at the end of
// the file. The flags record is hashed once the file's header is whole, the head of a record once the section's own header is whole, the data
// as it arrives, and the end record at the end. Every public function is total: its contract holds for any state. The laws of runs from the
// fresh state are in arriving_fingerprint_laws.
#![tactic(auto)]

ghost use Rattle.std.specs.Prelude.{◌≡◌, ◌<◌};
ghost use Rattle.eif.specs.Numbers.{place_count};
ghost use Rattle.arriving_fingerprint.specs.Fingerprinting.{record_begun, data_hashed, roll_more, roll_part_taken, roll_taken_all, fresh_fingerprinting, fed_fingerprinting, fingerprint_beside, finished_fingerprinting};

use arriving::Arriving;
use arriving_sections::Span;
use eif::{Header, Reading, RecordHead, SectionType, Verdict};
use sha384::State;
use sha384_block::DIGEST_SIZE;

// The state after the bytes taken: what the rules need of them, and the hash state of the roll.
#[repr(C)]
#[derive(Clone, Copy)]
pub struct Fingerprinting {
    pub arriving: Arriving,
    pub roll: State,
}

// The answer to a piece: the state after it, and the number of its bytes that were taken.
#[repr(C)]
#[derive(Clone, Copy)]
pub struct Fed {
    pub state: Fingerprinting,
    pub count: u64,
}

// The answer at the end: the state after it, the reading of the bytes taken, and their fingerprint, zero for a refused image.
#[derive(Clone, Copy)]
pub struct Finished {
    pub state: Fingerprinting,
    pub reading: Reading,
    pub digest: [u8; DIGEST_SIZE],
}

// ---- records

// The hash state after the head of the record of a section whose own header is whole; the state as it was if a roll leaves the section out.
fn hash_begun(roll: State, header: &[u8], headers: &[u8], i: u64) -> State
    ensures { result ≡ record_begun roll header.now headers.now i }
{
    if eif::PLACES as u64 <= i {
        return roll;
    }
    let place = i as u8;
    let kind = arriving_sections::kind_at(headers, place);
    if SectionType::is_boot(kind) {
        return eif_fingerprint::hash_head(roll, arriving_sections::size_at(header, place), kind);
    }
    roll
}

// The hash state after data of a section; the state as it was if a roll leaves the section out.
fn hash_data(roll: State, headers: &[u8], place: u64, bytes: &[u8]) -> State
    requires { place < place_count }
    ensures { result ≡ data_hashed roll headers.now place bytes.now }
{
    if SectionType::is_boot(arriving_sections::kind_at(headers, place as u8)) {
        return sha384::after(roll, bytes);
    }
    roll
}

// The hash state after bytes that belong together. `header`, `headers`, `to` and `begun` (the number of sections that have begun) are those of
// the state after the bytes; `from` is the number of bytes taken before them.
fn hash_part(
    roll: State,
    header: &[u8],
    headers: &[u8],
    from: u64,
    to: u64,
    span: Span,
    begun: u64,
    bytes: &[u8],
) -> State
    ensures { result ≡ roll_more roll header.now headers.now from to span begun bytes.now }
{
    if from < Header::SIZE as u64 {
        if to < Header::SIZE as u64 {
            return roll;
        }
        return eif_fingerprint::hash_flags(roll, octets::be16(header, Header::FLAGS_AT));
    }
    if span.place < eif::PLACES as u64 {
        return hash_data(roll, headers, span.place, bytes);
    }
    if span.begun < begun {
        return hash_begun(roll, header, headers, span.begun);
    }
    roll
}

// Takes bytes that belong together.
fn take_part(state: &mut Fingerprinting, span: Span, bytes: &[u8])
    ensures { state.new ≡ roll_part_taken state.old span bytes.now }
{
    let before = state.arriving.taken;
    let answer = arriving::feed(state.arriving, bytes, bytes.len() as u64);
    state.arriving = answer.state;
    let then = arriving_sections::next(state.arriving, 0);
    state.roll = hash_part(
        state.roll,
        &state.arriving.header,
        &state.arriving.headers,
        before,
        state.arriving.taken,
        span,
        then.begun,
        bytes,
    );
}

// Takes a piece, part by part. The state is changed where it lies, since each copy of it takes stack.
fn take_bytes(state: &mut Fingerprinting, piece: &[u8])
    ensures { state.new ≡ roll_taken_all state.old piece.now }
{
    let mut at: usize = 0;
    while at < piece.len() {
        let span = arriving_sections::next(state.arriving, (piece.len() - at) as u64);
        let end = at + span.length as usize;
        take_part(state, span, &piece[at..end]);
        at = end;
    }
}

// ---- the three calls

// The state before the first byte.
pub fn begin() -> Fingerprinting
    ensures { result ≡ fresh_fingerprinting }
{
    let state = arriving::begin();
    let none = sha384::new();
    Fingerprinting {
        arriving: state,
        roll: none,
    }
}

// Takes at most `allowance` bytes of a piece; takes none after `finish`.
pub fn feed(mut state: Fingerprinting, piece: &[u8], allowance: u64) -> Fed
    ensures { result ≡ fed_fingerprinting state piece.now allowance }
{
    if state.arriving.ended != 0 {
        return Fed { state, count: 0 };
    }
    let count = octets::lesser(allowance as usize, piece.len());
    take_bytes(&mut state, &piece[..count]);
    Fed {
        state,
        count: count as u64,
    }
}

// The digest of the roll with its end record; zero for a refused image.
fn digest(verdict: Verdict, roll: State) -> [u8; DIGEST_SIZE]
    ensures { result ≡ fingerprint_beside verdict roll }
{
    let Verdict::Accepted = verdict else {
        return [0u8; DIGEST_SIZE];
    };
    let whole = eif_fingerprint::hash_head(roll, 0, RecordHead::END_TYPE);
    sha384::finish(whole)
}

// Ends the file and answers its reading and its fingerprint.
pub fn finish(state: Fingerprinting) -> Finished
    ensures { result ≡ finished_fingerprinting state }
{
    let kept = state.arriving;
    let roll = state.roll;
    let told = arriving::finish(kept);
    let ended = told.state;
    let reading = told.reading;
    let verdict = reading.verdict;
    let whole = digest(verdict, roll);
    Finished {
        state: Fingerprinting {
            arriving: ended,
            roll,
        },
        reading,
        digest: whole,
    }
}
