// Computes the three registers of an image that arrives in pieces (FORMAT.md, Registers and Check while it arrives).
//
// Each call takes a state by value and returns the next one, as in arriving: `begin`, then `feed` for each piece, then `finish` at the end of
// the file. A byte is hashed when it arrives, for each stream that contains its section, and is not kept. Every public function is total: its
// contract holds for any state. The laws of runs from the fresh state are in arriving_registers_laws.
#![tactic(auto)]

ghost use Rattle.std.specs.Prelude.{◌≡◌, ◌<◌, ◌≤◌};
ghost use Rattle.eif.specs.Numbers.{place_count};
ghost use Rattle.arriving_sections.specs.Span.{kept_kind};
ghost use Rattle.arriving_registers.specs.Measuring.{ramdisks_at, streams_after, part_taken, taken_all, fresh_measuring, fed_measuring, three_digests, finished_measuring};

use arriving::Arriving;
use eif::{Reading, SectionType, Verdict};
use eif_registers::Digest;
use sha384::State;
use sha384_block::DIGEST_SIZE;

// The hash states of the streams Whole, Boot and App.
#[repr(C)]
#[derive(Clone, Copy)]
pub struct Streams {
    pub whole: State,
    pub boot: State,
    pub app: State,
}

// The state after the bytes taken: what the rules need of them, and the three hash states.
#[repr(C)]
#[derive(Clone, Copy)]
pub struct Measuring {
    pub arriving: Arriving,
    pub streams: Streams,
}

// The answer to a piece: the state after it, and the number of its bytes that were taken.
#[repr(C)]
#[derive(Clone, Copy)]
pub struct Fed {
    pub state: Measuring,
    pub count: u64,
}

// The answer at the end: the state after it, the reading of the bytes taken, and the registers 0, 1 and 2, all zero for a refused image.
#[derive(Clone, Copy)]
pub struct Finished {
    pub state: Measuring,
    pub reading: Reading,
    pub registers: [Digest; 3],
}

// ---- bytes that belong together

// The hash states after data of a section, given its type and the number of ramdisks before it. Whole and Boot are equal before the second
// ramdisk, so their common part is hashed once.
fn hash(from: Streams, kind: u16, ramdisks: usize, bytes: &[u8]) -> Streams
    ensures { result ≡ streams_after from kind ramdisks bytes.now }
{
    if !SectionType::is_boot(kind) {
        return from;
    }
    let start = from.whole;
    let boot = from.boot;
    let app = from.app;
    let whole = sha384::after(start, bytes);
    if stream_reader::is_later(kind, ramdisks) {
        let more = sha384::after(app, bytes);
        return Streams {
            whole,
            boot,
            app: more,
        };
    }
    if ramdisks < 2 {
        return Streams {
            whole,
            boot: whole,
            app,
        };
    }
    let both = sha384::after(boot, bytes);
    Streams {
        whole,
        boot: both,
        app,
    }
}

// The number of ramdisks before a section.
fn ramdisks_before(headers: &[u8], place: usize) -> usize
    requires { place ≤ place_count }
    ensures { result ≡ ramdisks_at (kept_kind headers.now) place }
{
    let mut ramdisks: usize = 0;
    let mut i: usize = 0;
    while i < place {
        ramdisks += stream_reader::ramdisk_in(arriving_sections::kind_at(headers, i as u8));
        i += 1;
    }
    ramdisks
}

// Takes bytes of the data of the section at `place`, or of no section.
fn take_part(state: &mut Measuring, place: u64, bytes: &[u8])
    ensures { state.new ≡ part_taken state.old place bytes.now }
{
    let answer = arriving::feed(state.arriving, bytes, bytes.len() as u64);
    if eif::PLACES as u64 <= place {
        state.arriving = answer.state;
        return;
    }
    state.streams = hash(
        state.streams,
        arriving_sections::kind_at(&state.arriving.headers, place as u8),
        ramdisks_before(&state.arriving.headers, place as usize),
        bytes,
    );
    state.arriving = answer.state;
}

// Takes a piece, part by part. The state is changed where it lies, since each copy of it takes stack.
fn take_bytes(state: &mut Measuring, piece: &[u8])
    ensures { state.new ≡ taken_all state.old piece.now }
{
    let mut at: usize = 0;
    while at < piece.len() {
        let span = arriving_sections::next(state.arriving, (piece.len() - at) as u64);
        let end = at + span.length as usize;
        take_part(state, span.place, &piece[at..end]);
        at = end;
    }
}

// ---- the three calls

// The state before the first byte.
pub fn begin() -> Measuring
    ensures { result ≡ fresh_measuring }
{
    let state = arriving::begin();
    let none = sha384::new();
    Measuring {
        arriving: state,
        streams: Streams {
            whole: none,
            boot: none,
            app: none,
        },
    }
}

// Takes at most `allowance` bytes of a piece; takes none after `finish`.
pub fn feed(mut state: Measuring, piece: &[u8], allowance: u64) -> Fed
    ensures { result ≡ fed_measuring state piece.now allowance }
{
    if state.arriving.ended != 0 {
        return Fed { state, count: 0 };
    }
    let count = octets::lesser(allowance as usize, piece.len());
    take_bytes(&mut state, &piece[..count]);
    Fed {
        state,
        count: count as u64,
    }
}

// The registers of the three hash states; all zero for a refused image.
pub fn digests(verdict: Verdict, streams: &Streams) -> [Digest; 3]
    ensures { result ≡ three_digests verdict streams.now }
{
    let Verdict::Accepted = verdict else {
        let none = [0u8; DIGEST_SIZE];
        return [Digest(none), Digest(none), Digest(none)];
    };
    let zeroth = eif_registers::register(streams.whole);
    let first = eif_registers::register(streams.boot);
    let second = eif_registers::register(streams.app);
    [Digest(zeroth), Digest(first), Digest(second)]
}

// Ends the file and answers its reading and its registers.
pub fn finish(mut state: Measuring) -> Finished
    ensures { result ≡ finished_measuring state }
{
    let reading = arriving::answer(&state.arriving);
    let registers = digests(reading.verdict, &state.streams);
    state.arriving.ended = 1;
    Finished {
        state,
        reading,
        registers,
    }
}
