// Writes in pieces the image of a staged view: the base with one section replaced, written afresh from base and replacement, with no second image
// (FORMAT.md, Writing in pieces).
//
// The base is read and checksummed by `begin` alone. Each step is lent base and replacement again, and takes the data of the section begun last from
// where it lies. Every public function is total; the laws of a state from `begin` are in staged_writing_laws.
#![tactic(auto)]

ghost use Rattle.std.specs.Prelude.{◌≡◌, length, take, drop};
ghost use Rattle.octets.specs.Over.{over};
ghost use Rattle.eif.specs.Plan.{plan_of};
ghost use Rattle.staged.specs.Listed.{listed_verdict};
ghost use Rattle.staged.specs.Staged.{with_place};
ghost use Rattle.writing.specs.Writing.{step_bytes, writing_summed};
ghost use Rattle.staged_writing.specs.StagedWriting.{refused_begun, listed_begun, staged_begun, base_data, whole_data, due_data, staged_stepped};

use eif::{PLACES, Place, Plan, Reading, SectionHeader, Verdict, Written};
use writing::{Summed, Writing};

// The state of writing, and the number of the replaced section.
#[repr(C)]
#[derive(Clone, Copy)]
pub struct StagedWriting {
    pub writing: Writing,
    pub replaced: u64,
}

// The answer to `begin`: the state, and the length of the image written afresh or a refusal.
#[derive(Clone, Copy)]
pub struct StagedBegun {
    pub state: StagedWriting,
    pub written: Written,
}

// The answer to a step: the state after it, and how many bytes it wrote.
#[repr(C)]
#[derive(Clone, Copy)]
pub struct StagedStepped {
    pub state: StagedWriting,
    pub written: u64,
}

// ---- begin

// The state of a refused view, which writes nothing, and the refusal.
fn refused(verdict: Verdict) -> StagedBegun
    ensures { result ≡ refused_begun verdict }
{
    let state = StagedWriting {
        writing: writing::empty(),
        replaced: 0,
    };
    StagedBegun {
        state,
        written: Written { verdict, length: 0 },
    }
}

// The verdict on the view, and below the plan of its image. Both take the reading where it lies and are called apart, since each copy of it takes
// stack.
#[inline(never)]
fn verdict_over(reading: &Reading, size: u64, replaced: u64) -> Verdict
    ensures { result ≡ listed_verdict reading.now size replaced replaced }
{
    staged_view::verdict_listed(*reading, size, replaced, replaced)
}

#[inline(never)]
fn plan_over(reading: &Reading, replaced: u64, size: u64) -> Plan
    ensures { result ≡ with_place (plan_of reading.now) replaced size }
{
    staged_view::plan_listed(*reading, replaced, size)
}

// Begins from a reading of the base.
#[inline(never)]
fn begin_over(reading: &Reading, size: u64, replaced: u64, checksum: u32) -> StagedBegun
    ensures { result ≡ listed_begun reading.now size replaced checksum }
{
    let verdict = verdict_over(reading, size, replaced);
    let Verdict::Accepted = verdict else {
        return refused(verdict);
    };
    let begun = writing::begin(plan_over(reading, replaced, size), checksum);
    let planned = begun.written.verdict;
    let Verdict::Accepted = planned else {
        return refused(planned);
    };
    StagedBegun {
        state: StagedWriting {
            writing: begun.state,
            replaced,
        },
        written: begun.written,
    }
}

// Begins from a reading of the base, with a replacement of `size` bytes for one section; `checksum` is the number for the checksum field.
pub fn begin_listed(reading: Reading, size: u64, replaced: u64, checksum: u32) -> StagedBegun
    ensures { result ≡ listed_begun reading size replaced checksum }
{
    begin_over(&reading, size, replaced, checksum)
}

// Reads the base and begins.
pub fn begin(base: &[u8], replacement: &[u8], replaced: u64, checksum: u32) -> StagedBegun
    ensures { result ≡ staged_begun base.now replacement.now replaced checksum }
{
    let reading = eif_reader::read(base);
    begin_over(&reading, replacement.len() as u64, replaced, checksum)
}

// ---- a step

// What follows the first `count` bytes; nothing where there are no more.
fn after(bytes: &[u8], count: u64) -> &[u8]
    ensures { result.now ≡ drop count bytes.now }
{
    let skip = octets::lesser(count as usize, bytes.len());
    &bytes[skip..]
}

// The first `count` bytes, or those that there are.
fn first(bytes: &[u8], count: u64) -> &[u8]
    ensures { result.now ≡ take count bytes.now }
{
    &bytes[..octets::lesser(count as usize, bytes.len())]
}

// As many bytes of the base as the place's length says, from after the own header that the base's table has the offset of.
fn base_data(base: &[u8], places: [Place; PLACES], at: u64) -> &[u8]
    ensures { result.now ≡ base_data base.now places at }
{
    if PLACES as u64 <= at {
        return &base[..0];
    }
    let i = at as usize;
    let place = places[i];
    let own = after(base, eif_judge::offset_at(base, i as u8));
    first(after(own, SectionHeader::SIZE as u64), place.length.0)
}

// The data of the section begun last.
fn whole<'a>(state: StagedWriting, base: &'a [u8], replacement: &'a [u8]) -> &'a [u8]
    ensures { result.now ≡ whole_data state base.now replacement.now }
{
    let writing = state.writing;
    let at = octets::past(writing.sections_begun, 1);
    if at == state.replaced {
        return replacement;
    }
    let places = writing.places;
    base_data(base, places, at)
}

// The data that it still needs: the end of its data.
fn due<'a>(state: StagedWriting, base: &'a [u8], replacement: &'a [u8]) -> &'a [u8]
    ensures { result.now ≡ due_data state base.now replacement.now }
{
    let writing = state.writing;
    let bytes = whole(state, base, replacement);
    after(
        bytes,
        octets::past(bytes.len() as u64, writing.section_left),
    )
}

// Writes the image's next bytes over the start of the output; later bytes stay.
pub fn step<'a>(
    state: StagedWriting,
    base: &'a [u8],
    replacement: &'a [u8],
    out: &mut [u8],
) -> StagedStepped
    ensures value { result ≡ staged_stepped state base.now replacement.now (length out.old) }
    ensures out_after { out.new ≡ over out.old 0 (step_bytes state.writing (due_data state base.now replacement.now) (length out.old)) }
{
    let writing = state.writing;
    let data = due(state, base, replacement);
    let answer = writing::step(writing, data, out);
    let next = answer.state;
    let moved = StagedWriting {
        writing: next,
        replaced: state.replaced,
    };
    StagedStepped {
        state: moved,
        written: answer.written,
    }
}

// ---- finish

// 15 where data is missing, otherwise the checksum of the image written afresh.
pub fn finish(state: StagedWriting) -> Summed
    ensures { result ≡ writing_summed state.writing }
{
    let writing = state.writing;
    writing::finish(writing)
}
