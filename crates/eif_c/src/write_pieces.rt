// An image written in pieces, for programs in C and Rust (FORMAT.md, Writing in pieces): of a plan, and of a staged view. A state is a value that the
// caller keeps, and every value is a state.
ghost use Rattle.std.specs.Prelude.{◌≡◌, length};
ghost use Rattle.octets.specs.Over.{over};
ghost use Rattle.writing.specs.Writing.{writing_begun, writing_stepped, step_bytes, writing_summed};
ghost use Rattle.staged_writing.specs.StagedWriting.{staged_begun, due_data, staged_stepped};
ghost use Rattle.eif_c.specs.WritePieces.{flat_begun, flat_staged_begun, flat_summed};

use eif::Plan;
use eif_flat::EifAnswer;
use staged_writing::{StagedStepped, StagedWriting};
use writing::{Stepped, Summed, Writing};

// The state, and the answer to `begin`: its length is the image's length.
#[repr(C)]
#[derive(Clone, Copy)]
pub struct EifWritingBegun {
    pub state: Writing,
    pub answer: EifAnswer,
}

// The same for a staged view.
#[repr(C)]
#[derive(Clone, Copy)]
pub struct EifStagedWritingBegun {
    pub state: StagedWriting,
    pub answer: EifAnswer,
}

// The answer to `finish`: its length is the checksum.
fn flat_summed(done: Summed) -> EifAnswer
    ensures { result ≡ flat_summed done }
{
    let verdict = done.verdict;
    eif_flat::answer(verdict, done.checksum as u64)
}

// ---- the image of a plan

#[unsafe(no_mangle)]
pub extern "C" fn eif_writing_begin(plan: Plan, checksum: u32) -> EifWritingBegun
    ensures { result ≡ flat_begun (writing_begun plan checksum) }
{
    let begun = writing::begin(plan, checksum);
    let state = begun.state;
    let written = begun.written;
    EifWritingBegun {
        state,
        answer: eif_flat::flat_written(written),
    }
}

#[unsafe(no_mangle)]
pub extern "C" fn eif_writing_step(state: Writing, lent: &[u8], out: &mut [u8]) -> Stepped
    ensures value { result ≡ writing_stepped state lent.now (length out.old) }
    ensures out_after { out.new ≡ over out.old 0 (step_bytes state lent.now (length out.old)) }
{
    writing::step(state, lent, out)
}

#[unsafe(no_mangle)]
pub extern "C" fn eif_writing_finish(state: Writing) -> EifAnswer
    ensures { result ≡ flat_summed (writing_summed state) }
{
    flat_summed(writing::finish(state))
}

// ---- the image of a staged view

#[unsafe(no_mangle)]
pub extern "C" fn eif_staged_writing_begin(
    base: &[u8],
    replacement: &[u8],
    replaced: u64,
    checksum: u32,
) -> EifStagedWritingBegun
    ensures { result ≡ flat_staged_begun (staged_begun base.now replacement.now replaced checksum) }
{
    let begun = staged_writing::begin(base, replacement, replaced, checksum);
    EifStagedWritingBegun {
        state: begun.state,
        answer: eif_flat::flat_written(begun.written),
    }
}

#[unsafe(no_mangle)]
pub extern "C" fn eif_staged_writing_step<'a>(
    state: StagedWriting,
    base: &'a [u8],
    replacement: &'a [u8],
    out: &mut [u8],
) -> StagedStepped
    ensures value { result ≡ staged_stepped state base.now replacement.now (length out.old) }
    ensures out_after { out.new ≡ over out.old 0 (step_bytes state.writing (due_data state base.now replacement.now) (length out.old)) }
{
    staged_writing::step(state, base, replacement, out)
}

#[unsafe(no_mangle)]
pub extern "C" fn eif_staged_writing_finish(state: StagedWriting) -> EifAnswer
    ensures { result ≡ flat_summed (writing_summed state.writing) }
{
    flat_summed(staged_writing::finish(state))
}
