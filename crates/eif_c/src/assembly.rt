// The assembler of an image from pieces, for programs in C and Rust (FORMAT.md, Pieces out of order). A state is a value that the caller
// keeps, and any value whatever is one.
ghost use Rattle.std.specs.Prelude.{◌≡◌};
ghost use Rattle.assembler.specs.Step.{fresh_state, step_answer, image_after, marks_after};
ghost use Rattle.eif_c.specs.Assembly.{flat_stepped};

use assembler::State;

// The answer to a record; beside a refusal, the state is as it was. `length` is the image length that a close reports. `reserved` is 0.
#[repr(C)]
#[derive(Clone, Copy)]
pub struct EifStepped {
    pub number: u8,
    pub reserved: [u8; 7],
    pub index: u64,
    pub position: u64,
    pub state: State,
    pub length: u64,
}

// The state before any call.
#[unsafe(no_mangle)]
pub extern "C" fn eif_assembler_new() -> State
    ensures { result ≡ fresh_state }
{
    assembler_step::new()
}

#[unsafe(no_mangle)]
pub extern "C" fn eif_assembler_step(
    state: State,
    sent: &[u8],
    image: &mut [u8],
    marks: &mut [u8],
) -> EifStepped
    ensures value { result ≡ flat_stepped (step_answer state sent.now image.old marks.old) }
    ensures image_after { image.new ≡ image_after state sent.now image.old marks.old }
    ensures marks_after { marks.new ≡ marks_after state sent.now image.old marks.old }
{
    let done = assembler_step::step(state, sent, image, marks);
    let verdict = done.verdict;
    let next = done.state;
    EifStepped {
        number: eif_flat::number_of(verdict),
        reserved: [0u8; 7],
        index: eif_flat::index_of(verdict),
        position: eif_flat::position_of(verdict),
        state: next,
        length: done.length,
    }
}
