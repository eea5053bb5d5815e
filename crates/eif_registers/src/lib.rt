// The three registers of an image (FORMAT.md, Registers): of each measured stream, SHA-384 of forty-eight zero bytes followed by the
// stream's SHA-384.
//
// The streams are hashed where they lie in the image, section by section, with no copy. Where Whole and Boot begin alike, that is hashed
// once for both. Of a staged view a section lies in the base or in the replacement; with nothing replaced the view is the image.
#![tactic(auto)]

ghost use Rattle.std.specs.Prelude.{◌≡◌, true, ◌≤◌, [], ◌∷◌, take, get_or};
ghost use Rattle.std.proofs.Math.Seq.{slice};
ghost use Rattle.eif.specs.Numbers.{place_count};
ghost use Rattle.sha384.specs.State.{initial_state, digest_from};
ghost use Rattle.staged.specs.View.{held_by};
ghost use Rattle.eif_registers.specs.Registers.{register_from, no_registers, registers_for, registers_answer, staged_registers, hashed, step_registers, read_registers, view_registers};

use eif::{PLACES, Reading, Section, Stream, StreamSections, Verdict};
use sha384::State;
use sha384_block::DIGEST_SIZE;
use staged::Staged;

#[repr(C)]
#[derive(Clone, Copy)]
pub struct Digest(pub [u8; DIGEST_SIZE]);

// An image's verdict and its registers 0, 1 and 2.
#[derive(Clone, Copy)]
pub struct Measurement {
    pub verdict: Verdict,
    pub registers: [Digest; 3],
}

// ---- hashing sections where they lie

// The state after the data of the sections from a place up to another.
fn take_sections<'a>(
    state: State,
    base: &'a [u8],
    replacement: &'a [u8],
    sections: [Section; PLACES],
    from: usize,
    to: usize,
) -> State
    requires { (from ≤ to) × (to ≤ place_count) }
    ensures { result ≡ hashed (held_by base.now replacement.now) state (slice from to sections) }
{
    let mut st = state;
    let mut i = from;
    while i < to {
        let section = sections[i];
        let updated = sha384::update(st, staged_view::held(base, replacement, section));
        let next = updated.state;
        st = next;
        i += 1;
    }
    st
}

// ---- two streams that begin alike

fn is_same(a: Section, b: Section) -> bool
    ensures { result ≡ true → a ≡ b }
{
    if a.kind != b.kind {
        return false;
    }
    if a.flags != b.flags {
        return false;
    }
    if a.position.0 != b.position.0 {
        return false;
    }
    a.length.0 == b.length.0
}

// How many sections two lists have in common at their start, of at most so many.
fn alike(a: [Section; PLACES], b: [Section; PLACES], most: usize) -> usize
    requires { most ≤ place_count }
    ensures { (result ≤ most) × (take result a ≡ take result b) }
{
    let mut i: usize = 0;
    while i < most {
        if !is_same(a[i], b[i]) {
            return i;
        }
        i += 1;
    }
    i
}

#[derive(Clone, Copy)]
struct States {
    whole: State,
    boot: State,
}

// The states of Whole and Boot. What their sections begin with alike is hashed once: a state is a value, and may be gone on from.
fn hash_both<'a>(
    base: &'a [u8],
    replacement: &'a [u8],
    whole: StreamSections,
    boot: StreamSections,
) -> States
    requires { (whole.count ≤ place_count) × (boot.count ≤ place_count) }
    ensures whole_value { result.whole ≡ hashed (held_by base.now replacement.now) initial_state (take whole.count whole.sections) }
    ensures boot_value { result.boot ≡ hashed (held_by base.now replacement.now) initial_state (take boot.count boot.sections) }
{
    let a = whole.sections;
    let b = boot.sections;
    let shared = alike(
        a,
        b,
        octets::lesser(whole.count as usize, boot.count as usize),
    );
    let start = take_sections(sha384::new(), base, replacement, a, 0, shared);
    let whole_end = take_sections(start, base, replacement, a, shared, whole.count as usize);
    let boot_end = take_sections(start, base, replacement, b, shared, boot.count as usize);
    States {
        whole: whole_end,
        boot: boot_end,
    }
}

// ---- the registers

// The register that a stream's state stands for.
pub fn register(state: State) -> [u8; DIGEST_SIZE]
    ensures { result ≡ register_from (digest_from state) }
{
    let digest = sha384::finish(state);
    let mut both = [0u8; 2 * DIGEST_SIZE];
    octets::copy(&mut both, DIGEST_SIZE, &digest);
    let updated = sha384::update(sha384::new(), &both);
    let last = updated.state;
    sha384::finish(last)
}

// The registers 0, 1 and 2 of sections of a base, or of a replacement.
fn step_over<'a>(
    base: &'a [u8],
    replacement: &'a [u8],
    all: [Section; PLACES],
) -> [[u8; DIGEST_SIZE]; 3]
    ensures { result ≡ step_registers (held_by base.now replacement.now) all }
{
    let whole = stream_reader::sections(all, Stream::Whole);
    let boot = stream_reader::sections(all, Stream::Boot);
    let app = stream_reader::sections(all, Stream::App);
    let both = hash_both(base, replacement, whole, boot);
    let others = app.sections;
    let app_end = take_sections(
        sha384::new(),
        base,
        replacement,
        others,
        0,
        app.count as usize,
    );
    let whole_end = both.whole;
    let boot_end = both.boot;
    let zeroth = register(whole_end);
    let first = register(boot_end);
    let second = register(app_end);
    [zeroth, first, second]
}

// The registers 0, 1 and 2 from an image already read; all zero for a refused reading.
pub fn step(image: &[u8], reading: Reading) -> [[u8; DIGEST_SIZE]; 3]
    ensures { result ≡ read_registers image.now reading }
{
    let verdict = reading.verdict;
    let Verdict::Accepted = verdict else {
        let none = [0u8; DIGEST_SIZE];
        return [none, none, none];
    };
    let all = reading.sections;
    step_over(image, &image[..0], all)
}

// The same from a staged view that the caller has already; all zero for a refused view.
pub fn step_view<'a>(base: &'a [u8], replacement: &'a [u8], view: Staged) -> [[u8; DIGEST_SIZE]; 3]
    ensures { result ≡ view_registers base.now replacement.now view }
{
    let verdict = view.verdict;
    let Verdict::Accepted = verdict else {
        let none = [0u8; DIGEST_SIZE];
        return [none, none, none];
    };
    let all = view.sections;
    step_over(base, replacement, all)
}

// An answer with these three.
fn measured(all: [[u8; DIGEST_SIZE]; 3]) -> Measurement
    ensures { result ≡ registers_for Verdict.Accepted (get_or all 0 [] ∷ get_or all 1 [] ∷ get_or all 2 [] ∷ []) }
{
    let zeroth = all[0];
    let first = all[1];
    let second = all[2];
    Measurement {
        verdict: Verdict::Accepted,
        registers: [Digest(zeroth), Digest(first), Digest(second)],
    }
}

// A refusal, beside which they are zero.
fn refused(verdict: Verdict) -> Measurement
    ensures { result ≡ registers_for verdict no_registers }
{
    let none = [0u8; DIGEST_SIZE];
    Measurement {
        verdict,
        registers: [Digest(none), Digest(none), Digest(none)],
    }
}

// The registers of an image; or its refusal, and all zero.
pub fn registers(image: &[u8]) -> Measurement
    ensures { result ≡ registers_answer image.now }
{
    let reading = eif_reader::read(image);
    let verdict = reading.verdict;
    let Verdict::Accepted = verdict else {
        return refused(verdict);
    };
    let all = step(image, reading);
    measured(all)
}

// The registers of the image written afresh with a replacement for one section, from where the data lies; or the refusal, and all zero.
pub fn registers_staged<'a>(base: &'a [u8], replacement: &'a [u8], replaced: u64) -> Measurement
    ensures { result ≡ staged_registers base.now replacement.now replaced }
{
    let view = staged_view::judge(base, replacement.len() as u64, replaced, replaced);
    let verdict = view.verdict;
    let Verdict::Accepted = verdict else {
        return refused(verdict);
    };
    let all = step_view(base, replacement, view);
    measured(all)
}
