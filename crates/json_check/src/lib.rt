// The checker of JSON: whether bytes are one RFC 8259 text in UTF-8 with at most 32 arrays or objects open at once, or where they stop
// being one. What it answers is said of the grammar, in the crate json_grammar.
//
// Outside strings each byte takes one lookup for its class and one for the entry of its class and mode; the byte after a number takes a
// third. Inside strings, blocks of eight bytes that stand for themselves are passed at once, and so is a character beyond ASCII, but near the
// end of the text. The open arrays and objects are a stack of bits in one number: there is no recursion, and the time is linear.
#![tactic(auto)]

mod tables;

ghost use Rattle.std.specs.Prelude.{◌≡◌, ℕ, ◌+◌, ◌<◌, ◌≤◌, true, false, length, drop, MatchOption};
ghost use Rattle.json_grammar.specs.Verdict.{IsVerdict};
ghost use Rattle.json_machine.specs.Table.{classes};
ghost use Rattle.json_machine.specs.Machine.{fault_entry, after_of, act_of, kind_of, turn_mode, turn_stack, ends_of, walk_from, json_verdict};
ghost use Rattle.json_check.specs.Columns.{columns};
ghost use Rattle.json_check.specs.Bare.{bare, BareRun, Skipped};

use json_grammar::JsonFault;

// With a stack below this, one more array or object may be opened: a bit for each of those open, and one in front.
const STACK_LIMIT: u64 = 1 << json_grammar::DEPTH_LIMIT;

// The stack with nothing open.
const NOTHING_OPEN: u64 = 1;

// Where the machine stands: a mode (tables.rt), and what is open.
#[derive(Clone, Copy)]
struct State {
    mode: usize,
    stack: u64,
}

// Modes and entries of the tables are numbers and no enum: an index is computed from a mode at each byte, and json_machine's definitions number them.
// The modes that the code names, of those of tables.rt: where a value, an array and an object begin, after a value with nothing open, in an
// array and in an object, and in a number that may end.
const VALUE: usize = 0;

const FIRST_ITEM: usize = 1;

const FIRST_MEMBER: usize = 2;

const AFTER_TEXT: usize = 5;

const AFTER_ITEM: usize = 6;

const AFTER_MEMBER: usize = 7;

const ZERO: usize = 9;

const WHOLE: usize = 10;

const FRACTION: usize = 12;

const POWER: usize = 15;

const CHAR: usize = 25;

const NAME_CHAR: usize = 38;

// The mode that is none: no text goes on like this.
const FAULT: usize = 51;

// The other entries of the tables: a value ends here, a number ended before this byte, an array or an object is opened, the innermost
// is closed.
const STOP: usize = 52;

const AGAIN: usize = 53;

const OPEN_ARRAY: usize = 54;

const OPEN_OBJECT: usize = 55;

const CLOSE: usize = 56;

// How many bytes must be left for a character beyond ASCII to be passed at once: its own, at most four, and the eight after it, which are tested
// with no look at the end of the text. Where fewer are left, the tables decide.
const ROOM_SIZE: usize = 12;

// How many values a byte has, each of one class.
const BYTES: usize = 256;

// The number of classes of bytes.
const CLASSES: usize = 40;

// The number of modes: each has a number below that of FAULT.
const MODES: usize = FAULT;

fn wide(x: u8) -> usize
    ensures { result ≡ x }
{
    x as usize
}

// The mode after a value: with nothing open, in an array, in an object.
fn after(stack: u64) -> usize
    ensures { (result ≡ after_of stack) × (result < fault_entry) }
{
    if stack == NOTHING_OPEN {
        return AFTER_TEXT;
    }
    if stack % 2 == 0 {
        return AFTER_ITEM;
    }
    AFTER_MEMBER
}

// The entry of the tables for a byte. If a number ended before it, this is the entry of the mode after a value. The table is kept class by
// class, so the mode is only added to an index: the time from one mode to the next is that of one load.
fn act<'a>(
    class: &'a [u8; BYTES],
    next: &'a [u8; MODES * CLASSES],
    mode: usize,
    stack: u64,
    b: u8,
) -> usize
    requires { (class.now ≡ classes) × (next.now ≡ columns) × (mode < fault_entry) }
    ensures { result ≡ act_of mode stack b }
{
    let c = wide(class[wide(b)]);
    let first = wide(next[c * MODES + mode]);
    if first == AGAIN {
        let m = after(stack);
        return wide(next[c * MODES + m]);
    }
    first
}

// Where an entry of the tables leads: to a mode, or where it says one of the others. Nowhere at a fault, and at an array or object too many.
fn turn(act: usize, stack: u64) -> Option<State>
    ensures { MatchOption result
        (turn_mode (kind_of act) act stack ≡ fault_entry)
        (λ to. (to.mode ≡ turn_mode (kind_of act) act stack) × (to.stack ≡ turn_stack (kind_of act) stack) × (to.mode < fault_entry)) }
{
    if act < FAULT {
        return Some(State { mode: act, stack });
    }
    if act == STOP {
        return Some(State {
            mode: after(stack),
            stack,
        });
    }
    if act == OPEN_ARRAY {
        if stack < STACK_LIMIT {
            return Some(State {
                mode: FIRST_ITEM,
                stack: stack * 2,
            });
        }
        return None;
    }
    if act == OPEN_OBJECT {
        if stack < STACK_LIMIT {
            return Some(State {
                mode: FIRST_MEMBER,
                stack: stack * 2 + 1,
            });
        }
        return None;
    }
    if act == CLOSE {
        let outer = stack / 2;
        return Some(State {
            mode: after(outer),
            stack: outer,
        });
    }
    None
}

// Whether a text may end here: nothing is open, and a value has ended, or is a number that may end.
#[tactic(auto, unfolding(json_machine::specs::Machine::ends_of))]
fn ends(mode: usize, stack: u64) -> bool
    ensures { result ≡ ends_of mode stack }
{
    stack == NOTHING_OPEN
        && (mode == AFTER_TEXT
            || mode == ZERO
            || mode == WHOLE
            || mode == FRACTION
            || mode == POWER)
}

// ---- in a string

// Whether a byte does not stand for itself in a string: a control byte, a quotation mark, a backslash, or a byte beyond ASCII. Such a byte
// is called odd below.
fn odd(b: u8) -> bool
    ensures { result ≡ false → bare b ≡ true }
{
    b < 0x20 || 0x80 <= b || b == b'"' || b == b'\\'
}

// Whether one of the eight bytes from place i on is odd. The compiler makes vector code of the loop.
fn odd8(s: &[u8], i: usize) -> bool
    requires { i + 8 ≤ length s.now }
    ensures { result ≡ false → BareRun s.now i (i + 8) }
{
    let mut bad = false;
    for k in 0..8 {
        bad |= odd(s[i + k]);
    }
    bad
}

// The place after all blocks of eight bytes from `from` on that have no odd byte.
fn past_blocks(s: &[u8], from: usize) -> usize
    requires { from ≤ length s.now }
    ensures { (from ≤ result) × (result ≤ length s.now) × BareRun s.now from result }
{
    let mut i = from;
    while 8 <= s.len() - i {
        if odd8(s, i) {
            return i;
        }
        i += 8;
    }
    i
}

// The place of the first odd byte from `from` on, or the end.
fn past_bare(s: &[u8], from: usize) -> usize
    requires { from ≤ length s.now }
    ensures { (from ≤ result) × (result ≤ length s.now) × BareRun s.now from result }
{
    for i in past_blocks(s, from)..s.len() {
        if odd(s[i]) {
            return i;
        }
    }
    s.len()
}

// Whether a byte is no continuation byte of UTF-8.
fn stray(b: u8) -> bool
    ensures { result ≡ false → (128 ≤ b) × (b < 192) }
{
    b < 0x80 || 0xC0 <= b
}

// The size of the character beyond ASCII at place i. 0 if there is none, or if it begins with F4: then the tables decide. An Option of the size
// made the check of text beyond ASCII a fifth slower (measured before ROOM_SIZE was there), and so did the place after it.
#[tactic(auto, using(crate::proofs::Beyond::passed_none))]
fn wide_char(s: &[u8], i: usize) -> usize
    requires { i + 4 ≤ length s.now }
    ensures { (result ≤ 4) × Skipped s.now i (i + result) }
{
    let a = s[i];
    if 0xC2 <= a && a < 0xE0 {
        if stray(s[i + 1]) {
            return 0;
        }
        return 2;
    }
    if a < 0xE0 {
        return 0;
    }
    let b = s[i + 1];
    if stray(b) || stray(s[i + 2]) {
        return 0;
    }
    if a == 0xE0 {
        if b < 0xA0 {
            return 0;
        }
        return 3;
    }
    if a == 0xED {
        if b < 0xA0 {
            return 3;
        }
        return 0;
    }
    if a < 0xF0 {
        return 3;
    }
    if stray(s[i + 3]) {
        return 0;
    }
    if a == 0xF0 {
        if b < 0x90 {
            return 0;
        }
        return 4;
    }
    if a < 0xF4 {
        return 4;
    }
    0
}

// A place up to which no byte from `from` on is odd. It tests up to eight bytes one by one before it looks for blocks, as a character beyond
// ASCII often follows another soon.
fn past_few(s: &[u8], from: usize) -> usize
    requires { from + 8 ≤ length s.now }
    ensures { (from ≤ result) × (result ≤ length s.now) × BareRun s.now from result }
{
    for k in 0..8 {
        let i = from + k;
        if odd(s[i]) {
            return i;
        }
    }
    past_blocks(s, from + 8)
}

// The place of the first odd byte from `from` on, or the end. It tests one byte before it looks for blocks, as a string is often empty.
fn past_run(s: &[u8], from: usize) -> usize
    requires { from ≤ length s.now }
    ensures { (from ≤ result) × (result ≤ length s.now) × BareRun s.now from result }
{
    if from < s.len() && !odd(s[from]) {
        return past_bare(s, from);
    }
    from
}

// The place after a run of bytes that are not odd and characters beyond ASCII. It is called apart: inlined, it makes the walk over numbers slower, by
// where the code is linked (measured).
#[inline(never)]
fn past_chars(s: &[u8], from: usize) -> usize
    requires { from ≤ length s.now }
    ensures { (from ≤ result) × (result ≤ length s.now) × Skipped s.now from result }
{
    // From here on, fewer than ROOM_SIZE bytes are left.
    let end = (s.len() + 1).saturating_sub(ROOM_SIZE);
    let mut i = past_run(s, from);
    while i < end {
        let n = wide_char(s, i);
        if n == 0 {
            return i;
        }
        i = past_few(s, i + n);
    }
    i
}

// The next place where the mode may change: inside a string, the bytes before it leave the mode as it is.
fn onward(s: &[u8], mode: usize, from: usize) -> usize
    requires { from ≤ length s.now }
    ensures { (from ≤ result) × (result ≤ length s.now) × ((stack : ℕ) → walk_from mode stack result (drop result s.now) ≡ walk_from mode stack from (drop from s.now)) }
{
    if mode == CHAR || mode == NAME_CHAR {
        return past_chars(s, from);
    }
    from
}

// The walk over the bytes.
fn walk<'a>(
    class: &'a [u8; BYTES],
    next: &'a [u8; MODES * CLASSES],
    text: &[u8],
) -> Result<(), JsonFault>
    requires { (class.now ≡ classes) × (next.now ≡ columns) }
    ensures { result ≡ json_verdict text.now }
{
    let mut state = State {
        mode: VALUE,
        stack: NOTHING_OPEN,
    };
    let mut i = 0;
    while i < text.len() {
        let entry = act(class, next, state.mode, state.stack, text[i]);
        let Some(to) = turn(entry, state.stack) else {
            return Err(JsonFault { place: i });
        };
        state = to;
        i = onward(text, state.mode, i + 1);
    }
    if ends(state.mode, state.stack) {
        return Ok(());
    }
    Err(JsonFault { place: i })
}

// Whether bytes are one JSON text within the depth limit, or the place of the first fault: what the grammar says is the right verdict.
// The tables are locals, as a constant would be built anew at each use.
pub fn check(text: &[u8]) -> Result<(), JsonFault>
    ensures value { result ≡ json_verdict text.now }
    ensures verdict { IsVerdict text.now result }
{
    let class = tables::CLASSES;
    let next = tables::COLUMNS;
    walk(&class, &next, text)
}
