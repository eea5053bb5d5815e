// What the programs that run cases say. A verdict in words is bytes in a buffer, which a contract fixes; what is printed has no contract,
// since none can say what arrives.
#![tactic(auto)]

ghost use Rattle.std.specs.Prelude.{◌≡◌};
ghost use Rattle.io.specs.Counts.{IsPrefixLen};
ghost use Rattle.eif_lines.specs.Lines.{in_buffer};
ghost use Rattle.case_lines.specs.Answers.{accepted_word, verdict_text};

use eif::{Refusal, Verdict, Written};
use eif_lines::Text;
use std::io;

fn accepted() -> Text
    ensures value { result ≡ in_buffer accepted_word }
    ensures prefix_len { IsPrefixLen result.length result.bytes }
{
    let mut bytes = eif_lines::empty();
    octets::copy(&mut bytes, 0, b"accepted");
    Text { bytes, length: 8 }
}

// A verdict, with no line feed.
pub fn answer(verdict: Verdict) -> Text
    ensures value { result ≡ in_buffer (verdict_text verdict) }
    ensures prefix_len { IsPrefixLen result.length result.bytes }
{
    match verdict {
        Verdict::Accepted => accepted(),
        Verdict::Refused(r) => eif_lines::refusal_text(r),
    }
}

// ---- on standard output

pub fn text(rt: &impl Print, bytes: &[u8]) -> io::Result<()> {
    rt.write_all(bytes)
}

pub fn number(rt: &impl Print, n: u64) -> io::Result<()> {
    rt.print(n)
}

// Words, and a number after them.
pub fn labelled(rt: &impl Print, words: &[u8], n: u64) -> io::Result<()> {
    text(rt, words)?;
    number(rt, n)
}

// One text if it is so, another if not.
pub fn tell(rt: &impl Print, so: bool, yes: &[u8], no: &[u8]) -> io::Result<()> {
    if so { text(rt, yes) } else { text(rt, no) }
}

// In two hexadecimal digits.
pub fn byte(rt: &impl Print, b: u8) -> io::Result<()> {
    print!(rt; "{b:02x}")
}

pub fn hex(rt: &impl Print, bytes: &[u8]) -> io::Result<()> {
    for b in bytes {
        byte(rt, *b)?;
    }
    Ok(())
}

pub fn say(rt: &impl Print, verdict: Verdict) -> io::Result<()> {
    eif_print::print(rt, answer(verdict))
}

pub fn written(rt: &impl Print, answer: Written) -> io::Result<()> {
    say(rt, answer.verdict)?;
    labelled(rt, b", length ", answer.length)
}

// Without the position, for calls whose refusals have none.
pub fn refusal(rt: &impl Print, r: Refusal) -> io::Result<()> {
    labelled(rt, b"refused ", u64::from(r.number))?;
    labelled(rt, b" at ", r.index)
}
