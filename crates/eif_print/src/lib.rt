// A text of eif_lines, for the programs: to a writer, of which a contract says what it holds, and on standard output.
#![tactic(auto)]

ghost use Rattle.std.specs.Prelude.{OnOk, take};
ghost use Rattle.std.specs.Io.KnownBytes.{Appends};

use eif_lines::Text;
use std::io::{self, Write};

// The first bytes, or those that there are.
fn part<W: Write>(out: &mut W, bytes: &[u8], length: usize) -> io::Result<()>
    ensures { OnOk result (Appends (W.contents out.old) (W.contents out.new) (take length bytes.now)) }
{
    out.write_all(&bytes[..octets::lesser(length, bytes.len())])
}

fn put<W: Write>(out: &mut W, text: Text) -> io::Result<()>
    ensures { OnOk result (Appends (W.contents out.old) (W.contents out.new) (take text.length text.bytes)) }
{
    let bytes = text.bytes;
    part(out, &bytes, text.length)
}

pub fn print(rt: &impl Print, text: Text) -> io::Result<()> {
    put(&mut io::writer(rt), text)
}
