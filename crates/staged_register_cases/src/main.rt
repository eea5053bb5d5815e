// The registers over a staged view of a small image, a line each in hexadecimal, or the refusal: a ramdisk mended, a section replaced by
// its own data beside the base itself, and a section number past the count.
#![tactic(auto)]

use case_images::Shape;
use case_lines::{hex, say, text};
use eif::Verdict;
use eif_registers::{Digest, Measurement};
use std::io;

fn show(rt: &impl Print, register: Digest) -> io::Result<()> {
    let digest = register.0;
    hex(rt, &digest)?;
    text(rt, b"\n")
}

fn told(rt: &impl Print, label: &[u8], all: Measurement) -> io::Result<()> {
    text(rt, label)?;
    let verdict = all.verdict;
    if let Verdict::Refused(_) = verdict {
        text(rt, b" ")?;
        say(rt, verdict)?;
    }
    text(rt, b"\n")?;
    let values = all.registers;
    show(rt, values[0])?;
    show(rt, values[1])?;
    show(rt, values[2])
}

fn main(rt: HostRuntime) -> io::Result<()> {
    let mut base = [0u8; 614];
    case_images::put_image(&mut base, Shape::BASE, b"Kerna=1firstsecond");
    told(
        &rt,
        b"mended",
        eif_registers::registers_staged(&base, b"mended", 2),
    )?;
    told(&rt, b"the base", eif_registers::registers(&base))?;
    told(
        &rt,
        b"its own data",
        eif_registers::registers_staged(&base, b"second", 3),
    )?;
    told(
        &rt,
        b"section 4",
        eif_registers::registers_staged(&base, b"mended", 4),
    )
}
