// Published CRC-32 vectors through `crc32_fold::checksum`, a line each: a label, and the checksum in eight hexadecimal digits.
#![tactic(auto)]

use std::io;

fn show(rt: &impl Print, label: &[u8], bytes: &[u8]) -> io::Result<()> {
    rt.write_all(label)?;
    rt.write_all(b" ")?;
    print!(rt; "{:08x}", crc32_fold::checksum(bytes))?;
    rt.write_all(b"\n")
}

// Each byte value in order.
fn every_value() -> [u8; 256] {
    let mut values = [0u8; 256];
    let mut next: u8 = 0;
    while next < 255 {
        next += 1;
        values[next as usize] = next;
    }
    values
}

fn main(rt: HostRuntime) -> io::Result<()> {
    show(&rt, b"empty", b"")?;
    show(&rt, b"one-zero-byte", b"\0")?;
    show(&rt, b"123456789", b"123456789")?;
    show(&rt, b"every-byte-value", &every_value())?;
    show(&rt, b"32768-zero-bytes", &[0u8; 32768])
}
