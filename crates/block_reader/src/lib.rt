// Fills a buffer from a reader, for the programs that read standard input in blocks.
#![tactic(auto)]

ghost use Rattle.std.specs.Prelude.{◌≡◌, ◌≤◌, length, take};
ghost use Rattle.std.specs.Io.KnownBytes.{Consumes};

use std::io::Read;

// Up to so many bytes to the start of a buffer, in one call; none at the end of the input, or where the call fails.
fn read_some<R: Read>(input: &mut R, buffer: &mut [u8]) -> usize
    ensures in_bounds { result ≤ length buffer.new }
    ensures length_kept { length buffer.new ≡ length buffer.old }
    ensures bytes { Consumes (R.remaining input.old) (R.remaining input.new) (take result buffer.new) }
{
    match input.read(buffer) {
        Ok(n) => n,
        Err(_) => 0,
    }
}

// Reads until the buffer is full, the input ends or a call fails; how many bytes stand at the start of the buffer. They are the first of the
// input.
pub fn read_full<R: Read>(input: &mut R, buffer: &mut [u8]) -> usize
    ensures in_bounds { result ≤ length buffer.new }
    ensures prefix_len { result ≡ length (take result buffer.new) }
    ensures length_kept { length buffer.new ≡ length buffer.old }
    ensures bytes { Consumes (R.remaining input.old) (R.remaining input.new) (take result buffer.new) }
{
    let mut done: usize = 0;
    while done < buffer.len() {
        let n = read_some(input, &mut buffer[done..]);
        if n == 0 {
            return done;
        }
        done += n;
    }
    done
}
