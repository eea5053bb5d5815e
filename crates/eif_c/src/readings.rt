// Fingerprint, roll and staged view from a reading that the caller already has, for programs in C and Rust: no call here computes a
// checksum. Every value is a reading, also one that no image has (FORMAT.md, The boot roll, Staging).
//
// A reading is large and is made once, as the argument of the call: a variable for it would be a second one on the stack.
ghost use Rattle.std.specs.Prelude.{◌≡◌, length};
ghost use Rattle.eif.specs.Answers.{verdict_at};
ghost use Rattle.roll_writer.specs.Write.{listed_roll_answer, listed_roll_output, listed_roll_length};
ghost use Rattle.staged.specs.Listed.{listed_place};
ghost use Rattle.eif_flat.specs.Flat.{flat_written};
ghost use Rattle.eif_c.specs.Fingerprint.{flat_fingerprint};
ghost use Rattle.eif_c.specs.Staging.{flat_part};
ghost use Rattle.eif_c.specs.Readings.{given_reading, fingerprinted_by};

use eif::{Reading, Verdict};
use eif_fingerprint::Fingerprinted;
use eif_flat::{EifAnswer, EifReading};

// ---- a reading that a caller hands in

// Number 0 accepts, every other number refuses.
fn given_verdict(number: u8, index: u64, position: u64) -> Verdict
    ensures { result ≡ verdict_at number index position }
{
    if number == 0 {
        return Verdict::Accepted;
    }
    Verdict::refuse_at(number, index, position)
}

// Reserved fields are not looked at, nor what is computed from the ramdisk mark.
fn given_reading(reading: EifReading) -> Reading
    ensures { result ≡ given_reading reading }
{
    let sections = reading.sections;
    let verdict = given_verdict(reading.number, reading.index, reading.position);
    Reading {
        verdict,
        version: reading.version,
        flags: reading.flags,
        architecture: reading.architecture,
        default_mem: reading.default_mem,
        default_cpus: reading.default_cpus,
        count: reading.count,
        sections: eif_flat::read_sections(sections),
        ramdisk_mark: reading.ramdisk_mark,
    }
}

// ---- the fingerprint

#[unsafe(no_mangle)]
pub extern "C" fn eif_read_fingerprint(
    image: &[u8],
    reading: EifReading,
) -> crate::fingerprint::EifFingerprint
    ensures { result ≡ flat_fingerprint (fingerprinted_by image.now (given_reading reading)) }
{
    let digest = eif_fingerprint::step(image, given_reading(reading));
    let verdict = given_verdict(reading.number, reading.index, reading.position);
    let answer = Fingerprinted { verdict, digest };
    crate::fingerprint::flat_fingerprint(answer)
}

// ---- the boot roll

#[unsafe(no_mangle)]
pub extern "C" fn eif_read_roll_length(image: &[u8], reading: EifReading) -> EifAnswer
    ensures { result ≡ flat_written (listed_roll_length image.now (given_reading reading)) }
{
    let found = roll_writer::length_listed(image, given_reading(reading));
    eif_flat::flat_written(found)
}

#[unsafe(no_mangle)]
pub extern "C" fn eif_read_roll_write(
    image: &[u8],
    reading: EifReading,
    out: &mut [u8],
) -> EifAnswer
    ensures value { result ≡ flat_written (listed_roll_answer image.now (given_reading reading) (length out.old)) }
    ensures out_after { out.new ≡ listed_roll_output image.now (given_reading reading) out.old }
{
    let written = roll_writer::write_listed(image, given_reading(reading), out);
    eif_flat::flat_written(written)
}

// ---- the staged view

// `end` is the length of the base that was read, `size` that of the replacement.
#[unsafe(no_mangle)]
pub extern "C" fn eif_read_staged_part(
    reading: EifReading,
    end: u64,
    size: u64,
    replaced: u64,
    shown: u64,
) -> crate::staging::EifStagedPart
    ensures { result ≡ flat_part (listed_place (given_reading reading) end size replaced shown) }
{
    let found = staged_view::place_listed(given_reading(reading), end, size, replaced, shown);
    crate::staging::flat_part(found)
}
