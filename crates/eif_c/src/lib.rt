// The library's calls for programs in C and Rust: answers are the flat structs of eif_flat. A slice is a pointer and a length.
// include/eif.h declares these functions to C.
//
// The digest and the registers are in measure.rt, the reader of an image that arrives in pieces in arrival.rt, the registers of such an image in
// measuring.rt, fingerprints in fingerprint.rt, the stricter reading in strict.rt, the COSE_Sign1 of a signature section in signature.rt, the
// assembler in assembly.rt, streams of an image already read in sections.rt, fingerprint, roll and staged view from a reading in readings.rt, an image with one section replaced in staging.rt, writing in pieces in write_pieces.rt.
#![tactic(auto)]

mod arrival;
mod assembly;
mod fingerprint;
mod measure;
mod measuring;
mod readings;
mod sections;
mod signature;
mod staging;
mod strict;
mod write_pieces;

ghost use Rattle.std.specs.Prelude.{◌≡◌, length};
ghost use Rattle.eif.specs.Reading.{read_image};
ghost use Rattle.eif.specs.Plan.{write_answer, write_output, plan_length};
ghost use Rattle.eif.specs.Stream.{copy_answer, copy_output, length_answer};
ghost use Rattle.eif.specs.Roll.{roll_answer, roll_output, roll_length, read_roll};
ghost use Rattle.eif.specs.declared.Stream.TheVariants.{Whole, Boot, App};
ghost use Rattle.eif_flat.specs.Flat.{flat_reading, flat_written, flat_copied, flat_length, flat_roll_reading};

use eif::{Plan, Stream, StreamPosition};
use eif_flat::{EifAnswer, EifReading, EifRollReading};

// ---- reading and writing an image

#[unsafe(no_mangle)]
pub extern "C" fn eif_read(image: &[u8]) -> EifReading
    ensures { result ≡ flat_reading (read_image image.now) }
{
    eif_flat::flat_reading(eif_reader::read(image))
}

#[unsafe(no_mangle)]
pub extern "C" fn eif_write(plan: Plan, lent: &[u8], out: &mut [u8]) -> EifAnswer
    ensures value { result ≡ flat_written (write_answer plan (length lent.now) (length out.old)) }
    ensures out_after { out.new ≡ write_output plan lent.now out.old }
{
    eif_flat::flat_written(eif_writer::write(plan, lent, out))
}

#[unsafe(no_mangle)]
pub extern "C" fn eif_plan_length(plan: Plan) -> EifAnswer
    ensures { result ≡ flat_written (plan_length plan) }
{
    eif_flat::flat_written(plan_judge::length(plan))
}

// ---- the measured streams: a function for each, so that only these three can be named

fn stream_length(image: &[u8], stream: Stream) -> EifAnswer
    ensures { result ≡ flat_length (length_answer image.now stream) }
{
    eif_flat::flat_length(stream_reader::length(image, stream))
}

fn copy_stream(image: &[u8], stream: Stream, from: StreamPosition, out: &mut [u8]) -> EifAnswer
    ensures value { result ≡ flat_copied (copy_answer image.now stream from.0 (length out.old)) }
    ensures out_after { out.new ≡ copy_output image.now stream from.0 out.old }
{
    eif_flat::flat_copied(stream_reader::copy(image, stream, from, out))
}

#[unsafe(no_mangle)]
pub extern "C" fn eif_whole_length(image: &[u8]) -> EifAnswer
    ensures { result ≡ flat_length (length_answer image.now Whole) }
{
    stream_length(image, Stream::Whole)
}

#[unsafe(no_mangle)]
pub extern "C" fn eif_boot_length(image: &[u8]) -> EifAnswer
    ensures { result ≡ flat_length (length_answer image.now Boot) }
{
    stream_length(image, Stream::Boot)
}

#[unsafe(no_mangle)]
pub extern "C" fn eif_app_length(image: &[u8]) -> EifAnswer
    ensures { result ≡ flat_length (length_answer image.now App) }
{
    stream_length(image, Stream::App)
}

#[unsafe(no_mangle)]
pub extern "C" fn eif_copy_whole(image: &[u8], from: StreamPosition, out: &mut [u8]) -> EifAnswer
    ensures value { result ≡ flat_copied (copy_answer image.now Whole from.0 (length out.old)) }
    ensures out_after { out.new ≡ copy_output image.now Whole from.0 out.old }
{
    copy_stream(image, Stream::Whole, from, out)
}

#[unsafe(no_mangle)]
pub extern "C" fn eif_copy_boot(image: &[u8], from: StreamPosition, out: &mut [u8]) -> EifAnswer
    ensures value { result ≡ flat_copied (copy_answer image.now Boot from.0 (length out.old)) }
    ensures out_after { out.new ≡ copy_output image.now Boot from.0 out.old }
{
    copy_stream(image, Stream::Boot, from, out)
}

#[unsafe(no_mangle)]
pub extern "C" fn eif_copy_app(image: &[u8], from: StreamPosition, out: &mut [u8]) -> EifAnswer
    ensures value { result ≡ flat_copied (copy_answer image.now App from.0 (length out.old)) }
    ensures out_after { out.new ≡ copy_output image.now App from.0 out.old }
{
    copy_stream(image, Stream::App, from, out)
}

// ---- the boot roll

#[unsafe(no_mangle)]
pub extern "C" fn eif_roll_write(image: &[u8], out: &mut [u8]) -> EifAnswer
    ensures value { result ≡ flat_written (roll_answer image.now (length out.old)) }
    ensures out_after { out.new ≡ roll_output image.now out.old }
{
    eif_flat::flat_written(roll_writer::write(image, out))
}

#[unsafe(no_mangle)]
pub extern "C" fn eif_roll_length(image: &[u8]) -> EifAnswer
    ensures { result ≡ flat_written (roll_length image.now) }
{
    eif_flat::flat_written(roll_writer::length(image))
}

#[unsafe(no_mangle)]
pub extern "C" fn eif_roll_read(roll: &[u8]) -> EifRollReading
    ensures { result ≡ flat_roll_reading (read_roll roll.now) }
{
    eif_flat::flat_roll_reading(roll_reader::read(roll))
}
