// The sections of a measured stream of an image already read, and copying from them, for programs in C and Rust.
ghost use Rattle.std.specs.Prelude.{◌≡◌, length};
ghost use Rattle.eif.specs.Stream.{copy_listed_answer, copy_listed_output};
ghost use Rattle.eif.specs.declared.Stream.TheVariants.{Whole, Boot, App};
ghost use Rattle.eif_flat.specs.Flat.{flat_copied};
ghost use Rattle.eif_c.specs.Listed.{listed_of, list_of};

use eif::{PLACES, Stream, StreamPosition, StreamSections};
use eif_flat::{EifAnswer, EifReading, EifSection};

// The sections of a stream, in its order: the first `count` places. The others are zero.
#[repr(C)]
#[derive(Clone, Copy)]
pub struct EifStreamSections {
    pub count: u64,
    pub sections: [EifSection; PLACES],
}

fn listed(sections: [EifSection; PLACES], stream: Stream) -> EifStreamSections
    ensures { result ≡ listed_of sections stream }
{
    let list = stream_reader::sections(eif_flat::read_sections(sections), stream);
    let found = list.sections;
    EifStreamSections {
        count: list.count,
        sections: eif_flat::flat_sections(found),
    }
}

// ---- a function for each stream, of any reading

#[unsafe(no_mangle)]
pub extern "C" fn eif_whole_sections(reading: EifReading) -> EifStreamSections
    ensures { result ≡ listed_of reading.sections Whole }
{
    let sections = reading.sections;
    listed(sections, Stream::Whole)
}

#[unsafe(no_mangle)]
pub extern "C" fn eif_boot_sections(reading: EifReading) -> EifStreamSections
    ensures { result ≡ listed_of reading.sections Boot }
{
    let sections = reading.sections;
    listed(sections, Stream::Boot)
}

#[unsafe(no_mangle)]
pub extern "C" fn eif_app_sections(reading: EifReading) -> EifStreamSections
    ensures { result ≡ listed_of reading.sections App }
{
    let sections = reading.sections;
    listed(sections, Stream::App)
}

// ---- copying from them

#[unsafe(no_mangle)]
pub extern "C" fn eif_copy_sections(
    image: &[u8],
    list: EifStreamSections,
    from: StreamPosition,
    out: &mut [u8],
) -> EifAnswer
    ensures value { result ≡ flat_copied (copy_listed_answer image.now (list_of list) from.0 (length out.old)) }
    ensures out_after { out.new ≡ copy_listed_output image.now (list_of list) from.0 out.old }
{
    let sections = list.sections;
    let found = StreamSections {
        count: list.count,
        sections: eif_flat::read_sections(sections),
    };
    eif_flat::flat_copied(stream_reader::copy_listed(image, found, from, out))
}
