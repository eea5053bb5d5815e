// The three measured streams: which sections one has, copying from it, and how long it is. A stream is the data of the sections that
// it keeps of an image, in file order; which these are is decided by `is_kept` alone.
#![tactic(auto)]

ghost use Rattle.std.specs.Prelude.{◌≡◌, ◌+◌, ◌-◌, ◌^◌, ◌<◌, ◌≤◌, min, length, drop};
ghost use Rattle.octets.specs.Over.{over};
ghost use Rattle.eif.specs.Reading.{ramdisk_in, data_of};
ghost use Rattle.eif.specs.Stream.{later_ramdisk, keeps, sections_answer, listed_bytes, copy_answer, copy_output, copy_listed_answer, copy_listed_output, length_answer};

use eif::{
    Copied, DataLength, PLACES, Refusal, Section, SectionType, Stream, StreamLength,
    StreamPosition, StreamSections, Verdict,
};

// ---- the sections of a stream

// 1 for the type of a ramdisk.
pub fn ramdisk_in(kind: u16) -> usize
    ensures value { result ≡ ramdisk_in kind }
    ensures upper_bound { result ≤ 1 }
{
    if kind == SectionType::RAMDISK { 1 } else { 0 }
}

// Whether a section is a ramdisk that is not the first.
pub fn is_later(kind: u16, before: usize) -> bool
    ensures { result ≡ later_ramdisk kind before }
{
    if kind == SectionType::RAMDISK {
        return 0 < before;
    }
    false
}

// Whether a stream keeps a section of a type that stands after so many ramdisks.
fn is_kept(stream: Stream, kind: u16, before: usize) -> bool
    ensures { result ≡ keeps stream kind before }
{
    if !SectionType::is_boot(kind) {
        return false;
    }
    let later = is_later(kind, before);
    match stream {
        Stream::Whole => true,
        Stream::Boot => !later,
        Stream::App => later,
    }
}

// The sections of a stream among those of a reading, whatever reading that is.
pub fn sections(all: [Section; PLACES], stream: Stream) -> StreamSections
    ensures { result ≡ sections_answer stream all }
{
    let mut list = [Section::BLANK; PLACES];
    let mut count: usize = 0;
    let mut before: usize = 0;
    let mut i: usize = 0;
    while i < PLACES {
        let next = all[i];
        if is_kept(stream, next.kind, before) {
            list[count] = next;
            count += 1;
        }
        before += ramdisk_in(next.kind);
        i += 1;
    }
    StreamSections {
        count: count as u64,
        sections: list,
    }
}

// ---- copying

// The data of a section, as far as it lies in the image.
pub fn section_data(image: &[u8], section: Section) -> &[u8]
    ensures result_value { result.now ≡ data_of image.now section }
    ensures ref_ptr_value { result.ref_ptr ≡ (image.entry.ref_ptr.0, image.entry.ref_ptr.1 + min section.position.0 (length image.now)) }
{
    let start = octets::lesser(section.position.0 as usize, image.len());
    let end = start + octets::lesser(section.length.0 as usize, image.len() - start);
    &image[start..end]
}

// How much of a stream is still to be passed over, and how much of it is copied.
#[derive(Clone, Copy)]
struct Progress {
    skip: usize,
    done: usize,
}

// A section's data after the first `skip` bytes, over what stands from `done` on.
fn copy_data(bytes: &[u8], skip: usize, out: &mut [u8], done: usize) -> Progress
    requires { done ≤ length out.old }
    ensures skip_value { result.skip ≡ skip - length bytes.now }
    ensures done_value { result.done ≡ min (length out.old) (done + (length bytes.now - skip)) }
    ensures out_after { out.new ≡ over out.old done (drop skip bytes.now) }
{
    let passed = octets::lesser(skip, bytes.len());
    octets::copy(out, done, &bytes[passed..]);
    let copied = octets::lesser(bytes.len() - passed, out.len() - done);
    Progress {
        skip: skip - passed,
        done: done + copied,
    }
}

// Bytes of sections already found, from a position on: as many as both the buffer and the rest have, over the buffer's start. What lies
// past the sections is passed over to the end, and then nothing was copied.
pub fn copy_listed(
    image: &[u8],
    list: StreamSections,
    from: StreamPosition,
    out: &mut [u8],
) -> Copied
    ensures value { result ≡ copy_listed_answer image.now list from.0 (length out.old) }
    ensures out_after { out.new ≡ copy_listed_output image.now list from.0 out.old }
{
    let sections = list.sections;
    let count = octets::lesser(list.count as usize, PLACES);
    let mut skip = from.0 as usize;
    let mut done: usize = 0;
    let mut i: usize = 0;
    while i < count {
        let section = sections[i];
        let next = copy_data(section_data(image, section), skip, out, done);
        skip = next.skip;
        done = next.done;
        i += 1;
    }
    if 0 < skip {
        return Copied {
            verdict: Verdict::refuse(Refusal::PAST_STREAM_END, 0),
            count: 0,
        };
    }
    Copied {
        verdict: Verdict::Accepted,
        count: done as u64,
    }
}

// The bytes of a stream of an image from a position on, as many as both the buffer and the rest of the stream have, over the buffer's
// start.
pub fn copy(image: &[u8], stream: Stream, from: StreamPosition, out: &mut [u8]) -> Copied
    ensures value { result ≡ copy_answer image.now stream from.0 (length out.old) }
    ensures out_after { out.new ≡ copy_output image.now stream from.0 out.old }
{
    let reading = eif_reader::read(image);
    let verdict = reading.verdict;
    let Verdict::Accepted = verdict else {
        return Copied { verdict, count: 0 };
    };
    let all = reading.sections;
    let list = sections(all, stream);
    copy_listed(image, list, from, out)
}

// ---- the length

// How long the data of listed sections is together.
fn total(image: &[u8], list: StreamSections) -> u64
    requires { length (listed_bytes image.now list) < 2 ^ 64 }
    ensures { result ≡ length (listed_bytes image.now list) }
{
    let sections = list.sections;
    let count = octets::lesser(list.count as usize, PLACES);
    let mut sum: u64 = 0;
    let mut i: usize = 0;
    while i < count {
        let section = sections[i];
        let bytes = section_data(image, section);
        sum += bytes.len() as u64;
        i += 1;
    }
    sum
}

// How long a stream of an image is.
pub fn length(image: &[u8], stream: Stream) -> StreamLength
    ensures { result ≡ length_answer image.now stream }
{
    let reading = eif_reader::read(image);
    let verdict = reading.verdict;
    let Verdict::Accepted = verdict else {
        return StreamLength {
            verdict,
            length: DataLength(0),
        };
    };
    let all = reading.sections;
    let list = sections(all, stream);
    StreamLength {
        verdict,
        length: DataLength(total(image, list)),
    }
}
