// The reader of an image: gathers the sections' own headers, and reads by the rules.
#![tactic(auto)]

ghost use Rattle.std.specs.Prelude.{min, ◌≡◌};
ghost use Rattle.eif.specs.Numbers.{place_count};
ghost use Rattle.eif.specs.Layout.{count_of};
ghost use Rattle.eif.specs.Reading.{read_image};
ghost use Rattle.eif_reader.specs.Gathered.{Gathered};

use eif::{Header, Reading, SectionHeader};

// The places of the table that are used: as many as the header counts, and no more than there are.
fn used(image: &[u8]) -> usize
    ensures { result ≡ min place_count (count_of image.now) }
{
    octets::lesser(eif::PLACES, octets::be16(image, Header::COUNT_AT) as usize)
}

// The sections' own headers, one after the other: of each used place of the table whose offset points at twelve bytes of the
// image. Nothing looks at the others.
fn gather(image: &[u8]) -> [u8; SectionHeader::ALL_SIZE]
    ensures { Gathered image.now result (min place_count (count_of image.now)) }
{
    let mut headers = [0u8; SectionHeader::ALL_SIZE];
    if image.len() < SectionHeader::SIZE {
        return headers;
    }
    let last = image.len() - SectionHeader::SIZE;
    let count = used(image);
    let mut i: usize = 0;
    while i < count {
        let offset = eif_judge::offset_at(image, i as u8) as usize;
        if offset <= last {
            octets::copy(
                &mut headers,
                SectionHeader::SIZE * i,
                &image[offset..offset + SectionHeader::SIZE],
            );
        }
        i += 1;
    }
    headers
}

// The reading of an image, by all rules.
pub fn read(image: &[u8]) -> Reading
    ensures { result ≡ read_image image.now }
{
    let headers = gather(image);
    let before = crc32_fold::update(crc32_fold::START, eif_checksum::front(image));
    eif_judge::read(
        image,
        &headers,
        image.len() as u64,
        before,
        eif_checksum::back(image),
    )
}
