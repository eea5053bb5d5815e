// The checksum of an image: CRC-32 of every byte but its own four, which are taken out and not read as zero. Total: of a
// shorter slice, what there is.
#![tactic(auto)]

ghost use Rattle.std.specs.Prelude.{◌≡◌, ◌+◌, min, length, take, drop};
ghost use Rattle.eif.specs.Layout.{checksum_end, checksum_at};
ghost use Rattle.eif.specs.Reading.{checksum_of};
ghost use Rattle.eif_checksum.specs.Put.{with_checksum};

use eif::Header;

// The bytes before the checksum's place, or those that there are.
pub fn front(image: &[u8]) -> &[u8]
    ensures result_value { result.now ≡ take checksum_at image.now }
    ensures ref_ptr_value { result.ref_ptr ≡ image.entry.ref_ptr }
{
    if image.len() < Header::CHECKSUM_AT {
        return image;
    }
    &image[..Header::CHECKSUM_AT]
}

// The bytes after it.
pub fn back(image: &[u8]) -> &[u8]
    ensures result_value { result.now ≡ drop checksum_end image.now }
    ensures ref_ptr_value { result.ref_ptr ≡ (image.entry.ref_ptr.0, image.entry.ref_ptr.1 + min checksum_end (length image.now)) }
{
    if image.len() < Header::CHECKSUM_END {
        return &image[image.len()..];
    }
    &image[Header::CHECKSUM_END..]
}

pub fn checksum(image: &[u8]) -> u32
    ensures { result ≡ checksum_of image.now }
{
    let before = crc32_fold::update(crc32_fold::START, front(image));
    crc32_fold::finish(crc32_fold::update(before, back(image)))
}

// Puts the checksum of the image that the first `size` bytes are into its place.
pub fn put(image: &mut [u8], size: usize)
    ensures { image.new ≡ with_checksum image.old size }
{
    let end = octets::lesser(size, image.len());
    let sum = checksum(&image[..end]);
    octets::put_be32(image, Header::CHECKSUM_AT, sum);
}
