// A blank disk by its numbers: how long its image is, and the image itself (02 2026-01).
ghost use Rattle.std.specs.Prelude.{◌≡◌, length};
ghost use Rattle.blank.specs.Blank.{size_of_disk, made_of, image_of};

use crate::parts::Blank;
use image::disk::Header;

// The length of the image that these numbers ask for; 0 where one is out of range. No Option, here and below: the calls of C
// answer 0, and so do the definitions `size_of_disk` and `made_of` that these two promise.
#[tactic(auto, unfolding(crate::specs::Blank::size_of_disk))]
pub fn size_of_disk(cylinders: u8, heads: u8, slots: u8, n: u8) -> u32
    ensures { result ≡ size_of_disk cylinders heads slots n }
{
    let header = Header {
        cylinders,
        heads,
        slots,
        n,
        protect: 0,
    };
    if header.in_range() {
        return header.geometry().length() as u32;
    }
    0
}

// A blank disk whose bytes are all `fill`, in a slice that is exactly as long as its image; the image's length.
// Refused with 0, and nothing written: a number out of range, or a slice of another length.
#[tactic(auto, using(image::proofs::DiskLaws::length_le, crate::proofs::RangeLaws::range_true))]
pub fn make_blank(image: &mut [u8], header: Header, fill: u8) -> u32
    ensures value { result
        ≡ made_of (length image.old) header.cylinders header.heads header.slots header.n header.protect }
    ensures image_after { image.new
        ≡ image_of image.old header.cylinders header.heads header.slots header.n header.protect fill }
{
    let g = header.geometry();
    if header.in_range() && image.len() == g.length() {
        Blank { g, fill }.put_image(image);
        return g.length() as u32;
    }
    0
}
