// Which sector a block is (02 2026-01).
ghost use Rattle.std.specs.Prelude.{◌≡◌, ◌<◌};
ghost use Rattle.image.specs.Disk.{InRange};
ghost use Rattle.block.specs.Place.{blocks_of, blocks_in, bytes_in, place_of};

use image::disk::disk_in;
use image::layout::{Geometry, size_of};

#[derive(Clone, Copy, Debug, PartialEq, Eq)]
pub struct Place {
    pub cylinder: u8,
    pub side: u8,
    pub sector: u8,
}

impl Place {
    // Block b is sector b mod S plus 1, side the quotient mod heads, cylinder the rest.
    pub(crate) fn of(g: Geometry, block: u32) -> Place
        requires in_range { InRange g }
        requires block_bound { block < blocks_of g }
        ensures { result ≡ place_of g block }
    {
        let slots = u32::from(g.slots);
        let heads = u32::from(g.heads);
        let track = block / slots;
        Place {
            cylinder: (track / heads) as u8,
            side: (track % heads) as u8,
            sector: (block % slots) as u8 + 1,
        }
    }
}

pub(crate) fn block_count(g: Geometry) -> u32
    ensures { result ≡ blocks_of g }
{
    u32::from(g.cylinders) * u32::from(g.heads) * u32::from(g.slots)
}

// How many blocks an image has, 0 where its header or length does not fit. It is no Option, since CONTRACTS.md names it
// and its clause `blocks_in`, which is 0 there; C has it so too (`bel_blocks`).
pub fn blocks_in(s: &[u8]) -> u32
    ensures { result ≡ blocks_in s.now }
{
    disk_in(s).map_or(0, block_count)
}

// How many bytes a block has, 0 where header or length does not fit. It is no Option for its clause `bytes_in`.
pub fn bytes_in(s: &[u8]) -> u32
    ensures { result ≡ bytes_in s.now }
{
    disk_in(s).map_or(0, |g| size_of(g.n) as u32)
}
