// 01 Image slot: mark, C, H, R, N, then B bytes.
ghost use Rattle.std.specs.Prelude.{◌≡◌};
ghost use Rattle.image.specs.Layout.{offset_of};
ghost use Rattle.image.specs.Slot.{slot_at};

use crate::bytes::byte_at;
use crate::layout::Geometry;

// A sector's address.
#[derive(Clone, Copy, Debug, PartialEq, Eq)]
pub struct Id {
    pub c: u8,
    pub h: u8,
    pub r: u8,
    pub n: u8,
}

// The five bytes in front of a slot's data.
#[derive(Clone, Copy, Debug, PartialEq, Eq)]
pub struct Slot {
    pub mark: u8,
    pub id: Id,
}

pub fn slot_in(s: &[u8], g: Geometry, cylinder: u8, side: u8, slot: u8) -> Slot
    ensures { result ≡ slot_at s.now (offset_of g cylinder side slot) }
{
    let at = g.offset(cylinder, side, slot);
    let id = Id {
        c: byte_at(s, at + 1),
        h: byte_at(s, at + 2),
        r: byte_at(s, at + 3),
        n: byte_at(s, at + 4),
    };
    Slot {
        mark: byte_at(s, at),
        id,
    }
}
