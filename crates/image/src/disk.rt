// 01 Image mounted: is there a disk in a lent slice? (The motor bit is the controller's.)
ghost use Rattle.std.specs.Prelude.{◌≡◌, length, get_or, ◌≤◌};
ghost use Rattle.image.specs.Disk.{within, in_range, header_in, geometry_of, geometry_in, disk_in};

use crate::bytes::byte_at;
use crate::layout::Geometry;

pub fn between(low: u8, x: u8, high: u8) -> bool
    ensures { result ≡ within low x high }
{
    (low..=high).contains(&x)
}

// The header's five numbers as they stand (01 Image), in range or not.
#[derive(Clone, Copy, Debug, PartialEq, Eq)]
pub struct Header {
    pub cylinders: u8,
    pub heads: u8,
    pub slots: u8,
    pub n: u8,
    pub protect: u8,
}

impl Header {
    // 01 Image: each in its range.
    pub fn in_range(self) -> bool
        ensures { result
            ≡ in_range self.cylinders self.heads self.slots self.n self.protect }
    {
        between(1, self.cylinders, 82)
            & between(1, self.heads, 2)
            & between(1, self.slots, 36)
            & between(1, self.n, 3)
            & between(0, self.protect, 1)
    }

    // What they say of a disk; protect 1 is protected. A method and no From, as docs/CONTRACTS.md names it with its clause.
    pub fn geometry(self) -> Geometry
        ensures { result
            ≡ geometry_of self.cylinders self.heads self.slots self.n self.protect }
    {
        Geometry {
            cylinders: self.cylinders,
            heads: self.heads,
            slots: self.slots,
            n: self.n,
            protect: self.protect == 1,
        }
    }
}

fn header_in(s: &[u8]) -> Header
    ensures cylinders { result.cylinders ≡ get_or s.now 3 0 }
    ensures heads { result.heads ≡ get_or s.now 4 0 }
    ensures slots { result.slots ≡ get_or s.now 5 0 }
    ensures n { result.n ≡ get_or s.now 6 0 }
    ensures protect { result.protect ≡ get_or s.now 7 0 }
{
    Header {
        cylinders: byte_at(s, 3),
        heads: byte_at(s, 4),
        slots: byte_at(s, 5),
        n: byte_at(s, 6),
        protect: byte_at(s, 7),
    }
}

// Tag 01, length 5, and five bytes in range.
#[tactic(auto, unfolding(crate::specs::Disk::header_in))]
fn header_ok(s: &[u8]) -> bool
    requires { 8 ≤ length s.now }
    ensures { result ≡ header_in s.now }
{
    s.starts_with(&[1, 0, 5]) && header_in(s).in_range()
}

// What the header says, in its range or not.
#[tactic(auto, unfolding(crate::specs::Disk::geometry_in))]
pub fn geometry_in(s: &[u8]) -> Geometry
    ensures { result ≡ geometry_in s.now }
{
    header_in(s).geometry()
}

// What a slice is to a drive: a disk by its header, or none. Fewer bytes than a header are as long as no header asks.
#[tactic(auto, using(crate::proofs::DiskLaws::short_absent), unfolding(crate::specs::Disk::disk_in))]
pub fn disk_in(s: &[u8]) -> Option<Geometry>
    ensures { result ≡ disk_in s.now }
{
    if s.len() < 8 {
        return None;
    }
    Some(geometry_in(s)).filter(|g| header_ok(s) && (s.len() == g.length()))
}
