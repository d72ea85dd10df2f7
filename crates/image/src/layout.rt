// 01 Image: sizes and offsets. A damaged record may hold any geometry: every sum fits for all of them (D-02).
ghost use Rattle.std.specs.Prelude.{◌≡◌, ◌*◌, ◌≤◌};
ghost use Rattle.image.specs.Layout.{size_of, slot_length, track_length, length_of, track_at, offset_of, same_of};

// What a header says of its disk.
#[derive(Clone, Copy, Debug, PartialEq, Eq)]
pub struct Geometry {
    pub cylinders: u8,
    pub heads: u8,
    pub slots: u8,
    pub n: u8,
    pub protect: bool,
}

// B by N.
#[tactic(auto, unfolding(crate::specs::Layout::size_of))]
pub fn size_of(n: u8) -> usize
    ensures value { result ≡ size_of n }
    ensures upper_bound { result ≤ 1024 }
{
    let code = n % 4;
    match code {
        0 => 128,
        1 => 256,
        2 => 512,
        _ => 1024,
    }
}

impl Geometry {
    // The bytes of k slots.
    #[tactic(auto, using(crate::proofs::LayoutLaws::product_le))]
    pub fn slots_length(self, k: u8) -> usize
        ensures value { result ≡ k * slot_length self }
        ensures upper_bound { result ≤ 262395 }
    {
        usize::from(k) * (5 + size_of(self.n))
    }

    // The bytes of that many tracks, each with its tag, length, cylinder and side.
    #[tactic(auto, using(crate::proofs::LayoutLaws::product_le), unfolding(crate::specs::Layout::track_length))]
    fn tracks_length(self, tracks: usize) -> usize
        requires { tracks ≤ 65280 }
        ensures value { result ≡ tracks * track_length self }
        ensures upper_bound { result ≤ 17129472000 }
    {
        tracks * (5 + self.slots_length(self.slots))
    }

    // The length that a header asks of its whole image.
    #[tactic(auto, unfolding(crate::specs::Layout::length_of))]
    pub fn length(self) -> usize
        ensures { result ≡ length_of self }
    {
        8 + self.tracks_length(usize::from(self.cylinders) * usize::from(self.heads)) + 3
    }

    // Where a track's tag stands. The bound lets a caller add to it.
    #[tactic(auto, unfolding(crate::specs::Layout::track_at))]
    pub fn track(self, cylinder: u8, side: u8) -> usize
        ensures value { result ≡ track_at self cylinder side }
        ensures upper_bound { result ≤ 17129472008 }
    {
        let track = usize::from(cylinder) * usize::from(self.heads) + usize::from(side);
        8 + self.tracks_length(track)
    }

    // Where a slot's mark stands. The bound lets a caller add to it.
    #[tactic(auto, unfolding(crate::specs::Layout::offset_of))]
    pub fn offset(self, cylinder: u8, side: u8, slot: u8) -> usize
        ensures value { result ≡ offset_of self cylinder side slot }
        ensures upper_bound { result ≤ 17129734408 }
    {
        self.track(cylinder, side) + 5 + self.slots_length(slot)
    }

    // Whether two headers say the same in all five.
    #[tactic(auto, unfolding(crate::specs::Layout::same_of))]
    pub fn same(self, g: Geometry) -> bool
        ensures { result ≡ same_of self g }
    {
        self == g
    }
}
