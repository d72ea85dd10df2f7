// The parts of a blank disk's image, each put into a slice that is as long as the part (01 Image; 02 2026-01).
ghost use Rattle.std.specs.Prelude.{◌≡◌, ℕ, ◌*◌, ◌≤◌, List, length};
ghost use Rattle.image.specs.Disk.{InRange};
ghost use Rattle.image.specs.Layout.{length_of, slot_length, track_length};
ghost use Rattle.blank.specs.Blank.{in_turn, slot_of, slots_of, track_of, cylinder_of, tracks_of, blank_of};
ghost use Rattle.blank.specs.Parts.{MayPut, Puts};

use image::layout::Geometry;

// Part by part, `count` of them, each of `size` bytes. By their places: `chunks_exact_mut` asks for a size above 0, one more
// clause at each caller.
fn put_parts<F: Fn(&mut [u8], u8)>(s: &mut [u8], size: usize, count: u8, put: F)
    ghost part: { ℕ → List ℕ }
    requires whole { length s.old ≡ count * size }
    requires callable { MayPut F.Fn put size count }
    requires puts { Puts F.Fn put size count part }
    requires long { (k : ℕ) → length (part k) ≡ size }
    ensures { s.new ≡ in_turn part count }
{
    for k in 0..count {
        let at = usize::from(k) * size;
        put(&mut s[at..at + size], k);
    }
}

// A disk that is to be made: its numbers, each in its range, and the byte that its sectors are filled with.
#[derive(Clone, Copy)]
pub(crate) struct Blank {
    pub g: Geometry,
    pub fill: u8,
    ghost in_range: { InRange g },
}

impl Blank {
    // 01 Image slot: mark 1, the address of its place, B bytes. R is one more than the slot's number.
    fn put_slot(self, s: &mut [u8], cylinder: u8, side: u8, k: u8)
        requires s_len { length s.old ≡ slot_length self.g }
        requires k_bound { k ≤ 254 }
        ensures { s.new ≡ slot_of self.g self.fill cylinder side k }
    {
        let (front, bytes) = s.split_at_mut(5);
        front.copy_from_slice(&[1, cylinder, side, k + 1, self.g.n]);
        bytes.fill(self.fill);
    }

    // 01 Image: per track, tag 02 with the length of what follows, cylinder, side, S slots.
    #[tactic(auto, using(image::proofs::LayoutLaws::product_le, image::proofs::LayoutLaws::size_le, crate::proofs::PartLaws::track_is, crate::proofs::PartLaws::track_bytes))]
    fn put_track(self, s: &mut [u8], cylinder: u8, side: u8)
        requires { length s.old ≡ track_length self.g }
        ensures { s.new ≡ track_of self.g self.fill cylinder side }
    {
        let g = self.g;
        // The cast is proved here by the range of this disk's numbers, so that no method of Geometry can make it for all.
        let [high, low] = ((2 + g.slots_length(g.slots)) as u16).to_be_bytes();
        let (front, slots) = s.split_at_mut(5);
        front.copy_from_slice(&[2, high, low, cylinder, side]);
        put_parts(slots, g.slots_length(1), g.slots, |slot, k| {
            self.put_slot(slot, cylinder, side, k)
        });
    }

    #[tactic(auto, unfolding(image::specs::Layout::track_length))]
    fn track_length(self) -> usize
        ensures value { result ≡ track_length self.g }
        ensures upper_bound { result ≤ 262400 }
    {
        5 + self.g.slots_length(self.g.slots)
    }

    // 01 Image: side 0 first. Each track has `size` bytes.
    fn put_cylinder(self, s: &mut [u8], size: usize, cylinder: u8)
        requires size { size ≡ track_length self.g }
        requires s_len { length s.old ≡ self.g.heads * track_length self.g }
        ensures { s.new ≡ cylinder_of self.g self.fill cylinder }
    {
        put_parts(s, size, self.g.heads, |track, side| {
            self.put_track(track, cylinder, side)
        });
    }

    // 01 Image: cylinder by cylinder.
    fn put_tracks(self, s: &mut [u8])
        requires { length s.old ≡ self.g.cylinders * (self.g.heads * track_length self.g) }
        ensures { s.new ≡ tracks_of self.g self.fill }
    {
        let size = self.track_length();
        let tracks_length = usize::from(self.g.heads) * size;
        put_parts(s, tracks_length, self.g.cylinders, |tracks, cylinder| {
            self.put_cylinder(tracks, size, cylinder)
        });
    }

    // The whole image: tag 01, length 5, the five numbers; the tracks; tag 03 with length 0.
    #[tactic(auto, using(crate::proofs::PartLaws::length_is, crate::proofs::PartLaws::blank_bytes))]
    pub(crate) fn put_image(self, image: &mut [u8])
        requires { length image.old ≡ length_of self.g }
        ensures { image.new ≡ blank_of self.g self.fill }
    {
        let g = self.g;
        let (header, rest) = image.split_at_mut(8);
        let (tracks, end) = rest.split_at_mut(rest.len() - 3);
        header.copy_from_slice(&[
            1,
            0,
            5,
            g.cylinders,
            g.heads,
            g.slots,
            g.n,
            u8::from(g.protect),
        ]);
        self.put_tracks(tracks);
        end.copy_from_slice(&[3, 0, 0]);
    }
}
