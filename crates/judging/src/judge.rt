// The judge (02 2026-04): the parts of the file in their order, each left at its first fault.
ghost use Rattle.std.specs.Prelude.{◌≡◌, ◌≤◌, ◌<◌, length, unwrap_or};
ghost use Rattle.image.specs.Disk.{InRange, geometry_in};
ghost use Rattle.image.specs.Layout.{length_of};
ghost use Rattle.judging.specs.Judge.{
  header_fault,
  length_fault,
  front_fault,
  slot_fault,
  tracks_fault,
  end_fault,
  body_fault,
  judge_of,
};
ghost use Rattle.judging.specs.Twice.{First, twice_at, slots_of};

use crate::doubles::Track;
use crate::fault::{Fault, Kind, bytes_fault};
use image::disk::{between, geometry_in};
use image::layout::Geometry;

// 01 Image, the header's bytes, each from the least to the most.
const HEADER: [(u8, u8); 8] = [
    (0x01, 0x01),
    (0x00, 0x00),
    (0x05, 0x05),
    (1, 82),
    (1, 2),
    (1, 36),
    (1, 3),
    (0, 1),
];

// An image that ends inside the header is wrong at its end.
#[tactic(auto, using(crate::proofs::VerdictLaws::first_none, crate::proofs::VerdictLaws::first_more, crate::proofs::VerdictLaws::first_there))]
fn header_fault(s: &[u8]) -> Result<(), Fault>
    ensures { result ≡ header_fault s.now }
{
    for (at, (least, most)) in HEADER.iter().enumerate() {
        let right = s.get(at).is_some_and(|byte| between(*least, *byte, *most));
        if !right {
            return Err(Fault {
                kind: Kind::Header,
                at,
            });
        }
    }
    Ok(())
}

// A mark above 5, or the track's first double.
fn slot_fault(t: Track, k: u8, double: Option<u8>) -> Result<(), Fault>
    requires first { First (twice_at (slots_of t)) t.g.slots (unwrap_or double t.g.slots) }
    requires k_le_double { k ≤ unwrap_or double t.g.slots }
    requires k_lt_slots { k < t.g.slots }
    ensures { result ≡ slot_fault t.entry.g t.entry.s.now t.entry.cylinder t.entry.side k }
{
    let at = t.g.offset(t.cylinder, t.side, k);
    if t.slot(k).mark > 5 {
        return Err(Fault {
            kind: Kind::Mark,
            at,
        });
    }
    if double == Some(k) {
        return Err(Fault {
            kind: Kind::Twice,
            at,
        });
    }
    Ok(())
}

// An image whose header is right, and what the header says.
#[derive(Clone, Copy)]
struct Image<'a> {
    s: &'a [u8],
    g: Geometry,
    ghost in_range: { InRange g },
}

impl Image<'_> {
    // 02 2026-04: at the smaller of the length asked and the length given.
    #[tactic(auto, unfolding(crate::specs::Judge::length_fault))]
    fn length_fault(self) -> Result<(), Fault>
        ensures { result ≡ length_fault self.entry.g self.entry.s.now }
    {
        let asked = self.g.length();
        let given = self.s.len();
        if given == asked {
            return Ok(());
        }
        Err(Fault {
            kind: Kind::Length,
            at: given.min(asked),
        })
    }

    // Tag 02 and the length of what follows; cylinder and side.
    #[tactic(auto, using(image::proofs::LayoutLaws::product_le, image::proofs::LayoutLaws::size_le), unfolding(crate::specs::Judge::front_fault))]
    fn front_fault(self, cylinder: u8, side: u8) -> Result<(), Fault>
        ensures { result ≡ front_fault self.entry.g self.entry.s.now cylinder side }
    {
        let at = self.g.track(cylinder, side);
        // As the maker of blank disks writes it; here too the cast is proved by the range of this header.
        let [high, low] = ((2 + self.g.slots_length(self.g.slots)) as u16).to_be_bytes();
        bytes_fault(self.s, Kind::Track, at, &[2, high, low])?;
        bytes_fault(self.s, Kind::Place, at + 3, &[cylinder, side])
    }

    // 01 Form first fault: nested loops over tracks and slots, left by label with the fault found.
    #[tactic(auto, using(crate::proofs::JudgeLaws::sound_below, crate::proofs::JudgeLaws::track_slots, crate::proofs::VerdictLaws::left_sound, crate::proofs::VerdictLaws::first_none, crate::proofs::VerdictLaws::first_more))]
    fn tracks_fault(self) -> Result<(), Fault>
        ensures { result ≡ tracks_fault self.entry.g self.entry.s.now }
    {
        let g = self.g;
        let heads = usize::from(g.heads);
        let mut found = Ok(());
        'tracks: for t in 0..usize::from(g.cylinders) * heads {
            let cylinder = (t / heads) as u8;
            let side = (t % heads) as u8;
            found = self.front_fault(cylinder, side);
            if found.is_err() {
                break 'tracks;
            }
            let track = Track {
                s: self.s,
                g,
                cylinder,
                side,
            };
            let double = track.first_double();
            for k in 0..g.slots {
                found = slot_fault(track, k, double);
                if found.is_err() {
                    break 'tracks;
                }
            }
        }
        found
    }

    #[tactic(auto, using(image::proofs::LayoutLaws::length_ge, image::proofs::DiskLaws::length_le))]
    fn end_fault(self) -> Result<(), Fault>
        ensures { result ≡ end_fault self.entry.g self.entry.s.now }
    {
        bytes_fault(self.s, Kind::End, self.g.length() - 3, &[3, 0, 0])
    }

    // A wrong length hides the rest.
    #[tactic(auto, unfolding(crate::specs::Judge::body_fault))]
    fn body_fault(self) -> Result<(), Fault>
        ensures { result ≡ body_fault self.entry.g self.entry.s.now }
    {
        self.length_fault()?;
        self.tracks_fault()?;
        self.end_fault()
    }
}

// The verdict on any bytes. A wrong header hides the rest.
#[tactic(auto, using(crate::proofs::HeaderLaws::right_range), unfolding(crate::specs::Judge::judge_of))]
pub fn judge(s: &[u8]) -> Result<(), Fault>
    ensures { result ≡ judge_of s.now }
{
    header_fault(s)?;
    let image = Image {
        s,
        g: geometry_in(s),
    };
    image.body_fault()
}
