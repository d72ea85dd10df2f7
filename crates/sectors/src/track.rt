// Where a data command works (01 Data commands): the track under the drive's head, on the side in use.
ghost use Rattle.std.specs.Prelude.{◌≡◌, ◌≤◌};
ghost use Rattle.sectors.specs.Search.{slot_of};
ghost use Rattle.sectors.specs.Track.{
  has_track,
  stays_of,
  mark_place,
  data_place,
  sector_bytes,
  pass_bytes,
  next_slot,
};

use crate::work::{Site, Task};
use image::layout::{Geometry, size_of};
use image::slot::{Slot, slot_in};

#[tactic(auto, unfolding(crate::specs::Track::has_track))]
pub fn has_track(g: Geometry, head: u8, side: u8) -> bool
    ensures { result ≡ has_track g head side }
{
    (head < g.cylinders) & (side < g.heads)
}

// Whether the disk is the one met in the first tick.
#[tactic(auto, unfolding(crate::specs::Track::stays_of))]
pub fn stays(disk: Option<Geometry>, met: Geometry) -> bool
    ensures { result ≡ stays_of disk met }
{
    disk.is_some_and(|g| g.same(met))
}

impl Site {
    #[tactic(auto, unfolding(crate::specs::Track::mark_place))]
    pub fn mark_place(self, head: u8, slot: u8) -> usize
        ensures value { result ≡ mark_place self head slot }
        ensures upper_bound { result ≤ 17129734408 }
    {
        self.disk.offset(head, self.side, slot)
    }

    #[tactic(auto, unfolding(crate::specs::Track::data_place))]
    pub fn data_place(self, head: u8, slot: u8, done: u16) -> usize
        ensures { result ≡ data_place self head slot done }
    {
        self.mark_place(head, slot) + 5 + usize::from(done)
    }

    #[tactic(auto, unfolding(crate::specs::Track::mark_place))]
    pub fn slot_in(self, s: &[u8], head: u8, slot: u8) -> Slot
        ensures { result ≡ slot_of s.now self head slot }
    {
        slot_in(s, self.disk, head, self.side, slot)
    }

    pub fn sector_bytes(self) -> usize
        ensures value { result ≡ sector_bytes self }
        ensures upper_bound { result ≤ 1024 }
    {
        size_of(self.disk.n)
    }

    // Where bytes pass to or from the host; a sector ends at `sector_bytes`.
    pub fn pass_bytes(self, task: Task) -> usize
        ensures value { result ≡ pass_bytes self task }
        ensures upper_bound { result ≤ 1024 }
    {
        self.sector_bytes()
    }
}

pub fn next_slot(slot: u8, slots: u8) -> u8
    ensures { result ≡ next_slot slot slots }
{
    if u16::from(slot) + 1 < u16::from(slots) {
        slot + 1
    } else {
        0
    }
}
