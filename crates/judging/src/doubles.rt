// An address twice on a track (02 2026-04): for each C, H and N met, a mark for each of the 256 sector numbers.
ghost use Rattle.std.specs.Prelude.{◌≡◌, ◌<◌, unwrap_or, IfSome};
ghost use Rattle.judging.specs.Twice.{has_address, same_address, in_group, slots_of, First, twice_at};
ghost use Rattle.judging.specs.Group.{Passed};

use image::disk::between;
use image::layout::Geometry;
use image::slot::{Id, Slot, slot_in};

// 02 2026-04: slots with mark 0 or above 5 have no address.
fn has_address(mark: u8) -> bool
    ensures { result ≡ has_address mark }
{
    between(1, mark, 5)
}

// The same C, H and N.
fn in_group(a: Id, b: Id) -> bool
    ensures { result ≡ in_group a b }
{
    (a.c, a.h, a.n) == (b.c, b.h, b.n)
}

fn same_address(a: Slot, b: Slot) -> bool
    ensures { result ≡ same_address a b }
{
    has_address(a.mark) && has_address(b.mark) && a.id == b.id
}

// A track of an image: any geometry, and a track that the disk has or not.
#[derive(Clone, Copy)]
pub struct Track<'a> {
    pub s: &'a [u8],
    pub g: Geometry,
    pub cylinder: u8,
    pub side: u8,
}

impl Track<'_> {
    pub fn slot(self, k: u8) -> Slot
        ensures { result ≡ slots_of self.entry k }
    {
        slot_in(self.s, self.g, self.cylinder, self.side, k)
    }

    // One group from slot `lead` on, whose C, H and N it has, up to slot `end`: the first slot whose R was already met.
    // Its slots are marked in `done`.
    fn pass(self, lead: u8, end: u8, done: &mut [bool; 256]) -> Option<u8>
        ensures passed { Passed (slots_of self.entry) lead end done.old (unwrap_or result end) done.new }
        ensures within { IfSome result (λ k. k < end) }
    {
        let group = self.slot(lead).id;
        let mut seen = [false; 256];
        for k in lead..end {
            let slot = self.slot(k);
            if has_address(slot.mark) && in_group(slot.id, group) {
                let r = usize::from(slot.id.r);
                if seen[r] {
                    return Some(k);
                }
                seen[r] = true;
                done[usize::from(k)] = true;
            }
        }
        None
    }

    // The first slot that has the address of an earlier one. A group is passed once, with at most S looks, and neither a
    // pass nor the look over all goes on where an earlier double is known.
    pub fn first_double(self) -> Option<u8>
        ensures first { First (twice_at (slots_of self.entry)) self.entry.g.slots (unwrap_or result self.entry.g.slots) }
        ensures within { IfSome result (λ k. k < self.entry.g.slots) }
    {
        let mut done = [false; 256];
        let mut double = None;
        for k in 0..self.g.slots {
            let end = double.unwrap_or(self.g.slots);
            if end <= k {
                break;
            }
            if has_address(self.slot(k).mark) && !done[usize::from(k)] {
                double = self.pass(k, end, &mut done).or(double);
            }
        }
        double
    }

    // The first slot before slot k that has its address.
    pub fn first_same(self, k: u8) -> Option<u8>
        ensures first { let slots = slots_of self.entry in
            First (λ j. same_address (slots j) (slots k)) k (unwrap_or result k) }
        ensures within { IfSome result (λ j. j < k) }
    {
        let slot = self.slot(k);
        (0..k).find(|j| same_address(self.slot(*j), slot))
    }
}
