// Where in an image a byte stands (02 2026-04): its track's cylinder and side, and its slot. Any geometry and any byte
// have an answer (D-02).
ghost use Rattle.std.specs.Prelude.{◌≡◌};
ghost use Rattle.judging.specs.PlaceOf.{low_byte, place_of};

use image::layout::Geometry;

#[derive(Clone, Copy, Debug, Default, PartialEq, Eq)]
pub struct Place {
    pub cylinder: u8,
    pub side: u8,
    pub slot: u8,
}

// A cast takes only what fits.
fn low_byte(x: usize) -> u8
    ensures { result ≡ low_byte x }
{
    (x % 256) as u8
}

#[tactic(auto, unfolding(crate::specs::PlaceOf::place_of, image::specs::Layout::track_length))]
pub fn place_of(g: Geometry, at: usize) -> Place
    ensures { result ≡ place_of g at }
{
    let heads = usize::from(g.heads);
    if heads == 0 {
        return Place::default();
    }
    let length = 5 + g.slots_length(g.slots);
    let behind = at.saturating_sub(8);
    let track = behind / length;
    let rest = (behind % length).saturating_sub(5);
    Place {
        cylinder: low_byte(track / heads),
        side: low_byte(track % heads),
        slot: low_byte(rest / g.slots_length(1)),
    }
}
