// The address after a sector, and what follows it (01 Next, Result).
ghost use Rattle.std.specs.Prelude.{◌≡◌, cond};
ghost use Rattle.chip.specs.Next.{next_of, advanced_of, after_by, turned};

use image::slot::Id;

// What follows a finished sector. Each carries the one next address, so that no caller advances R again (01 Easy 1).
#[derive(Clone, Copy, Debug, PartialEq, Eq)]
pub enum Next {
    // The normal end: TC came.
    Ended(Id),
    // The end with ST1 80: the sector was EOT.
    PastEot(Id),
    // MT turns to side 1.
    OtherSide(Id),
    // The search goes on.
    SameSide(Id),
}

fn turned_byte(h: u8) -> u8
    ensures { result ≡ turned h }
{
    h / 2 * 2 + (1 - h % 2)
}

// The next address; step: how far R goes below EOT. What a transfer was told stays apart, since that type is of a crate above.
#[tactic(auto, unfolding(crate::specs::Next::advanced_of))]
pub fn advance(id: Id, eot: u8, mt: bool, side: u8, step: u8) -> Id
    ensures { result ≡ advanced_of id eot mt side step }
{
    if id.r != eot {
        return Id {
            r: id.r.wrapping_add(step),
            ..id
        };
    }
    let stays = mt & (side == 0);
    let c = if stays { id.c } else { id.c.wrapping_add(1) };
    let h = if mt { turned_byte(id.h) } else { id.h };
    Id { c, h, r: 1, ..id }
}

// For a write the caller's TC means: TC came and the FIFO is empty.
#[tactic(auto, unfolding(crate::specs::Next::next_of))]
pub fn follow(id: Id, eot: u8, mt: bool, side: u8, step: u8, tc: bool) -> Next
    ensures { result ≡ next_of id eot mt side step tc }
{
    let a = advance(id, eot, mt, side, step);
    if tc {
        return Next::Ended(a);
    }
    if id.r != eot {
        return Next::SameSide(a);
    }
    if mt & (side == 0) {
        return Next::OtherSide(a);
    }
    Next::PastEot(a)
}
