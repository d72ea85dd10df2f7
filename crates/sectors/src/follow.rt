// 01 Next: what follows a sector read, written or skipped. The address that `Next` carries is used as it stands (01
// Easy 1).
ghost use Rattle.std.specs.Prelude.{◌≡◌};
ghost use Rattle.sectors.specs.Follow.{fresh_at, followed_of, follow_of, turn_of};

use crate::result::gone;
use crate::track::{has_track, next_slot};
use crate::work::{Moving, Search, Stage, Step};
use chip::next::Next;
use image::lent::Put;

pub fn fresh_at(slot: u8) -> Search
    ensures { result ≡ fresh_at slot }
{
    Search {
        slot,
        passes: 0,
        met: false,
        wrong: false,
        bad: false,
    }
}

impl Moving {
    #[tactic(auto, unfolding(crate::specs::Follow::followed_of))]
    fn followed(self, next: Next, slot: u8, effect: Option<Put>) -> Step
        ensures { result ≡ followed_of next slot self.site self.task self.fifo effect }
    {
        let behind = next_slot(slot, self.site.disk.slots);
        match next {
            Next::Ended(id) => self.task.ends(true, 0x00, 0x00, id, effect, self.site),
            Next::PastEot(id) => self.task.ends(false, 0x80, 0x00, id, effect, self.site),
            Next::OtherSide(id) => {
                let turned = Moving {
                    site: self.site.on_side(1),
                    task: self.task.with_id(id),
                    ..self
                };
                turned.moves(Stage::Turning(behind), effect)
            }
            Next::SameSide(id) => {
                let advanced = Moving {
                    task: self.task.with_id(id),
                    ..self
                };
                advanced.moves(Stage::Searching(fresh_at(behind)), effect)
            }
        }
    }

    #[tactic(auto, unfolding(crate::specs::Follow::follow_of))]
    pub fn follow(self, slot: u8, tc: bool, effect: Option<Put>) -> Step
        ensures { result ≡ follow_of slot tc self.site self.task self.fifo effect }
    {
        let task = self.task;
        let transfer = task.transfer;
        let next = chip::next::follow(
            task.id,
            transfer.eot,
            transfer.mt,
            self.site.side,
            task.step(),
            tc,
        );
        self.followed(next, slot, effect)
    }

    // The tick after an MT turn: the side's tests, and the request is left as it is.
    #[tactic(auto, unfolding(crate::specs::Follow::turn_of))]
    pub fn turn(self, slot: u8) -> Step
        ensures { result ≡ turn_of slot self.site self.task self.head self.fifo }
    {
        if has_track(self.site.disk, self.head, self.site.side) {
            return self.moves(Stage::Searching(fresh_at(slot)), None);
        }
        gone(self.site, self.task)
    }
}
