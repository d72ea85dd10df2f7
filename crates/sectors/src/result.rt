// 01 Result: an end, and a tick that ends nothing.
ghost use Rattle.std.specs.Prelude.{◌≡◌, ◌≤◌};
ghost use Rattle.sectors.specs.Result.{st0_of, end_of, move_fails, goes_of, moves_of};

use crate::ends::bit;
use crate::work::{Moving, Site, Stage, Step, Task, Then, Verdict, Work};
use chip::fifo::Fifo;
use image::lent::Put;
use image::slot::Id;

fn st0(normal: bool, drive: u8, side: u8) -> u8
    ensures { result ≡ st0_of normal drive side }
{
    bit(!normal, 0x40) + 4 * (side % 2) + drive % 4
}

// Every end empties the FIFO. The drive and the side come by themselves: where the first tests fail there is no site.
#[tactic(auto, unfolding(crate::specs::Result::end_of))]
pub fn end(normal: bool, drive: u8, side: u8, st1: u8, st2: u8, id: Id, effect: Option<Put>) -> Step
    ensures { result ≡ end_of normal drive side st1 st2 id effect }
{
    let verdict = Verdict {
        st0: st0(normal, drive, side),
        st1,
        st2,
        id,
    };
    Step {
        then: Then::Ends(verdict),
        fifo: Fifo::empty(),
        effect,
    }
}

pub fn goes(work: Work, fifo: Fifo, effect: Option<Put>) -> Step
    ensures { result ≡ goes_of work fifo effect }
{
    Step {
        then: Then::Works(work),
        fifo,
        effect,
    }
}

// A line here and a line for a Format (`forms`): they make two cases of `Work`.
pub fn moves(stage: Stage, site: Site, task: Task, fifo: Fifo, effect: Option<Put>) -> Step
    ensures { result ≡ moves_of stage site task fifo effect }
{
    goes(Work::Moving(site, task, stage), fifo, effect)
}

// The disk met is gone, or the side turned to is not there.
pub fn gone(site: Site, task: Task) -> Step
    ensures { result ≡ move_fails 0x01 0x00 site task }
{
    task.fails(0x01, 0x00, site)
}

impl Moving {
    pub(crate) fn moves(self, stage: Stage, effect: Option<Put>) -> Step
        ensures { result ≡ moves_of stage self.site self.task self.fifo effect }
    {
        moves(stage, self.site, self.task, self.fifo, effect)
    }
}
