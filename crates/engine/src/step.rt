// 01 Data commands: a later tick of a command at work.
ghost use Rattle.std.specs.Prelude.{◌≡◌};
ghost use Rattle.engine.specs.Step.{site_of, lost_of, stage_of, work_step, go_on_of};

use crate::format::{Formatting, slots_done};
use crate::read_id::{Identifying, no_id};
use chip::fifo::{Fifo, Setting};
use image::layout::Geometry;
use sectors::result::gone;
use sectors::track::stays;
use sectors::work::{Moving, Site, Stage, Step, Work};

pub(crate) fn site_of(work: Work) -> Site
    ensures { result ≡ site_of work }
{
    match work {
        Work::Identifying(site, ..) | Work::Moving(site, ..) | Work::Formatting(site, ..) => site,
    }
}

// The disk met is gone, or is another. Head, FIFO and setting come one by one, here and below, as `go_on` has them: a struct
// of the three would be opened again for `Moving`, `Formatting` and `Identifying`, so that it is no plainer.
#[tactic(auto, unfolding(crate::specs::Step::lost_of))]
fn lost(work: Work, head: u8, fifo: Fifo, set: Setting) -> Step
    ensures { result ≡ lost_of work head }
{
    match work {
        Work::Identifying(site, ..) => no_id(site),
        Work::Moving(site, task, _) => gone(site, task),
        Work::Formatting(site, plan, form) => {
            let formatting = Formatting {
                site,
                plan,
                head,
                fifo,
                set,
            };
            formatting.ends(false, 0x01, slots_done(form, plan), None)
        }
    }
}

// An enum and a match, and no closure: the record holds the stage as bytes (the C interface).
#[tactic(auto, unfolding(crate::specs::Step::stage_of))]
fn stage_on(moving: Moving, stage: Stage, s: &[u8]) -> Step
    ensures { result
        ≡ stage_of stage moving.site moving.task moving.head s.now moving.fifo moving.set.efifo moving.set.fifothr }
{
    match stage {
        Stage::Searching(look) => moving.search(look, s),
        Stage::Turning(slot) => moving.turn(slot),
        Stage::Reading(sector, done) => moving.read(sector, done, s),
        Stage::Draining(sector, looks) => moving.drain(sector, looks),
        Stage::Awaiting(slot, wait) => moving.await_byte(slot, wait),
        Stage::Storing(slot, done) => moving.store(slot, done),
    }
}

// As in `stage_on`, an enum and a match: the record holds the work as bytes.
#[tactic(auto, unfolding(crate::specs::Step::work_step))]
fn work_on(work: Work, head: u8, s: &[u8], fifo: Fifo, set: Setting) -> Step
    ensures { result ≡ work_step work head s.now fifo set.efifo set.fifothr }
{
    match work {
        Work::Identifying(site, slot, passes) => {
            let identifying = Identifying {
                site,
                slot,
                passes,
                head,
                fifo,
            };
            identifying.identify(s)
        }
        Work::Moving(site, task, stage) => {
            let moving = Moving {
                site,
                task,
                head,
                fifo,
                set,
            };
            stage_on(moving, stage, s)
        }
        Work::Formatting(site, plan, form) => {
            let formatting = Formatting {
                site,
                plan,
                head,
                fifo,
                set,
            };
            formatting.form_on(form)
        }
    }
}

// A tick after the first. docs/CONTRACTS.md names it with these arguments, those of its definition `go_on_of`.
#[tactic(auto, unfolding(crate::specs::Step::go_on_of))]
pub fn go_on(
    work: Work,
    disk: Option<Geometry>,
    head: u8,
    s: &[u8],
    fifo: Fifo,
    set: Setting,
) -> Step
    ensures { result ≡ go_on_of work disk head s.now fifo set.efifo set.fifothr }
{
    if stays(disk, site_of(work).disk) {
        return work_on(work, head, s, fifo, set);
    }
    lost(work, head, fifo, set)
}
