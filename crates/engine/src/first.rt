// 01 Data commands, the first tick: its tests, and what stands after them.
ghost use Rattle.std.specs.Prelude.{◌≡◌};
ghost use Rattle.engine.specs.First.{
  changes,
  misplanned,
  st1_of,
  gate_of,
  given_id,
  task_of,
  moving_of,
  start_job,
  entered_of,
  begin_of,
};

use crate::format::{format_id, forms};
use crate::read_id::no_address;
use chip::fifo::Fifo;
use image::layout::Geometry;
use image::slot::Id;
use sectors::follow::fresh_at;
use sectors::order::{Job, Order, Pass, Transfer};
use sectors::result::{end, goes, moves};
use sectors::track::has_track;
use sectors::work::{Form, Site, Stage, Step, Task, Work};

// What the first tests find wrong: no such disk, track or side; a protected one; a Format's plan.
#[derive(Clone, Copy, Debug, PartialEq, Eq)]
enum Fault {
    Missing,
    Protected,
    Misplanned,
}

// The end's ST1.
impl From<Fault> for u8 {
    ghost from_gives = { λ fault st1. st1 ≡ st1_of fault };

    fn from(fault: Fault) -> u8 {
        match fault {
            Fault::Missing => 0x01,
            Fault::Protected => 0x02,
            Fault::Misplanned => 0x04,
        }
    }
}

fn job_changes(job: Job) -> bool
    ensures { result ≡ changes job }
{
    match job {
        Job::Identify => false,
        Job::Move(transfer, _) => transfer.pass == Pass::Write,
        Job::Format(_) => true,
    }
}

fn job_misplanned(job: Job, g: Geometry) -> bool
    ensures { result ≡ misplanned job g }
{
    match job {
        Job::Format(plan) => (plan.n != g.n) | (plan.sc == 0) | (g.slots < plan.sc),
        Job::Identify | Job::Move(..) => false,
    }
}

// The tests of a first tick, in their order.
#[tactic(auto, unfolding(crate::specs::First::gate_of))]
fn first_tests(disk: Option<Geometry>, job: Job, side: u8, head: u8) -> Result<Geometry, Fault>
    ensures { result ≡ gate_of disk job side head }
{
    let g = disk.ok_or(Fault::Missing)?;
    if !has_track(g, head, side) {
        return Err(Fault::Missing);
    }
    if job_changes(job) & g.protect {
        return Err(Fault::Protected);
    }
    if job_misplanned(job, g) {
        return Err(Fault::Misplanned);
    }
    Ok(g)
}

// The address of an end in the first tick.
#[tactic(auto, unfolding(crate::specs::First::given_id))]
fn given_id(job: Job, drive: u8, side: u8, head: u8) -> Id
    ensures { result ≡ given_id job drive side head }
{
    match job {
        Job::Identify => no_address(),
        Job::Move(_, id) => id,
        Job::Format(plan) => format_id(plan, drive, head, side, 0),
    }
}

fn task_of(transfer: Transfer, id: Id) -> Task
    ensures { result ≡ task_of transfer id }
{
    Task {
        transfer,
        id,
        other: false,
        late: false,
    }
}

// A Write's request from the host goes on.
#[tactic(auto, unfolding(crate::specs::First::moving_of))]
fn moving(transfer: Transfer, id: Id, site: Site, fifo: Fifo) -> Step
    ensures { result ≡ moving_of transfer.pass transfer id site fifo }
{
    let asked = match transfer.pass {
        Pass::Read => fifo,
        Pass::Write => fifo.opened(),
    };
    moves(
        Stage::Searching(fresh_at(0)),
        site,
        task_of(transfer, id),
        asked,
        None,
    )
}

#[tactic(auto, unfolding(crate::specs::First::start_job))]
fn start(job: Job, site: Site, fifo: Fifo) -> Step
    ensures { result ≡ start_job job site fifo }
{
    match job {
        Job::Identify => goes(Work::Identifying(site, 0, 0), fifo, None),
        Job::Move(transfer, id) => moving(transfer, id, site, fifo),
        Job::Format(plan) => forms(Form::Awaiting(0, 0), site, plan, fifo.opened(), None),
    }
}

// The first tick of a command.
#[tactic(auto, unfolding(crate::specs::First::begin_of, crate::specs::First::entered_of))]
pub fn begin(order: Order, disk: Option<Geometry>, head: u8, fifo: Fifo) -> Step
    ensures { result ≡ begin_of order disk head fifo }
{
    let Order { drive, side, job } = order;
    match first_tests(disk, job, side, head) {
        Err(fault) => {
            let id = given_id(job, drive, side, head);
            end(false, drive, side, u8::from(fault), 0x00, id, None)
        }
        Ok(disk) => start(job, Site { drive, side, disk }, fifo),
    }
}
