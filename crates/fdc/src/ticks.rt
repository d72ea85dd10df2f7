// The tick (01 Calls, Stepping, Data commands): the drives step, then the command at work decides from the record
// and the image picked, and then its one store is made. The images stay two slices, as a call lends them (01 Calls).
ghost use Rattle.std.specs.Prelude.{◌≡◌, cond, ◌≤◌, length};
ghost use Rattle.fdc.specs.Ticks.{
  seen_of,
  protected_in,
  tick_all,
  all_stand,
  stepped_of,
  st3_of,
  sensed_at,
  still_of,
  settled_of,
  decided_of,
  start_tick,
  work_tick,
  decide_in,
  decide_of,
  tick_of,
  image_after,
};

use crate::answer::{Answer, Reply};
use crate::lines::{held, motor};
use crate::record::{Controller, Phase};
use chip::fifo::Fifo;
use chip::refusal::Refusal;
use chip::step::step_ticks;
use drive::Drive;
use engine::first::begin;
use engine::flow::drive_of;
use engine::step::go_on;
use image::disk::disk_in;
use image::layout::Geometry;
use image::lent::{Put, pick, store};
use sectors::order::Order;
use sectors::work::{Step, Then, Work};

// What a tick gives before its store is made: the record, and the effect on the image of the drive named.
#[derive(Clone, Copy)]
pub struct Decision {
    pub controller: Controller,
    pub drive: u8,
    pub effect: Option<Put>,
}

// 01 Image mounted: the disk of a drive, if its motor bit is on.
#[tactic(auto, unfolding(crate::specs::Ticks::seen_of))]
fn seen(dor: u8, drive: u8, s: &[u8]) -> Option<Geometry>
    ensures { result ≡ seen_of dor drive s.now }
{
    if motor(dor, drive) { disk_in(s) } else { None }
}

// An empty drive counts as unprotected.
fn protected(disk: Option<Geometry>) -> bool
    ensures { result ≡ protected_in disk }
{
    disk.is_some_and(|g| g.protect)
}

// Drives 2 and 3 are never mounted. Each drive has a number and a mount of its own, so a `map` is no plainer.
#[tactic(auto, unfolding(crate::specs::Ticks::tick_all))]
fn tick_all(drives: [Drive; 4], mounted0: bool, mounted1: bool, ticks: u16) -> [Drive; 4]
    ensures { result ≡ tick_all drives mounted0 mounted1 ticks }
{
    let [a, b, c, d] = drives;
    [
        a.tick(0, mounted0, ticks),
        b.tick(1, mounted1, ticks),
        c.tick(2, false, ticks),
        d.tick(3, false, ticks),
    ]
}

// `four`, here and where it is handed on: many_ticks' theorems `reads_ticks` and `stores_ticks` have it as a premise.
pub fn all_stand(drives: [Drive; 4]) -> bool
    ensures stand { result ≡ all_stand drives }
    ensures four { length drives ≡ 4 }
{
    drives.iter().all(|d| d.stands())
}

// 01 Commands Sense Drive: write protect 40, track 0 10, and 28 always.
#[tactic(auto, unfolding(crate::specs::Ticks::st3_of))]
fn st3(unit: u8, protect: bool, head: u8) -> u8
    ensures { result ≡ st3_of unit protect head }
{
    let zero = (unit % 4 < 2) & (head == 0);
    0x28 + 0x40 * u8::from(protect) + 0x10 * u8::from(zero) + unit % 8
}

impl Controller {
    // Drives that stand have no tick: no image is looked at for them.
    #[tactic(auto, using(crate::proofs::StandLaws::all_stand_stepped), unfolding(crate::specs::Ticks::stepped_of))]
    fn stepped(self, a: &[u8], b: &[u8]) -> Controller
        ensures { result ≡ stepped_of a.now b.now self }
    {
        if all_stand(self.drives) {
            return self;
        }
        let mounted0 = seen(self.registers.dor, 0, a).is_some();
        let mounted1 = seen(self.registers.dor, 1, b).is_some();
        let ticks = step_ticks(self.registers.spec1);
        self.with_drives(tick_all(self.drives, mounted0, mounted1, ticks))
    }

    // 01 Commands Sense Drive: ST3, which raises no INT.
    #[tactic(auto, unfolding(crate::specs::Ticks::sensed_at))]
    fn sense(self, unit: u8, s: &[u8]) -> Controller
        ensures { result ≡ sensed_at unit s.now self }
    {
        let d = self.drive(unit);
        let protect = protected(seen(self.registers.dor, unit % 4, s));
        self.say(st3(unit, protect, d.head))
    }

    // The seven result bytes, or the command goes on. Neither a verdict nor an array is this crate's, so that no From can say
    // them here.
    #[tactic(auto, unfolding(crate::specs::Ticks::settled_of))]
    fn settle(self, then: Then, fifo: Fifo) -> Controller
        ensures { result ≡ settled_of then fifo self }
    {
        match then {
            Then::Ends(v) => {
                let id = v.id;
                let results = [v.st0, v.st1, v.st2, id.c, id.h, id.r, id.n];
                self.with_results(true, &results).with_fifo(fifo)
            }
            Then::Works(work) => self.with_phase(Phase::Working(work)).with_fifo(fifo),
        }
    }

    #[tactic(auto, unfolding(crate::specs::Ticks::still_of))]
    fn still(self) -> Decision
        ensures { result ≡ still_of self }
    {
        Decision {
            controller: self,
            drive: 0,
            effect: None,
        }
    }

    #[tactic(auto, unfolding(crate::specs::Ticks::decided_of))]
    fn decided(self, drive: u8, step: Step) -> Decision
        ensures { result ≡ decided_of drive step self }
    {
        Decision {
            controller: self.settle(step.then, step.fifo),
            drive,
            effect: step.effect,
        }
    }

    #[tactic(auto, unfolding(crate::specs::Ticks::start_tick))]
    fn start(self, order: Order, s: &[u8]) -> Decision
        ensures { result ≡ start_tick order s.now self }
    {
        let head = self.drive(order.drive).head;
        let disk = seen(self.registers.dor, order.drive, s);
        self.decided(order.drive, begin(order, disk, head, self.fifo))
    }

    #[tactic(auto, unfolding(crate::specs::Ticks::work_tick))]
    fn work(self, work: Work, s: &[u8]) -> Decision
        ensures { result ≡ work_tick work s.now self }
    {
        let drive = drive_of(work);
        let head = self.drive(drive).head;
        let disk = seen(self.registers.dor, drive, s);
        let step = go_on(work, disk, head, s, self.fifo, self.registers.setting());
        self.decided(drive, step)
    }

    // The phase comes beside the record, as its definition `decide_in` has it.
    #[tactic(auto, unfolding(crate::specs::Ticks::decide_in))]
    fn decide_in<'a>(self, phase: Phase, a: &'a [u8], b: &'a [u8]) -> Decision
        ensures { result ≡ decide_in phase a.now b.now self }
    {
        match phase {
            Phase::Idle | Phase::Gathering(_) | Phase::Answering(_) => self.still(),
            Phase::Starting(order) => self.start(order, pick(order.drive, a, b)),
            Phase::Working(work) => self.work(work, pick(drive_of(work), a, b)),
            Phase::Sensing(unit) => self.sense(unit, pick(unit % 4, a, b)).still(),
        }
    }

    // What a tick does, for any record: the store is not made here.
    #[tactic(auto, unfolding(crate::specs::Ticks::decide_of))]
    pub fn decide<'a>(self, a: &'a [u8], b: &'a [u8]) -> Decision
        ensures { result ≡ decide_of a.now b.now self }
    {
        if held(self.registers.dor) {
            return self.still();
        }
        self.stepped(a, b).decide_in(self.phase, a, b)
    }

    // One byte time, over the two images. It tests the record itself: under `checked` (tried) the proof doesn't know what
    // the closure left in them.
    #[tactic(auto, unfolding(crate::specs::Ticks::still_of, crate::specs::Ticks::ruled_of, crate::specs::Ticks::tick_of, crate::specs::Ticks::image_after))]
    pub fn tick(self, a: &mut [u8], b: &mut [u8]) -> Answer
        ensures answer { result ≡ tick_of a.old b.old self }
        ensures first { a.new ≡ image_after 0 a.old b.old self a.old }
        ensures second { b.new ≡ image_after 1 a.old b.old self b.old }
    {
        if !self.valid() {
            return self.refuse(Refusal::Damaged);
        }
        let decision = self.decide(a, b);
        store(decision.drive, decision.effect, a, b);
        decision.controller.answer(Reply::Done)
    }
}
