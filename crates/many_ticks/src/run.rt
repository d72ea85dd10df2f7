// Many ticks (house): up to and with the first that changes INT or DRQ. The images stay two slices, as a call lends them
// (01 Calls).
ghost use Rattle.std.specs.Prelude.{true, Some, ◌≡◌, ◌-◌, ◌≤◌, length};
ghost use Rattle.fdc.specs.declared.answer.Reply.TheVariants.{Done};
ghost use Rattle.fdc.specs.Answer.{answer_of};
ghost use Rattle.fdc.specs.Record.{valid_of};
ghost use Rattle.many_ticks.specs.Run.{changed, ran_with, no_tick_made, ran_for, onward_of, many_ticks};
ghost use Rattle.many_ticks.specs.declared.stream.Stream.TheVariants.{Reads, Stores};
ghost use Rattle.many_ticks.specs.Stream.{stream_in};

use crate::sector::{reads, stores};
use crate::stream::{Stream, stream_in};
use chip::refusal::Refusal;
use fdc::answer::{Answer, Reply};
use fdc::record::{Controller, Phase};
use sectors::work::{Moving, Sector, Site, Stage, Task, Work};

// The last tick's answer, and how many were made.
#[derive(Clone, Copy)]
pub struct Ran {
    pub answer: Answer,
    pub made: u32,
}

fn differ(int: bool, drq: bool, next_int: bool, next_drq: bool) -> bool
    ensures { result ≡ changed int drq next_int next_drq }
{
    (int, drq) != (next_int, next_drq)
}

// The ticks left of n, each in full.
#[tactic(auto, using(crate::proofs::RunLaws::goes_on_lem, crate::proofs::RunLaws::finished))]
fn run(c: Controller, a: &mut [u8], b: &mut [u8], n: u32, rest: u32) -> Ran
    requires { rest ≤ n }
    ensures { ran_with result.answer result.made a.new b.new
        ≡ ran_for rest (ran_with (answer_of Done c) (n - rest) a.old b.old) }
{
    let mut answer = c.answer(Reply::Done);
    for left in (0..rest).rev() {
        let next = answer.controller.tick(a, b);
        if differ(answer.int, answer.drq, next.int, next.drq) {
            return Ran {
                answer: next,
                made: n - left,
            };
        }
        answer = next;
    }
    Ran { answer, made: n }
}

// Of n ticks some were made, from c to next, of which only the last may have changed a line.
#[tactic(auto, using(crate::proofs::RunLaws::changed_lines))]
fn onward(c: Controller, next: Controller, a: &mut [u8], b: &mut [u8], n: u32, left: u32) -> Ran
    requires { left ≤ n }
    ensures { ran_with result.answer result.made a.new b.new
        ≡ onward_of (answer_of Done c) left (ran_with (answer_of Done next) (n - left) a.old b.old) }
{
    let answer = next.answer(Reply::Done);
    if differ(c.int(), c.drq(), answer.int, answer.drq) {
        return Ran {
            answer,
            made: n - left,
        };
    }
    run(next, a, b, n, left)
}

// A Read in a sector. It and `storing` differ in the loop, the stage and the theorem: one function of both would be handed
// all three, and say no less. Behind the record comes what `Reads` and `Stores` carry, of which the theorems speak. No struct
// holds the three premises of these two and `streamed`: `stream_in` is of the images as they are lent, so that a struct would
// have what stands in both as ghost fields, and each function would still ask that a and b are these.
#[tactic(auto, using(crate::proofs::StreamLaws::reads_ticks))]
fn reading(
    c: Controller,
    site: Site,
    task: Task,
    sector: Sector,
    done: u16,
    a: &mut [u8],
    b: &mut [u8],
    n: u32,
) -> Ran
    requires c_value { valid_of c ≡ true }
    requires drives_len { length c.drives ≡ 4 }
    requires c_value_2 { stream_in a.old b.old c ≡ Some (Reads site task sector done) }
    ensures { ran_with result.answer result.made a.new b.new
        ≡ ran_for n (no_tick_made a.old b.old c) }
{
    let moving = Moving {
        site,
        task,
        head: c.drive(site.drive).head,
        fifo: c.fifo,
        set: c.registers.setting(),
    };
    let p = reads(moving, sector.slot, done, a, b, n);
    let next = c.with_phase(Phase::Working(Work::Moving(
        site,
        task,
        Stage::Reading(sector, p.done),
    )));
    onward(c, next.with_fifo(p.fifo), a, b, n, p.left)
}

// A Write in a sector.
#[tactic(auto, using(crate::proofs::StreamLaws::stores_ticks))]
fn storing(
    c: Controller,
    site: Site,
    task: Task,
    slot: u8,
    done: u16,
    a: &mut [u8],
    b: &mut [u8],
    n: u32,
) -> Ran
    requires c_value { valid_of c ≡ true }
    requires drives_len { length c.drives ≡ 4 }
    requires c_value_2 { stream_in a.old b.old c ≡ Some (Stores site task slot done) }
    ensures { ran_with result.answer result.made a.new b.new
        ≡ ran_for n (no_tick_made a.old b.old c) }
{
    let moving = Moving {
        site,
        task,
        head: c.drive(site.drive).head,
        fifo: c.fifo,
        set: c.registers.setting(),
    };
    let p = stores(moving, slot, done, a, b, n);
    let next = c.with_phase(Phase::Working(Work::Moving(site, task, Stage::Storing(slot, p.done))));
    onward(c, next.with_fifo(p.fifo), a, b, n, p.left)
}

fn streamed(c: Controller, stream: Option<Stream>, a: &mut [u8], b: &mut [u8], n: u32) -> Ran
    requires c_value { valid_of c ≡ true }
    requires drives_len { length c.drives ≡ 4 }
    requires c_value_2 { stream_in a.old b.old c ≡ stream }
    ensures { ran_with result.answer result.made a.new b.new
        ≡ ran_for n (no_tick_made a.old b.old c) }
{
    match stream {
        None => run(c, a, b, n, n),
        Some(Stream::Reads(site, task, sector, done)) => reading(
            c, site, task, sector, done, a, b, n,
        ),
        Some(Stream::Stores(site, task, slot, done)) => storing(c, site, task, slot, done, a, b, n),
    }
}

#[tactic(auto, unfolding(crate::specs::Run::many_ticks))]
pub fn ticks(c: Controller, a: &mut [u8], b: &mut [u8], n: u32) -> Ran
    ensures answer { result.answer ≡ (many_ticks n a.old b.old c).answer }
    ensures made { result.made ≡ (many_ticks n a.old b.old c).made }
    ensures first { a.new ≡ (many_ticks n a.old b.old c).first }
    ensures second { b.new ≡ (many_ticks n a.old b.old c).second }
{
    if c.valid() {
        let stream = stream_in(c, a, b);
        return streamed(c, stream, a, b, n);
    }
    let answer = c.answer(Reply::Refused(Refusal::Damaged));
    Ran { answer, made: 0 }
}
