// Whether a sector's bytes pass, tick after tick, and nothing else moves.
ghost use Rattle.std.specs.Prelude.{◌≡◌, length};
ghost use Rattle.sectors.specs.Track.{stays_of};
ghost use Rattle.fdc.specs.Ticks.{seen_of};
ghost use Rattle.many_ticks.specs.Stream.{
  site_of,
  stage_stream,
  phase_stream,
  meets_of,
  kept,
  rests_of,
  stream_in,
};

use fdc::lines::{held, motor};
use fdc::record::{Controller, Phase};
use fdc::ticks::all_stand;
use image::disk::disk_in;
use image::layout::Geometry;
use image::lent::pick;
use sectors::track::stays;
use sectors::work::{Sector, Site, Stage, Task, Work};

// A sector's bytes: those of a Read to the host, or those of a Write from it.
#[derive(Clone, Copy, Debug, PartialEq, Eq)]
pub enum Stream {
    Reads(Site, Task, Sector, u16),
    Stores(Site, Task, u8, u16),
}

impl Stream {
    fn site(self) -> Site
        ensures { result ≡ site_of self }
    {
        match self {
            Stream::Reads(site, ..) | Stream::Stores(site, ..) => site,
        }
    }
}

// 01 Data commands: the disk of the first tick is in the drive, and its motor on.
#[tactic(auto, unfolding(fdc::specs::Ticks::seen_of, sectors::specs::Track::stays_of))]
fn there(dor: u8, drive: u8, met: Geometry, s: &[u8]) -> bool
    ensures { result ≡ stays_of (seen_of dor drive s.now) met }
{
    motor(dor, drive) && stays(disk_in(s), met)
}

fn stage_stream(site: Site, task: Task, stage: Stage) -> Option<Stream>
    ensures { result ≡ stage_stream site task stage }
{
    match stage {
        Stage::Reading(sector, done) => Some(Stream::Reads(site, task, sector, done)),
        Stage::Storing(slot, done) => Some(Stream::Stores(site, task, slot, done)),
        _ => None,
    }
}

fn phase_stream(phase: Phase) -> Option<Stream>
    ensures { result ≡ phase_stream phase }
{
    match phase {
        Phase::Working(Work::Moving(site, task, stage)) => stage_stream(site, task, stage),
        _ => None,
    }
}

#[tactic(auto, unfolding(crate::specs::Stream::meets_of))]
fn meets<'a>(dor: u8, site: Site, a: &'a [u8], b: &'a [u8]) -> bool
    ensures { result ≡ meets_of dor site a.now b.now }
{
    there(dor, site.drive, site.disk, pick(site.drive, a, b))
}

#[tactic(auto, unfolding(crate::specs::Stream::kept))]
fn keep<'a>(dor: u8, stream: Option<Stream>, a: &'a [u8], b: &'a [u8]) -> Option<Stream>
    ensures { result ≡ kept dor stream a.now b.now }
{
    stream.filter(|s| meets(dor, s.site(), a, b))
}

// Not held in reset, and no drive moves. `four`, here and below: `reads_ticks` and `stores_ticks` have it as a premise.
#[tactic(auto, unfolding(crate::specs::Stream::rests_of))]
fn rests(c: Controller) -> bool
    ensures rest { result ≡ rests_of c }
    ensures four { length c.drives ≡ 4 }
{
    !held(c.registers.dor) & all_stand(c.drives)
}

#[tactic(auto, unfolding(crate::specs::Stream::stream_in))]
pub fn stream_in<'a>(c: Controller, a: &'a [u8], b: &'a [u8]) -> Option<Stream>
    ensures stream { result ≡ stream_in a.now b.now c }
    ensures four { length c.drives ≡ 4 }
{
    if rests(c) {
        return keep(c.registers.dor, phase_stream(c.phase), a, b);
    }
    None
}
