// A sector's bytes, a tick each (01 Read, 01 Write): as long as one more follows and the request stays as it is, only the
// FIFO, the bytes counted and the image change. The images stay two slices, as a call lends them (01 Calls).
ghost use Rattle.std.specs.Prelude.{◌≡◌};
ghost use Rattle.image.specs.Lent.{pick_of};
ghost use Rattle.many_ticks.specs.Sector.{read_rests, reads_of, store_rests, pace_stored, sector_stores};

use chip::fifo::{Fifo, Setting};
use image::bytes::byte_at;
use image::lent::{Put, pick, store};
use sectors::work::{Moving, Site, Task};

// How far it came: the sector's bytes counted, and the ticks not made.
#[derive(Clone, Copy)]
pub struct Pace {
    pub done: u16,
    pub fifo: Fifo,
    pub left: u32,
}

// TC, a full FIFO, or the last byte that passes. In these loops the FIFO stays beside the rest of `Moving`, so that no byte
// copies the whole. `done` is counted beside `left`: it is handed back where the loop ends too, so that a range of it in a
// `zip` would leave its last value to be worked out once more.
fn read_rests(site: Site, task: Task, set: Setting, done: u16, fifo: Fifo) -> bool
    ensures { result ≡ read_rests site task set.efifo done fifo }
{
    fifo.tc | fifo.full(set.efifo) | (site.pass_bytes(task) <= usize::from(done) + 1)
}

#[tactic(auto, using(crate::proofs::SectorLaws::read_over, crate::proofs::SectorLaws::read_rested, crate::proofs::SectorLaws::read_turned, crate::proofs::SectorLaws::read_on_lem))]
fn read_bytes(moving: Moving, slot: u8, from: u16, s: &[u8], n: u32) -> Pace
    ensures { result
        ≡ reads_of moving.site moving.task moving.head slot s.now moving.set.efifo moving.set.fifothr
        moving.fifo.asks n from moving.fifo }
{
    let Moving {
        site,
        task,
        head,
        fifo: f,
        set,
    } = moving;
    let mut done = from;
    let mut fifo = f;
    for left in (0..n).rev() {
        if read_rests(site, task, set, done, fifo) {
            return Pace {
                done,
                fifo,
                left: left + 1,
            };
        }
        let byte = byte_at(s, site.data_place(head, slot, done));
        fifo = fifo.filled(set, false, byte);
        done += 1;
        if f.asks != fifo.asks {
            return Pace { done, fifo, left };
        }
    }
    Pace {
        done,
        fifo,
        left: 0,
    }
}

// From the image of the site's drive.
pub fn reads<'a>(moving: Moving, slot: u8, from: u16, a: &'a [u8], b: &'a [u8], n: u32) -> Pace
    ensures { result
        ≡ reads_of moving.site moving.task moving.head slot (pick_of moving.site.drive a.now b.now)
        moving.set.efifo moving.set.fifothr moving.fifo.asks n from moving.fifo }
{
    read_bytes(moving, slot, from, pick(moving.site.drive, a, b), n)
}

// All bytes passed, or none to store.
fn store_rests(site: Site, task: Task, done: u16, fifo: Fifo) -> bool
    ensures { result ≡ store_rests site task done fifo }
{
    (site.pass_bytes(task) <= usize::from(done)) | (fifo.count == 0)
}

// As `read_bytes`, but both images are lent to be written, and a byte goes the other way: one loop of both would be handed
// each of its steps.
#[tactic(auto, using(crate::proofs::SectorLaws::store_over, crate::proofs::SectorLaws::store_rested, crate::proofs::SectorLaws::store_on))]
pub fn stores(moving: Moving, slot: u8, from: u16, a: &mut [u8], b: &mut [u8], n: u32) -> Pace
    ensures { pace_stored result a.new b.new
        ≡ sector_stores moving.site moving.task moving.head slot moving.set.efifo moving.set.fifothr
        moving.fifo.asks n from moving.fifo a.old b.old }
{
    let Moving {
        site,
        task,
        head,
        fifo: f,
        set,
    } = moving;
    let mut done = from;
    let mut fifo = f;
    for left in (0..n).rev() {
        if store_rests(site, task, done, fifo) {
            return Pace {
                done,
                fifo,
                left: left + 1,
            };
        }
        let at = site.data_place(head, slot, done);
        let byte = fifo.front();
        store(site.drive, Some(Put { at, byte }), a, b);
        fifo = fifo.drawn(set);
        done += 1;
        if f.asks != fifo.asks {
            return Pace { done, fifo, left };
        }
    }
    Pace {
        done,
        fifo,
        left: 0,
    }
}
