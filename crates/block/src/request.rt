// A block read and a block written (02 2026-01): refusals before any call, then the calls, then the seven status
// bytes. A read and a write stay two: each is four steps, of which serve.rt has two loops, and says why. The record and
// both images are three parameters, as head.rt says; the two public calls take them as they are lent.
ghost use Rattle.std.specs.Prelude.{◌≡◌};
ghost use Rattle.block.specs.Box.{box_of};
ghost use Rattle.block.specs.Request.{
  number_of,
  budget_of,
  order_bytes,
  ending_of,
  ending_bytes,
  lost_bytes,
  reply_in,
  asked_of,
  read_with,
  read_at,
  read_block,
  written_with,
  write_at,
  write_block,
};

use crate::head::prepare;
use crate::place::{Place, block_count};
use crate::ready::{Late, command};
use crate::serve::{read_sector, take_status, write_sector};
use fdc::record::Controller;
use image::disk::disk_in;
use image::layout::{Geometry, size_of};
use image::lent::pick;

// Why a request is refused, in the order of the tests.
#[derive(Clone, Copy, Debug, PartialEq, Eq)]
pub enum Refusal {
    DamagedRecord,
    NoSuchBlock,
    WrongSize,
}

// The document's number of a refusal.
impl From<Refusal> for u8 {
    ghost from_gives = { λ refusal number. number ≡ number_of refusal };

    fn from(refusal: Refusal) -> u8 {
        match refusal {
            Refusal::DamagedRecord => 4,
            Refusal::NoSuchBlock => 1,
            Refusal::WrongSize => 2,
        }
    }
}

// No Result: an end is no success by itself, its status bytes may tell of a bad block.
#[derive(Clone, Copy, Debug, PartialEq, Eq)]
pub enum Reply {
    Refused(Refusal),
    // The status bytes as the controller gave them.
    Ended(Ending),
    // A wait's budget ran out; `BlockEnds` has that it never does.
    RanOut(Ending),
}

// ST0 ST1 ST2 C H R N, as the seven bytes come: no Id in it, since `ending_of` and the statements name each (D-41).
#[derive(Clone, Copy, Debug, PartialEq, Eq)]
pub struct Ending {
    pub st0: u8,
    pub st1: u8,
    pub st2: u8,
    pub c: u8,
    pub h: u8,
    pub r: u8,
    pub n: u8,
}

// A reply with the record handed back, as 01's calls give theirs.
#[derive(Clone, Copy)]
pub struct Served {
    pub reply: Reply,
    pub controller: Controller,
}

impl From<[u8; 7]> for Ending {
    ghost from_gives = { λ bytes ending. ending ≡ ending_of bytes };

    fn from(bytes: [u8; 7]) -> Ending {
        let [st0, st1, st2, c, h, r, n] = bytes;
        Ending {
            st0,
            st1,
            st2,
            c,
            h,
            r,
            n,
        }
    }
}

impl From<Ending> for [u8; 7] {
    ghost from_gives = { λ ending bytes. bytes ≡ ending_bytes ending };

    fn from(e: Ending) -> [u8; 7] {
        [e.st0, e.st1, e.st2, e.c, e.h, e.r, e.n]
    }
}

// A sector of a drive's disk.
#[derive(Clone, Copy)]
struct Target {
    drive: u8,
    disk: Geometry,
    place: Place,
}

impl Target {
    #[tactic(auto, unfolding(crate::specs::Request::budget_of))]
    fn budget(self) -> u32
        ensures { result ≡ budget_of self.disk }
    {
        let slots = u32::from(self.disk.slots);
        2 * (slots + 1) * (2 * slots + size_of(self.disk.n) as u32 + 70)
    }

    // Code, side and drive, C H R N, EOT, GPL, DTL.
    fn order(self, code: u8) -> [u8; 9]
        ensures { result ≡ order_bytes code self.drive self.disk self.place }
    {
        [
            code,
            self.place.side % 2 * 4 + self.drive % 4,
            self.place.cylinder,
            self.place.side,
            self.place.sector,
            self.disk.n,
            self.disk.slots,
            0x1B,
            0xFF,
        ]
    }

    // What a budget that runs out would answer.
    fn lost(self) -> Ending
        ensures { result ≡ ending_of (lost_bytes self.disk self.place) }
    {
        Ending::from([
            0x40,
            0x10,
            0x00,
            self.place.cylinder,
            self.place.side,
            self.place.sector,
            self.disk.n,
        ])
    }

    fn reply(self, ended: Result<Ending, Late>) -> Reply
        ensures { result ≡ reply_in self.disk self.place ended }
    {
        match ended {
            Ok(ending) => Reply::Ended(ending),
            Err(_) => Reply::RanOut(self.lost()),
        }
    }

    #[tactic(auto, unfolding(crate::specs::Request::read_at, crate::specs::Request::read_on))]
    fn read(
        self,
        c: &mut Controller,
        a: &mut [u8],
        b: &mut [u8],
        out: &mut [u8],
    ) -> Result<Ending, Late>
        ensures { read_with (reply_in self.disk self.place result)
            (box_of c.new a.new b.new) out.new
            ≡ read_at self.drive self.disk self.place
            (box_of c.old a.old b.old) out.old }
    {
        prepare(c, a, b, self.drive, self.place.cylinder)?;
        command(c, &self.order(0x46));
        read_sector(c, a, b, out, self.budget())?;
        Ok(Ending::from(take_status(c)))
    }

    #[tactic(auto, unfolding(crate::specs::Request::write_at, crate::specs::Request::write_on))]
    fn write(
        self,
        c: &mut Controller,
        a: &mut [u8],
        b: &mut [u8],
        bytes: &[u8],
    ) -> Result<Ending, Late>
        ensures { written_with (reply_in self.disk self.place result)
            (box_of c.new a.new b.new)
            ≡ write_at self.drive self.disk self.place
            (box_of c.old a.old b.old) bytes.now }
    {
        prepare(c, a, b, self.drive, self.place.cylinder)?;
        command(c, &self.order(0x45));
        write_sector(c, a, b, bytes, self.budget())?;
        Ok(Ending::from(take_status(c)))
    }
}

// The sector that a request of a slice of so many bytes asks for, or why it is refused.
#[tactic(auto, unfolding(crate::specs::Request::asked_of, crate::specs::Request::asked_in))]
fn asked(c: Controller, img: &[u8], drive: u8, block: u32, size: usize) -> Result<Target, Refusal>
    ensures { result ≡ asked_of drive block size img.now c }
{
    if !c.valid() {
        return Err(Refusal::DamagedRecord);
    }
    let Some(disk) = disk_in(img) else {
        return Err(Refusal::NoSuchBlock);
    };
    if block_count(disk) <= block {
        return Err(Refusal::NoSuchBlock);
    }
    if size != size_of(disk.n) {
        return Err(Refusal::WrongSize);
    }
    let place = Place::of(disk, block);
    Ok(Target { drive, disk, place })
}

#[tactic(auto, using(crate::proofs::RequestLaws::read_asked, crate::proofs::RequestLaws::read_refused))]
fn read_for(
    c: &mut Controller,
    a: &mut [u8],
    b: &mut [u8],
    drive: u8,
    block: u32,
    out: &mut [u8],
) -> Reply
    ensures { read_with result (box_of c.new a.new b.new) out.new
        ≡ read_block drive block (box_of c.old a.old b.old) out.old }
{
    match asked(*c, pick(drive, a, b), drive, block, out.len()) {
        Ok(target) => target.reply(target.read(c, a, b, out)),
        Err(refusal) => Reply::Refused(refusal),
    }
}

pub fn read_block(
    c: Controller,
    a: &mut [u8],
    b: &mut [u8],
    drive: u8,
    block: u32,
    out: &mut [u8],
) -> Served
    ensures reply { result.reply
        ≡ (read_block drive block (box_of c a.old b.old) out.old).reply }
    ensures controller { result.controller
        ≡ (read_block drive block (box_of c a.old b.old) out.old).box.controller }
    ensures first { a.new
        ≡ (read_block drive block (box_of c a.old b.old) out.old).box.first }
    ensures second { b.new
        ≡ (read_block drive block (box_of c a.old b.old) out.old).box.second }
    ensures out { out.new
        ≡ (read_block drive block (box_of c a.old b.old) out.old).out }
{
    let mut controller = c;
    let reply = read_for(&mut controller, a, b, drive, block, out);
    Served { reply, controller }
}

#[tactic(auto, using(crate::proofs::RequestLaws::write_asked, crate::proofs::RequestLaws::write_refused))]
fn write_for(
    c: &mut Controller,
    a: &mut [u8],
    b: &mut [u8],
    drive: u8,
    block: u32,
    bytes: &[u8],
) -> Reply
    ensures { written_with result (box_of c.new a.new b.new)
        ≡ write_block drive block (box_of c.old a.old b.old) bytes.now }
{
    match asked(*c, pick(drive, a, b), drive, block, bytes.len()) {
        Ok(target) => target.reply(target.write(c, a, b, bytes)),
        Err(refusal) => Reply::Refused(refusal),
    }
}

pub fn write_block(
    c: Controller,
    a: &mut [u8],
    b: &mut [u8],
    drive: u8,
    block: u32,
    bytes: &[u8],
) -> Served
    ensures reply { result.reply
        ≡ (write_block drive block (box_of c a.old b.old) bytes.now).reply }
    ensures controller { result.controller
        ≡ (write_block drive block (box_of c a.old b.old) bytes.now).box.controller }
    ensures first { a.new
        ≡ (write_block drive block (box_of c a.old b.old) bytes.now).box.first }
    ensures second { b.new
        ≡ (write_block drive block (box_of c a.old b.old) bytes.now).box.second }
{
    let mut controller = c;
    let reply = write_for(&mut controller, a, b, drive, block, bytes);
    Served { reply, controller }
}
