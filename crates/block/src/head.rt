// The head moved to the block's cylinder (02 2026-01): Recalibrate, ticks until INT, Sense Interrupt, once more if the
// report was 70 + drive; Seek unless cylinder 0.
// The record and both images stay three parameters: the caller lends each by itself, and 01's tick takes them so. A
// struct of the three borrows is no plainer: each tick and each port would take it apart again (`box_of` is of specs/).
ghost use Rattle.std.specs.Prelude.{◌≡◌};
ghost use Rattle.block.specs.Box.{box_of, came_with};
ghost use Rattle.block.specs.Ready.{in_time};
ghost use Rattle.block.specs.Head.{
  wait_of,
  st0_in,
  moved_with,
  moved_of,
  homed_of,
  sought_of,
  position_of,
  prepared_of,
};

use crate::ready::{Late, command, ready, sense};
use fdc::record::Controller;

// 01 Stepping: the most steps of a Recalibrate and of a Seek, each of Specify's 63 ticks.
const HOME: u32 = 79 * 63;

const SEEK: u32 = 81 * 63;

// Ticks until INT.
#[tactic(auto, using(crate::proofs::HeadLaws::wait_on, crate::proofs::HeadLaws::wait_over))]
fn wait(c: &mut Controller, a: &mut [u8], b: &mut [u8], budget: u32) -> Result<(), Late>
    ensures { came_with (in_time result) (box_of c.new a.new b.new)
        ≡ wait_of budget (box_of c.old a.old b.old) }
{
    for _ in 0..budget {
        let answer = c.tick(a, b);
        *c = answer.controller;
        if answer.int {
            return Ok(());
        }
    }
    Err(Late)
}

// A Seek or Recalibrate to its report, whose ST0 is the answer.
#[tactic(auto, unfolding(crate::specs::Head::moved_of))]
fn move_head(
    c: &mut Controller,
    a: &mut [u8],
    b: &mut [u8],
    bytes: &[u8],
    budget: u32,
) -> Result<u8, Late>
    ensures { moved_with (in_time result) (st0_in result) (box_of c.new a.new b.new)
        ≡ moved_of budget bytes.now (box_of c.old a.old b.old) }
{
    command(c, bytes);
    wait(c, a, b, budget)?;
    Ok(sense(c))
}

// A head at 80 or 81 needs a second Recalibrate.
#[tactic(auto, unfolding(crate::specs::Head::homed_of))]
fn home(c: &mut Controller, a: &mut [u8], b: &mut [u8], drive: u8) -> Result<u8, Late>
    ensures { moved_with (in_time result) (st0_in result) (box_of c.new a.new b.new)
        ≡ homed_of drive (box_of c.old a.old b.old) }
{
    let st0 = move_head(c, a, b, &[0x07, drive], HOME)?;
    if st0 == 0x70 + drive % 4 {
        return move_head(c, a, b, &[0x07, drive], HOME);
    }
    Ok(st0)
}

#[tactic(auto, unfolding(crate::specs::Head::sought_of))]
fn seek(c: &mut Controller, a: &mut [u8], b: &mut [u8], drive: u8, cylinder: u8) -> Result<u8, Late>
    ensures { moved_with (in_time result) (st0_in result) (box_of c.new a.new b.new)
        ≡ sought_of drive cylinder (box_of c.old a.old b.old) }
{
    if cylinder == 0 {
        return Ok(0);
    }
    move_head(c, a, b, &[0x0F, drive, cylinder], SEEK)
}

// From track 0 on to the cylinder.
#[tactic(auto, unfolding(crate::specs::Head::position_of))]
fn position(
    c: &mut Controller,
    a: &mut [u8],
    b: &mut [u8],
    drive: u8,
    cylinder: u8,
) -> Result<u8, Late>
    ensures { moved_with (in_time result) (st0_in result) (box_of c.new a.new b.new)
        ≡ position_of drive cylinder (box_of c.old a.old b.old) }
{
    home(c, a, b, drive)?;
    seek(c, a, b, drive, cylinder)
}

// Everything before the data command.
#[tactic(auto, unfolding(crate::specs::Head::prepared_of))]
pub(crate) fn prepare(
    c: &mut Controller,
    a: &mut [u8],
    b: &mut [u8],
    drive: u8,
    cylinder: u8,
) -> Result<(), Late>
    ensures { came_with (in_time result) (box_of c.new a.new b.new)
        ≡ prepared_of drive cylinder (box_of c.old a.old b.old) }
{
    ready(c, drive)?;
    position(c, a, b, drive, cylinder)?;
    Ok(())
}
