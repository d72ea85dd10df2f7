// The controller made ready for a request (02 2026-01): DOR with bit 2 low, then high, Sense Interrupt until 80,
// Specify.
ghost use Rattle.std.specs.Prelude.{◌≡◌, ◌≤◌};
ghost use Rattle.fdc.specs.Answer.{value_of};
ghost use Rattle.fdc.specs.Calls.{read_port, write_port};
ghost use Rattle.block.specs.Ready.{
  in_time,
  weight_of,
  dor_for,
  reset_for,
  command_of,
  sensed_with,
  sense_of,
  waited_with,
  clear_of,
  ready_of,
};

use fdc::answer::value;
use fdc::record::Controller;

// The data register.
const FIFO: u8 = 5;

// A wait's budget ran out.
#[derive(Clone, Copy, Debug, PartialEq, Eq)]
pub(crate) struct Late;

fn write(c: &mut Controller, offset: u8, byte: u8)
    ensures { c.new ≡ (write_port offset byte c.old).controller }
{
    *c = c.write_port(offset, byte).controller;
}

fn read(c: &mut Controller, offset: u8) -> u8
    ensures byte { result ≡ value_of (read_port offset c.old).reply }
    ensures controller { c.new ≡ (read_port offset c.old).controller }
{
    let answer = c.read_port(offset);
    *c = answer.controller;
    value(answer.reply)
}

// A byte from the data register.
pub(crate) fn result_byte(c: &mut Controller) -> u8
    ensures byte { result ≡ value_of (read_port 5 c.old).reply }
    ensures controller { c.new ≡ (read_port 5 c.old).controller }
{
    read(c, FIFO)
}

// sectors and capi have such a product too (sectors/src/ends.rt says why).
fn weight(on: bool, byte: u8) -> u8
    ensures value { result ≡ weight_of on byte }
    ensures upper_bound { result ≤ byte }
{
    byte * u8::from(on)
}

// DOR with the drive selected, its motor and the gate on, the other motors as they are, in reset or not.
#[tactic(auto, unfolding(crate::specs::Ready::dor_for))]
fn dor_for(drive: u8, held: bool, dor: u8) -> u8
    ensures { result ≡ dor_for drive held dor }
{
    let second = drive == 1;
    let motor0 = weight(!second | (dor / 0x10 % 2 == 1), 0x10);
    let motor1 = weight(second | (dor / 0x20 % 2 == 1), 0x20);
    let free = weight(!held, 0x04);
    let select = weight(second, 0x01);
    dor / 0x40 % 4 * 0x40 + motor1 + motor0 + 0x08 + free + select
}

#[tactic(auto, unfolding(crate::specs::Ready::reset_for))]
fn reset(c: &mut Controller, drive: u8)
    ensures { c.new ≡ reset_for drive c.old }
{
    let dor = read(c, 2);
    write(c, 2, dor_for(drive, true, dor));
    write(c, 2, dor_for(drive, false, dor));
}

// The bytes of a command, one after the other.
pub(crate) fn command(c: &mut Controller, bytes: &[u8])
    ensures { c.new ≡ command_of bytes.now c.old }
{
    for &byte in bytes {
        write(c, FIFO, byte);
    }
}

// Sense Interrupt: ST0 and PCN, or 80 alone.
#[tactic(auto, unfolding(crate::specs::Ready::sense_of))]
pub(crate) fn sense(c: &mut Controller) -> u8
    ensures { sensed_with result c.new ≡ sense_of c.old }
{
    write(c, FIFO, 0x08);
    let st0 = read(c, FIFO);
    if st0 != 0x80 {
        let _pcn = read(c, FIFO);
    }
    st0
}

// Sense Interrupt until 80: a reset leaves a report for each of four drives at most.
#[tactic(auto, using(crate::proofs::ReadyLaws::clear_over))]
fn clear(c: &mut Controller) -> Result<(), Late>
    ensures { waited_with (in_time result) c.new ≡ clear_of 5 c.old }
{
    for _ in 0..5u8 {
        if sense(c) == 0x80 {
            return Ok(());
        }
    }
    Err(Late)
}

// Specify F0 00: 63 ticks for a step, and DMA.
#[tactic(auto, unfolding(crate::specs::Ready::ready_of))]
pub(crate) fn ready(c: &mut Controller, drive: u8) -> Result<(), Late>
    ensures { waited_with (in_time result) c.new ≡ ready_of drive c.old }
{
    reset(c, drive);
    clear(c)?;
    command(c, &[0x03, 0xF0, 0x00]);
    Ok(())
}
