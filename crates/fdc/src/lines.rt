// What the record shows (01 Registers): MSR, INT, DRQ and DIR, worked out anew at each look.
ghost use Rattle.std.specs.Prelude.{◌≡◌, ◌≤◌};
ghost use Rattle.fdc.specs.Registers.{
  held_in,
  gate_in,
  dma_in,
  motor_in,
  busy_bits,
  flow_status,
  phase_status,
  phase_flow,
  phase_asks,
  loud_in,
  pending_in,
  any_busy,
  msr_of,
  int_of,
  drq_of,
  dir_of,
};

use crate::record::{Controller, Phase};
use drive::Drive;
use engine::flow::{Flow, flow_of};

// 01 Registers DOR: not-reset is bit 2.
pub fn held(dor: u8) -> bool
    ensures { result ≡ held_in dor }
{
    dor / 4 % 2 == 0
}

// 01 Registers DOR: the gate is bit 3.
fn gate(dor: u8) -> bool
    ensures { result ≡ gate_in dor }
{
    dor / 8 % 2 == 1
}

// 01 Commands: ND is bit 0 of Specify's second byte.
pub fn dma(spec2: u8) -> bool
    ensures { result ≡ dma_in spec2 }
{
    spec2 % 2 == 0
}

// 01 Registers DOR: motors are bits 4 to 7.
#[tactic(auto, unfolding(crate::specs::Registers::motor_in))]
pub fn motor(dor: u8, drive: u8) -> bool
    ensures { result ≡ motor_in dor drive }
{
    (dor >> (4 + drive % 4)) % 2 == 1
}

// Four weights: a `fold` over the drives is no plainer than the sum.
#[tactic(auto, unfolding(crate::specs::Registers::busy_bits))]
fn busy_bits(drives: [Drive; 4]) -> u8
    ensures value { result ≡ busy_bits drives }
    ensures upper_bound { result ≤ 15 }
{
    let [a, b, c, d] = drives;
    u8::from(a.busy) + 2 * u8::from(b.busy) + 4 * u8::from(c.busy) + 8 * u8::from(d.busy)
}

#[tactic(auto, unfolding(crate::specs::Registers::any_busy))]
pub fn any_busy(drives: [Drive; 4]) -> bool
    ensures { result ≡ any_busy drives }
{
    drives.iter().any(|d| d.busy)
}

#[tactic(auto, unfolding(crate::specs::Registers::pending_in))]
fn pending(drives: [Drive; 4]) -> bool
    ensures { result ≡ pending_in drives }
{
    drives.iter().any(|d| d.report != 0)
}

fn flow_status(flow: Flow, dma: bool, asks: bool) -> u8
    ensures value { result ≡ flow_status flow dma asks }
    ensures upper_bound { result ≤ 240 }
{
    match (flow, dma, asks) {
        (Flow::Quiet, _, _) | (_, true, _) => 0x10,
        (Flow::ToHost, false, true) => 0xF0,
        (Flow::ToHost, false, false) => 0x70,
        (Flow::FromHost, false, true) => 0xB0,
        (Flow::FromHost, false, false) => 0x30,
    }
}

fn phase_status(phase: Phase, dma: bool, asks: bool) -> u8
    ensures value { result ≡ phase_status phase dma asks }
    ensures upper_bound { result ≤ 240 }
{
    match phase {
        Phase::Idle => 0x80,
        Phase::Gathering(_) => 0x90,
        Phase::Starting(_) | Phase::Sensing(_) => 0x10,
        Phase::Working(work) => flow_status(flow_of(work), dma, asks),
        Phase::Answering(_) => 0xD0,
    }
}

// Which way a phase's bytes go.
pub fn phase_flow(phase: Phase) -> Flow
    ensures { result ≡ phase_flow phase }
{
    if let Phase::Working(work) = phase {
        flow_of(work)
    } else {
        Flow::Quiet
    }
}

fn phase_asks(phase: Phase, asks: bool) -> bool
    ensures { result ≡ phase_asks phase asks }
{
    asks & !matches!(phase_flow(phase), Flow::Quiet)
}

fn loud(phase: Phase) -> bool
    ensures { result ≡ loud_in phase }
{
    matches!(phase, Phase::Answering(true))
}

impl Controller {
    #[tactic(auto, unfolding(crate::specs::Registers::msr_of))]
    pub fn msr(self) -> u8
        ensures { result ≡ msr_of self }
    {
        if held(self.registers.dor) {
            return 0;
        }
        let status = phase_status(self.phase, dma(self.registers.spec2), self.fifo.asks);
        status + busy_bits(self.drives)
    }

    #[tactic(auto, unfolding(crate::specs::Registers::int_of))]
    pub fn int(self) -> bool
        ensures { result ≡ int_of self }
    {
        let request = !dma(self.registers.spec2) & phase_asks(self.phase, self.fifo.asks);
        gate(self.registers.dor) & (pending(self.drives) | loud(self.phase) | request)
    }

    #[tactic(auto, unfolding(crate::specs::Registers::drq_of))]
    pub fn drq(self) -> bool
        ensures { result ≡ drq_of self }
    {
        gate(self.registers.dor)
            & dma(self.registers.spec2)
            & phase_asks(self.phase, self.fifo.asks)
    }

    // 01 Registers DIR: the change flag of the drive in DOR, if its motor bit is on.
    #[tactic(auto, unfolding(crate::specs::Registers::dir_of))]
    pub fn dir(self) -> u8
        ensures { result ≡ dir_of self }
    {
        let dor = self.registers.dor;
        let changed = (2 <= dor % 4) | self.drive(dor).changed;
        if motor(dor, dor) & changed {
            0x80
        } else {
            0x00
        }
    }
}
