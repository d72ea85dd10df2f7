// The data register and the DMA cycles (01 Refusals 2 and 3; 01 FIFO): command bytes, results, and a command's own
// bytes.
ghost use Rattle.std.specs.Prelude.{◌≡◌};
ghost use Rattle.chip.specs.Fifo.{handed_of, taken_of};
ghost use Rattle.fdc.specs.Answer.{answer_of};
ghost use Rattle.fdc.specs.Record.{with_fifo};
ghost use Rattle.fdc.specs.Data.{
  shifted,
  result_taken,
  read_in,
  read_fifo,
  offered_of,
  write_fifo,
  phase_hears,
  moved_of,
  cycle_of,
  dma_read_of,
  dma_write_of,
};

use crate::answer::{Answer, Reply};
use crate::lines::phase_flow;
use crate::record::{Controller, Phase, RESULTS, pad};
use chip::refusal::Refusal;
use engine::flow::{Flow, hears_tc};

// The results behind the first, so that what is left is all that is held.
fn shift(bytes: [u8; RESULTS]) -> [u8; RESULTS]
    ensures { result ≡ shifted bytes }
{
    pad(&bytes[1..])
}

fn phase_hears(phase: Phase) -> bool
    ensures { result ≡ phase_hears phase }
{
    matches!(phase, Phase::Working(work) if hears_tc(work))
}

impl Controller {
    // The host is handed the oldest byte of the FIFO.
    fn handed(self, tc: bool) -> Answer
        ensures { result ≡ answer_of (Reply.Byte (handed_of self.fifo)) (with_fifo (taken_of tc self.fifo) self) }
    {
        let byte = self.fifo.handed();
        self.with_fifo(self.fifo.taken(tc))
            .answer(Reply::Byte(byte))
    }

    // After the last result byte it is idle.
    #[tactic(auto, unfolding(crate::specs::Data::result_taken))]
    fn result_taken(self) -> Controller
        ensures { result ≡ result_taken self }
    {
        if self.bytes.left <= 1 {
            return self.idled();
        }
        self.answered(false, shift(self.bytes.results), self.bytes.left - 1)
    }

    #[tactic(auto, unfolding(crate::specs::Data::read_in))]
    fn read_in(self) -> Answer
        ensures { result ≡ read_in self.phase self }
    {
        match self.phase {
            Phase::Working(_) => self.handed(false),
            Phase::Answering(_) => {
                let byte = self.bytes.results[0];
                self.result_taken().answer(Reply::Byte(byte))
            }
            _ => self.refuse(Refusal::Turn),
        }
    }

    // RQM and DIO, MSR's two upper bits, are both 1.
    #[tactic(auto, unfolding(crate::specs::Data::read_fifo))]
    pub fn read_fifo(self) -> Answer
        ensures { result ≡ read_fifo self }
    {
        if self.msr() / 64 == 3 {
            return self.read_in();
        }
        self.refuse(Refusal::Turn)
    }

    #[tactic(auto, unfolding(crate::specs::Data::offered_of))]
    fn offer(self, byte: u8) -> Controller
        ensures { result ≡ offered_of self.phase byte self }
    {
        match self.phase {
            Phase::Idle => self.begin(byte),
            Phase::Gathering(entry) => self.gathered(byte).go_on(entry),
            Phase::Working(_) => self.with_fifo(self.fifo.given(self.registers.efifo, false, byte)),
            Phase::Starting(_) | Phase::Sensing(_) | Phase::Answering(_) => self,
        }
    }

    // RQM is 1 and DIO 0.
    #[tactic(auto, unfolding(crate::specs::Data::write_fifo))]
    pub fn write_fifo(self, byte: u8) -> Answer
        ensures { result ≡ write_fifo byte self }
    {
        if self.msr() / 64 == 2 {
            return self.offer(byte).answer(Reply::Done);
        }
        self.refuse(Refusal::Turn)
    }

    // A byte moved the way the flow goes, which comes beside the record, as `moved_of` has it.
    #[tactic(auto, unfolding(crate::specs::Data::moved_of))]
    fn moved(self, flow: Flow, byte: u8, tc: bool) -> Answer
        ensures { result ≡ moved_of flow byte tc self }
    {
        match flow {
            Flow::Quiet => self.refuse(Refusal::Line),
            Flow::ToHost => self.handed(tc),
            Flow::FromHost => {
                let counts = tc & phase_hears(self.phase);
                self.with_fifo(self.fifo.given(self.registers.efifo, counts, byte))
                    .answer(Reply::Done)
            }
        }
    }

    // One DMA cycle, with the byte on the bus: the phase says the direction.
    #[tactic(auto, unfolding(crate::specs::Data::cycle_of))]
    fn cycle(self, byte: u8, tc: bool) -> Answer
        ensures { result ≡ cycle_of byte tc self }
    {
        if self.drq() {
            return self.moved(phase_flow(self.phase), byte, tc);
        }
        self.refuse(Refusal::Line)
    }

    // The two directions, a match each: one function with a flag for the direction is no plainer.
    #[tactic(auto, unfolding(crate::specs::Data::dma_read_of))]
    pub fn dma_taken(self, tc: bool) -> Answer
        ensures { result ≡ dma_read_of tc self }
    {
        match phase_flow(self.phase) {
            Flow::ToHost => self.cycle(0, tc),
            _ => self.refuse(Refusal::Line),
        }
    }

    #[tactic(auto, unfolding(crate::specs::Data::dma_write_of))]
    pub fn dma_given(self, byte: u8, tc: bool) -> Answer
        ensures { result ≡ dma_write_of byte tc self }
    {
        match phase_flow(self.phase) {
            Flow::FromHost => self.cycle(byte, tc),
            _ => self.refuse(Refusal::Line),
        }
    }
}
