// The calls (01 Calls) but for the tick. Each takes any record and hands back the new one with its answer; refusal
// 4 comes first (01 Form refusal).
ghost use Rattle.std.specs.Prelude.{◌≡◌, true, false};
ghost use Rattle.fdc.specs.Answer.{refused, answer_of};
ghost use Rattle.fdc.specs.Record.{valid_of};
ghost use Rattle.fdc.specs.Calls.{power_on, read_port, write_port, dma_read, dma_write, note_change};

use crate::answer::{Answer, Reply};
use crate::ports::port_of;
use crate::record::Controller;
use chip::refusal::Refusal;

impl Controller {
    // The call on a record without a fault; refusal 4 for any other.
    fn checked<F: FnOnce(Controller) -> Answer>(self, call: F) -> Answer
        requires { F.IsAlwaysCallable call }
        ensures called { valid_of self ≡ true → F.post call self result }
        ensures refused { valid_of self ≡ false → result ≡ answer_of (refused 4) self }
    {
        if self.valid() {
            call(self)
        } else {
            self.refuse(Refusal::Damaged)
        }
    }

    // Power-on with the two heads where they stand.
    #[tactic(auto, unfolding(crate::specs::Calls::power_on))]
    pub fn power_on(head0: u8, head1: u8) -> Answer
        ensures { result ≡ power_on head0 head1 }
    {
        if (head0 <= 81) & (head1 <= 81) {
            return Controller::new(head0, head1).answer(Reply::Done);
        }
        Controller::new(0, 0).refuse(Refusal::Head)
    }

    #[tactic(auto, unfolding(crate::specs::Calls::read_port))]
    pub fn read_port(self, offset: u8) -> Answer
        ensures { result ≡ read_port offset self }
    {
        self.checked(|c| c.read_register(port_of(offset)))
    }

    #[tactic(auto, unfolding(crate::specs::Calls::write_port))]
    pub fn write_port(self, offset: u8, byte: u8) -> Answer
        ensures { result ≡ write_port offset byte self }
    {
        self.checked(|c| c.write_register(port_of(offset), byte))
    }

    // To the host.
    #[tactic(auto, unfolding(crate::specs::Calls::dma_read))]
    pub fn dma_read(self, tc: bool) -> Answer
        ensures { result ≡ dma_read tc self }
    {
        self.checked(|c| c.dma_taken(tc))
    }

    // From the host.
    #[tactic(auto, unfolding(crate::specs::Calls::dma_write))]
    pub fn dma_write(self, byte: u8, tc: bool) -> Answer
        ensures { result ≡ dma_write byte tc self }
    {
        self.checked(|c| c.dma_given(byte, tc))
    }

    // A disk was changed in that drive.
    #[tactic(auto, unfolding(crate::specs::Calls::note_change))]
    pub fn note_change(self, drive: u8) -> Answer
        ensures { result ≡ note_change drive self }
    {
        self.checked(|c| {
            if 2 <= drive {
                return c.refuse(Refusal::Drive);
            }
            c.with_drive(drive, c.drive(drive).noted())
                .answer(Reply::Done)
        })
    }
}
