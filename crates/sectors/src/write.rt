// 01 Write: the wait for a byte, and then one store a tick: broken mark, B bytes, good mark. No type says `done < 1024`:
// `Stage::Storing` holds any u16, as the record's bytes have it, so that one would be made in `store` and opened again in
// `put`, which is no plainer.
ghost use Rattle.std.specs.Prelude.{◌≡◌, ◌<◌};
ghost use Rattle.sectors.specs.Write.{
  underrun,
  written_mark,
  await_of,
  put_of,
  dry_of,
  written_of,
  store_of,
};

use crate::work::{Moving, Stage, Step, Task};
use chip::fifo::Fifo;
use image::lent::Put;
use image::mark::Mark;

impl Task {
    fn written_mark(self, broken: bool) -> u8
        ensures { result ≡ written_mark broken self }
    {
        let deleted = self.transfer.deleted;
        u8::from(Mark::Data { deleted, broken })
    }
}

impl Moving {
    // The broken mark goes in before the first byte, so that a cut leaves the sector broken.
    #[tactic(auto, unfolding(crate::specs::Write::await_of))]
    pub fn await_byte(self, slot: u8, wait: u8) -> Step
        ensures { result ≡ await_of slot wait self.site self.task self.head self.fifo }
    {
        if self.fifo.count == 0 {
            if 63 <= wait {
                return self.task.ends_late(None, self.site);
            }
            return self.moves(Stage::Awaiting(slot, wait + 1), None);
        }
        let at = self.site.mark_place(self.head, slot);
        let byte = self.task.written_mark(true);
        self.moves(Stage::Storing(slot, 0), Some(Put { at, byte }))
    }

    #[tactic(auto, unfolding(crate::specs::Write::put_of))]
    fn put(self, byte: u8, slot: u8, done: u16) -> Step
        requires { done < 1024 }
        ensures { result ≡ put_of byte slot done self.site self.task self.head self.fifo }
    {
        let at = self.site.data_place(self.head, slot, done);
        self.moves(Stage::Storing(slot, done + 1), Some(Put { at, byte }))
    }

    // A byte is due and the FIFO has none: zeros from here on, as after TC (000 4.2.5).
    #[tactic(auto, unfolding(crate::specs::Write::underrun))]
    fn run_under(self, slot: u8, done: u16) -> Step
        requires { done < 1024 }
        ensures { result ≡ underrun slot done self.site self.task self.head }
    {
        let late = Moving {
            task: self.task.tardy(),
            fifo: Fifo::shut(),
            ..self
        };
        late.put(0x00, slot, done)
    }

    // No byte is there: zeros after TC.
    #[tactic(auto, unfolding(crate::specs::Write::dry_of))]
    fn dry(self, slot: u8, done: u16) -> Step
        requires { done < 1024 }
        ensures { result ≡ dry_of slot done self.site self.task self.head self.fifo }
    {
        if self.fifo.tc {
            return self.put(0x00, slot, done);
        }
        self.run_under(slot, done)
    }

    #[tactic(auto, unfolding(crate::specs::Write::written_of))]
    fn written(self, slot: u8) -> Step
        ensures { result ≡ written_of slot self.site self.task self.head self.fifo }
    {
        let at = self.site.mark_place(self.head, slot);
        let byte = self.task.written_mark(false);
        let effect = Some(Put { at, byte });
        if self.task.late {
            return self.task.ends_late(effect, self.site);
        }
        let tc = self.fifo.tc & (self.fifo.count == 0);
        self.follow(slot, tc, effect)
    }

    #[tactic(auto, unfolding(crate::specs::Write::store_of))]
    pub fn store(self, slot: u8, done: u16) -> Step
        ensures { result
            ≡ store_of slot done self.site self.task self.head self.fifo self.set.efifo self.set.fifothr }
    {
        if self.site.sector_bytes() <= usize::from(done) {
            return self.written(slot);
        }
        if self.fifo.count == 0 {
            return self.dry(slot, done);
        }
        let byte = self.fifo.front();
        let fifo = self.fifo.drawn(self.set);
        Moving { fifo, ..self }.put(byte, slot, done)
    }
}
