// 01 Read: a sector's bytes to the FIFO, then the looks at the FIFO.
ghost use Rattle.std.specs.Prelude.{◌≡◌};
ghost use Rattle.sectors.specs.Read.{overrun, last_byte, read_on, read_of, drained_of, drain_of};

use crate::work::{Moving, Sector, Stage, Step};
use chip::fifo::Fifo;
use image::bytes::byte_at;

impl Moving {
    // For the request: the last byte sent.
    fn last_byte(self, done: u16) -> bool
        ensures { result ≡ last_byte self.site self.task done }
    {
        self.site.pass_bytes(self.task) <= usize::from(done) + 1
    }

    #[tactic(auto, unfolding(crate::specs::Read::read_on))]
    fn read_on(self, sector: Sector, done: u16) -> Step
        ensures { result ≡ read_on sector done self.site self.task self.fifo }
    {
        if self.site.sector_bytes() <= usize::from(done) + 1 {
            return self.moves(Stage::Draining(sector, 0), None);
        }
        self.moves(Stage::Reading(sector, done + 1), None)
    }

    // The FIFO is full and a byte is due: it is lost, and the sector runs on as after TC (000 4.2.5).
    #[tactic(auto, unfolding(crate::specs::Read::overrun))]
    fn run_over(self, sector: Sector, done: u16) -> Step
        ensures { result ≡ overrun sector done self.site self.task }
    {
        let late = Moving {
            task: self.task.tardy(),
            fifo: Fifo::shut(),
            ..self
        };
        late.read_on(sector, done)
    }

    #[tactic(auto, unfolding(crate::specs::Read::read_of))]
    pub fn read(self, sector: Sector, done: u16, s: &[u8]) -> Step
        ensures { result
            ≡ read_of sector done self.site self.task self.head s.now self.fifo self.set.efifo self.set.fifothr }
    {
        if self.fifo.tc {
            return self.read_on(sector, done);
        }
        if self.fifo.full(self.set.efifo) {
            return self.run_over(sector, done);
        }
        let byte = byte_at(s, self.site.data_place(self.head, sector.slot, done));
        let fifo = self.fifo.filled(self.set, self.last_byte(done), byte);
        Moving { fifo, ..self }.read_on(sector, done)
    }

    #[tactic(auto, unfolding(crate::specs::Read::drained_of))]
    fn drained(self, sector: Sector) -> Step
        ensures { result ≡ drained_of sector self.site self.task self.fifo }
    {
        if sector.broken {
            return self.task.fails(0x20, 0x20, self.site);
        }
        if self.task.late {
            return self.task.ends_late(None, self.site);
        }
        if sector.other {
            return self
                .task
                .ends(true, 0x00, 0x00, self.task.id, None, self.site);
        }
        self.follow(sector.slot, self.fifo.tc, None)
    }

    #[tactic(auto, unfolding(crate::specs::Read::drain_of))]
    pub fn drain(self, sector: Sector, looks: u8) -> Step
        ensures { result ≡ drain_of sector looks self.site self.task self.fifo }
    {
        if self.fifo.count == 0 {
            return self.drained(sector);
        }
        if 63 <= looks {
            return self.task.ends_late(None, self.site);
        }
        self.moves(Stage::Draining(sector, looks + 1), None)
    }
}
