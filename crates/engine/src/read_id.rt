// 01 Read ID: the first ID from slot 0.
ghost use Rattle.std.specs.Prelude.{◌≡◌};
ghost use Rattle.engine.specs.ReadId.{no_address, no_id_of, no_id_here, id_here, identified_of, identify_of};

use chip::fifo::Fifo;
use image::mark::Mark;
use image::slot::Id;
use sectors::result::{end, goes};
use sectors::search::{passes_after, second_pass};
use sectors::track::next_slot;
use sectors::work::{Site, Step, Work};

// Written out: `no_address` says these four, and an address has no empty one that a derive would give.
pub fn no_address() -> Id
    ensures { result ≡ no_address }
{
    Id {
        c: 0,
        h: 0,
        r: 0,
        n: 0,
    }
}

#[tactic(auto, unfolding(crate::specs::ReadId::no_id_of))]
pub fn no_id(site: Site) -> Step
    ensures { result ≡ no_id_of site }
{
    end(false, site.drive, site.side, 0x01, 0x00, no_address(), None)
}

#[tactic(auto, unfolding(crate::specs::ReadId::id_here))]
fn id_here(id: Id, site: Site) -> Step
    ensures { result ≡ id_here id site }
{
    end(true, site.drive, site.side, 0x00, 0x00, id, None)
}

// What a tick of a Read ID is handed: where it works, the slot to look at, the passes counted, the drive's head and the
// FIFO. It has no setting, and no one thing in the place of a task or a plan, so that one generic struct with `Moving` and
// `Formatting` is no plainer.
#[derive(Clone, Copy)]
pub struct Identifying {
    pub site: Site,
    pub slot: u8,
    pub passes: u8,
    pub head: u8,
    pub fifo: Fifo,
}

impl Identifying {
    #[tactic(auto, unfolding(crate::specs::ReadId::no_id_here))]
    fn no_id_here(self) -> Step
        ensures { result ≡ no_id_here self.slot self.passes self.site self.fifo }
    {
        let slots = self.site.disk.slots;
        if second_pass(self.slot, slots, self.passes) {
            return no_id(self.site);
        }
        let next = next_slot(self.slot, slots);
        let counted = passes_after(self.slot, slots, self.passes);
        goes(Work::Identifying(self.site, next, counted), self.fifo, None)
    }

    #[tactic(auto, unfolding(crate::specs::ReadId::identified_of))]
    fn identified(self, mark: Mark, id: Id) -> Step
        ensures { result ≡ identified_of mark id self.slot self.passes self.site self.fifo }
    {
        match mark {
            Mark::NoId => self.no_id_here(),
            Mark::Data { .. } | Mark::NoData => id_here(id, self.site),
        }
    }

    #[tactic(auto, unfolding(crate::specs::ReadId::identify_of))]
    pub fn identify(self, s: &[u8]) -> Step
        ensures { result ≡ identify_of self.slot self.passes self.site self.head s.now self.fifo }
    {
        let met = self.site.slot_in(s, self.head, self.slot);
        self.identified(Mark::from(met.mark), met.id)
    }
}
