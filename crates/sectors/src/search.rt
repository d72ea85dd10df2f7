// 01 Search: one slot a tick.
ghost use Rattle.std.specs.Prelude.{◌≡◌, ◌≤◌};
ghost use Rattle.sectors.specs.Search.{
  matches,
  noted,
  cylinder_bits,
  not_found,
  passes_after,
  second_pass,
  one_on,
  missed_of,
  read_found,
  data_found,
  bare_found,
  looked_of,
  search_of,
};

use crate::ends::bit;
use crate::order::Pass;
use crate::track::next_slot;
use crate::work::{Moving, Search, Sector, Stage, Step};
use image::mark::Mark;
use image::slot::Id;

// The address is the command's, and N the header's.
fn matched(id: Id, wanted: Id, n: u8) -> bool
    ensures { result ≡ matches id wanted n }
{
    (id == wanted) & (id.n == n)
}

// Of three numbers, here and in `second_pass`, as docs/CONTRACTS.md names both: a search has slot and passes in its
// `Search`, a Read ID in what it carries, and slots is the disk's.
pub fn passes_after(slot: u8, slots: u8, passes: u8) -> u8
    ensures { result ≡ passes_after slot slots passes }
{
    if u16::from(slots) <= u16::from(slot) + 1 {
        1
    } else {
        passes
    }
}

pub fn second_pass(slot: u8, slots: u8, passes: u8) -> bool
    ensures { result ≡ second_pass slot slots passes }
{
    (u16::from(slots) <= u16::from(slot) + 1) & (1 <= passes)
}

impl Search {
    // An ID that does not match.
    fn noted(self, id: Id, wanted: Id) -> Search
        ensures { result ≡ noted id wanted self }
    {
        let differs = id.c != wanted.c;
        Search {
            met: true,
            wrong: self.wrong | differs & (id.c != 0xFF),
            bad: self.bad | differs & (id.c == 0xFF),
            ..self
        }
    }

    fn one_on(self, slots: u8) -> Search
        ensures { result ≡ one_on self slots }
    {
        Search {
            slot: next_slot(self.slot, slots),
            passes: passes_after(self.slot, slots, self.passes),
            ..self
        }
    }

    // What the IDs met say of the cylinder, in ST2.
    fn cylinder_bits(self) -> u8
        ensures value { result ≡ cylinder_bits self.wrong self.bad }
        ensures upper_bound { result ≤ 0x12 }
    {
        bit(self.wrong, 0x10) + bit(self.bad, 0x02)
    }
}

impl Moving {
    #[tactic(auto, unfolding(crate::specs::Search::not_found))]
    fn not_found(self, look: Search) -> Step
        ensures { result ≡ not_found look self.site self.task }
    {
        if look.met {
            return self.task.fails(0x04, look.cylinder_bits(), self.site);
        }
        self.task.fails(0x01, 0x00, self.site)
    }

    #[tactic(auto, unfolding(crate::specs::Search::missed_of))]
    fn missed(self, look: Search) -> Step
        ensures { result ≡ missed_of look self.site self.task self.fifo }
    {
        let slots = self.site.disk.slots;
        if second_pass(look.slot, slots, look.passes) {
            return self.not_found(look);
        }
        self.moves(Stage::Searching(look.one_on(slots)), None)
    }

    #[tactic(auto, unfolding(crate::specs::Search::read_found))]
    fn read_found(self, sector: Sector) -> Step
        ensures { result
            ≡ read_found sector.other sector.broken sector.slot self.site self.task self.fifo }
    {
        let met = Moving {
            task: self.task.with_other(sector.other),
            ..self
        };
        if sector.other & self.task.transfer.sk {
            return met.follow(sector.slot, self.fifo.tc, None);
        }
        met.moves(Stage::Reading(sector, 0), None)
    }

    #[tactic(auto, unfolding(crate::specs::Search::data_found))]
    fn data_found(self, deleted: bool, broken: bool, slot: u8) -> Step
        ensures { result
            ≡ data_found self.task.transfer.pass deleted broken slot self.site self.task self.fifo }
    {
        let transfer = self.task.transfer;
        match transfer.pass {
            Pass::Read => {
                let other = deleted != transfer.deleted;
                self.read_found(Sector {
                    slot,
                    broken,
                    other,
                })
            }
            Pass::Write => self.moves(Stage::Awaiting(slot, 0), None),
        }
    }

    #[tactic(auto, unfolding(crate::specs::Search::bare_found))]
    fn bare_found(self, slot: u8) -> Step
        ensures { result ≡ bare_found self.task.transfer.pass slot self.site self.task self.fifo }
    {
        match self.task.transfer.pass {
            Pass::Read => self.task.fails(0x01, 0x01, self.site),
            Pass::Write => self.moves(Stage::Awaiting(slot, 0), None),
        }
    }

    #[tactic(auto, unfolding(crate::specs::Search::looked_of))]
    fn looked(self, mark: Mark, id: Id, look: Search) -> Step
        ensures { result ≡ looked_of mark id look self.site self.task self.fifo }
    {
        let found = matched(id, self.task.id, self.site.disk.n);
        match mark {
            Mark::NoId => self.missed(look),
            Mark::Data { deleted, broken } if found => self.data_found(deleted, broken, look.slot),
            Mark::NoData if found => self.bare_found(look.slot),
            Mark::Data { .. } | Mark::NoData => self.missed(look.noted(id, self.task.id)),
        }
    }

    #[tactic(auto, unfolding(crate::specs::Search::search_of))]
    pub fn search(self, look: Search, s: &[u8]) -> Step
        ensures { result ≡ search_of look self.site self.task self.head s.now self.fifo }
    {
        let met = self.site.slot_in(s, self.head, look.slot);
        self.looked(Mark::from(met.mark), met.id, look)
    }
}
