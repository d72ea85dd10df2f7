// 01 Format: mark 0, the host's four bytes, B times D, mark 1; then mark 0 for each slot left.
ghost use Rattle.std.specs.Prelude.{◌≡◌};
ghost use Rattle.engine.specs.Format.{
  format_head,
  format_id,
  format_end,
  done_of,
  forms_of,
  laid_of,
  form_await,
  address_put,
  address_of,
  clear_on,
  formed_of,
  fill_of,
  clear_of,
  form_of,
};

use chip::fifo::{Fifo, Setting};
use image::lent::Put;
use image::mark::Mark;
use image::slot::Id;
use sectors::order::Plan;
use sectors::result::{end, goes};
use sectors::work::{Form, Site, Step, Work};

// Drives 2 and 3 have no head.
fn format_head(drive: u8, head: u8) -> u8
    ensures { result ≡ format_head drive head }
{
    if drive < 2 { head } else { 0 }
}

pub fn format_id(plan: Plan, drive: u8, head: u8, side: u8, done: u8) -> Id
    ensures { result ≡ format_id plan drive head side done }
{
    Id {
        c: format_head(drive, head),
        h: side,
        r: done,
        n: plan.n,
    }
}

// Slots formatted whole.
pub fn slots_done(form: Form, plan: Plan) -> u8
    ensures { result ≡ done_of form plan }
{
    match form {
        Form::Awaiting(slot, _) | Form::Addressing(slot, _) | Form::Filling(slot, _) => slot,
        Form::Clearing(_) => plan.sc,
    }
}

pub fn forms(form: Form, site: Site, plan: Plan, fifo: Fifo, effect: Option<Put>) -> Step
    ensures { result ≡ forms_of form site plan fifo effect }
{
    goes(Work::Formatting(site, plan, form), fifo, effect)
}

// A byte that a formatted slot is laid down with, and the FIFO after it.
#[derive(Clone, Copy)]
pub struct Laid {
    pub byte: u8,
    pub fifo: Fifo,
}

// What a tick of a Format is handed: where it works, its plan, the drive's head, and the FIFO as it is set. No one generic
// struct of it and `Moving`: that one is of the crate below, so that these methods would need a trait, which is no plainer.
#[derive(Clone, Copy)]
pub struct Formatting {
    pub site: Site,
    pub plan: Plan,
    pub head: u8,
    pub fifo: Fifo,
    pub set: Setting,
}

impl Formatting {
    fn forms(self, form: Form, effect: Option<Put>) -> Step
        ensures { result ≡ forms_of form self.site self.plan self.fifo effect }
    {
        forms(form, self.site, self.plan, self.fifo, effect)
    }

    #[tactic(auto, unfolding(crate::specs::Format::format_end))]
    pub fn ends(self, normal: bool, st1: u8, done: u8, effect: Option<Put>) -> Step
        ensures { result ≡ format_end normal st1 done effect self.site self.plan self.head }
    {
        let site = self.site;
        let id = format_id(self.plan, site.drive, self.head, site.side, done);
        end(normal, site.drive, site.side, st1, 0x00, id, effect)
    }

    // The fill byte; the FIFO is not asked, so that no byte is missing.
    fn lay(self) -> Option<Laid>
        ensures { result ≡ laid_of self.plan self.fifo self.set.efifo self.set.fifothr }
    {
        Some(Laid {
            byte: self.plan.fill,
            fifo: self.fifo,
        })
    }

    // It waits as a Write does, but its end has another address and its first mark is none, so that each says its own.
    #[tactic(auto, unfolding(crate::specs::Format::form_await))]
    fn await_address(self, slot: u8, wait: u8) -> Step
        ensures { result ≡ form_await slot wait self.site self.plan self.head self.fifo }
    {
        if self.fifo.count == 0 {
            if 63 <= wait {
                return self.ends(false, 0x10, slot, None);
            }
            return self.forms(Form::Awaiting(slot, wait + 1), None);
        }
        let at = self.site.mark_place(self.head, slot);
        let byte = u8::from(Mark::NoId);
        self.forms(Form::Addressing(slot, 0), Some(Put { at, byte }))
    }

    #[tactic(auto, unfolding(crate::specs::Format::address_put))]
    fn put_address(self, slot: u8, k: u8, effect: Option<Put>) -> Step
        ensures { result ≡ address_put slot k self.site self.plan self.fifo effect }
    {
        if 3 <= k {
            return self.forms(Form::Filling(slot, 0), effect);
        }
        self.forms(Form::Addressing(slot, k + 1), effect)
    }

    #[tactic(auto, unfolding(crate::specs::Format::address_of))]
    fn address(self, slot: u8, k: u8) -> Step
        ensures { result
            ≡ address_of slot k self.site self.plan self.head self.fifo self.set.efifo self.set.fifothr }
    {
        if self.fifo.count == 0 {
            return self.ends(false, 0x10, slot, None);
        }
        let at = self.site.mark_place(self.head, slot) + 1 + usize::from(k);
        let byte = self.fifo.front();
        let fifo = self.fifo.drawn(self.set);
        Formatting { fifo, ..self }.put_address(slot, k, Some(Put { at, byte }))
    }

    #[tactic(auto, unfolding(crate::specs::Format::clear_on))]
    fn clear_on(self, slot: u8, effect: Option<Put>) -> Step
        ensures { result ≡ clear_on slot self.site self.plan self.head self.fifo effect }
    {
        if u16::from(slot) + 1 < u16::from(self.site.disk.slots) {
            return self.forms(Form::Clearing(slot + 1), effect);
        }
        self.ends(true, 0x00, self.plan.sc, effect)
    }

    #[tactic(auto, unfolding(crate::specs::Format::formed_of))]
    fn formed(self, slot: u8, effect: Option<Put>) -> Step
        ensures { result ≡ formed_of slot self.site self.plan self.head self.fifo effect }
    {
        if u16::from(slot) + 1 < u16::from(self.plan.sc) {
            return self.forms(Form::Awaiting(slot + 1, 0), effect);
        }
        self.clear_on(slot, effect)
    }

    #[tactic(auto, unfolding(crate::specs::Format::fill_of))]
    fn fill(self, slot: u8, done: u16) -> Step
        ensures { result
            ≡ fill_of slot done self.site self.plan self.head self.fifo self.set.efifo self.set.fifothr }
    {
        if self.site.sector_bytes() <= usize::from(done) {
            let at = self.site.mark_place(self.head, slot);
            let byte = u8::from(Mark::data(false, false));
            return self.formed(slot, Some(Put { at, byte }));
        }
        // The else never comes: `lay` gives Some always, but as an Option, since its definition `laid_of` is one.
        let Some(Laid { byte, fifo }) = self.lay() else {
            return self.ends(false, 0x10, slot, None);
        };
        let at = self.site.data_place(self.head, slot, done);
        Formatting { fifo, ..self }.forms(Form::Filling(slot, done + 1), Some(Put { at, byte }))
    }

    #[tactic(auto, unfolding(crate::specs::Format::clear_of))]
    fn clear(self, slot: u8) -> Step
        ensures { result ≡ clear_of slot self.site self.plan self.head self.fifo }
    {
        let at = self.site.mark_place(self.head, slot);
        let byte = u8::from(Mark::NoId);
        self.clear_on(slot, Some(Put { at, byte }))
    }

    // As in `stage_on`, an enum and a match: the record holds the form as bytes.
    #[tactic(auto, unfolding(crate::specs::Format::form_of))]
    pub fn form_on(self, form: Form) -> Step
        ensures { result
            ≡ form_of form self.site self.plan self.head self.fifo self.set.efifo self.set.fifothr }
    {
        match form {
            Form::Awaiting(slot, wait) => self.await_address(slot, wait),
            Form::Addressing(slot, k) => self.address(slot, k),
            Form::Filling(slot, done) => self.fill(slot, done),
            Form::Clearing(slot) => self.clear(slot),
        }
    }
}
