// 01 Result: the ends of a transfer. They are methods of the task with the site beside it, and not of `Moving`: `gone`, which
// docs/CONTRACTS.md names, has no more than these two.
ghost use Rattle.std.specs.Prelude.{◌≡◌, ◌≤◌, cond};
ghost use Rattle.sectors.specs.Result.{move_end, move_fails, late_end};

use crate::result::end;
use crate::work::{Site, Step, Task};
use image::lent::Put;
use image::slot::Id;

// A status byte's bit or bits, if they are on. block's is by a definition of its own (`weight_of`) and capi's of 32 bits: one
// for all would be a public function with a contract, for a product.
pub(crate) fn bit(on: bool, value: u8) -> u8
    ensures value { result ≡ cond on value 0 }
    ensures upper_bound { result ≤ value }
{
    value * u8::from(on)
}

impl Task {
    #[tactic(auto, unfolding(crate::specs::Result::move_end))]
    pub(crate) fn ends(
        self,
        normal: bool,
        st1: u8,
        st2: u8,
        id: Id,
        effect: Option<Put>,
        site: Site,
    ) -> Step
        requires st1_bound { st1 ≤ 0xEF }
        requires st2_bound { st2 ≤ 0x3F }
        ensures { result ≡ move_end normal st1 st2 id effect site self }
    {
        let bits1 = bit(self.late, 0x10) + st1;
        let bits2 = bit(self.other, 0x40) + st2;
        end(normal, site.drive, site.side, bits1, bits2, id, effect)
    }

    // The sector in hand stays the result's address.
    #[tactic(auto, unfolding(crate::specs::Result::move_fails))]
    pub(crate) fn fails(self, st1: u8, st2: u8, site: Site) -> Step
        requires st1_bound { st1 ≤ 0xEF }
        requires st2_bound { st2 ≤ 0x3F }
        ensures { result ≡ move_fails st1 st2 site self }
    {
        self.ends(false, st1, st2, self.id, None, site)
    }

    #[tactic(auto, unfolding(crate::specs::Result::late_end))]
    pub(crate) fn ends_late(self, effect: Option<Put>, site: Site) -> Step
        ensures { result ≡ late_end effect site self }
    {
        self.tardy().ends(false, 0x00, 0x00, self.id, effect, site)
    }
}
