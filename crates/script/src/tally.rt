// What a replay counts: calls, refusals and values that differ from those recorded. A count stays where it is at the
// largest number that there is.
ghost use Rattle.std.specs.Prelude.{◌≡◌, Some};
ghost use Rattle.script.specs.Tally.{tally_text, no_tally, tallied_of, compared_of};

use std::fmt;

#[derive(Clone, Copy, Debug, PartialEq, Eq)]
pub struct Tally {
    pub calls: u64,
    pub refusals: u64,
    pub differences: u64,
    // Whether any value was recorded. No Option of the differences: `tallied_of` and `compared_of` answer on a count of
    // them with nothing recorded too.
    pub recorded: bool,
}

impl fmt::Display for Tally {
    ghost output = { λ t. Some (tally_text t) };

    fn fmt<W: fmt::Write>(&self, f: &mut fmt::Formatter<W>) -> fmt::Result {
        let Tally {
            calls,
            refusals,
            differences,
            ..
        } = *self;
        write!(
            f,
            "calls {calls} refusals {refusals} differences {differences}"
        )
    }
}

impl Tally {
    pub fn new() -> Tally
        ensures { result ≡ no_tally }
    {
        Tally {
            calls: 0,
            refusals: 0,
            differences: 0,
            recorded: false,
        }
    }

    // A call more.
    #[tactic(auto, unfolding(crate::specs::Tally::tallied_of, crate::specs::Tally::more_if, crate::specs::Tally::one_more))]
    pub fn called(self, refused: bool) -> Tally
        ensures { result ≡ tallied_of refused self }
    {
        Tally {
            calls: self.calls.saturating_add(1),
            refusals: self.refusals.saturating_add(u64::from(refused)),
            ..self
        }
    }

    // A recorded value more.
    #[tactic(auto, unfolding(crate::specs::Tally::compared_of, crate::specs::Tally::more_if, crate::specs::Tally::one_more))]
    pub fn compared(self, differs: bool) -> Tally
        ensures { result ≡ compared_of differs self }
    {
        Tally {
            differences: self.differences.saturating_add(u64::from(differs)),
            recorded: true,
            ..self
        }
    }
}
