// The refusals (01 Refusals).
ghost use Rattle.std.specs.Prelude.{◌≡◌};
ghost use Rattle.chip.specs.Refusals.{number_of};

#[derive(Clone, Copy, Debug, PartialEq, Eq)]
pub enum Refusal {
    Port,
    Turn,
    Line,
    Damaged,
    Head,
    Drive,
}

// The document's number of a refusal, written out as it stands there.
impl From<Refusal> for u8 {
    ghost from_gives = { λ refusal number. number ≡ number_of refusal };

    fn from(refusal: Refusal) -> u8 {
        match refusal {
            Refusal::Port => 1,
            Refusal::Turn => 2,
            Refusal::Line => 3,
            Refusal::Damaged => 4,
            Refusal::Head => 5,
            Refusal::Drive => 6,
        }
    }
}
