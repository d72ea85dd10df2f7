// 01 Image marks: what a slot's mark says.
ghost use Rattle.std.specs.Prelude.{◌≡◌};
ghost use Rattle.image.specs.Mark.{mark_of, byte_of};

#[derive(Clone, Copy, Debug, PartialEq, Eq)]
pub enum Mark {
    NoId,
    Data { deleted: bool, broken: bool },
    NoData,
}

impl Mark {
    // The mark of a sector's data.
    pub const fn data(deleted: bool, broken: bool) -> Mark
        ensures { result ≡ Mark.Data deleted broken }
    {
        Mark::Data { deleted, broken }
    }
}

impl From<u8> for Mark {
    ghost from_gives = { λ byte mark. mark ≡ mark_of byte };

    #[tactic(auto, unfolding(crate::specs::Mark::mark_of))]
    fn from(byte: u8) -> Mark {
        match byte {
            1 => Mark::data(false, false),
            2 => Mark::data(true, false),
            3 => Mark::data(false, true),
            4 => Mark::data(true, true),
            5 => Mark::NoData,
            _ => Mark::NoId,
        }
    }
}

// The byte that stands for a mark.
impl From<Mark> for u8 {
    ghost from_gives = { λ mark byte. byte ≡ byte_of mark };

    fn from(mark: Mark) -> u8 {
        match mark {
            Mark::NoId => 0,
            Mark::Data { deleted, broken } => match (deleted, broken) {
                (false, false) => 1,
                (true, false) => 2,
                (false, true) => 3,
                (true, true) => 4,
            },
            Mark::NoData => 5,
        }
    }
}
