// What a data command at work carries from its first tick on (01 Form phase).
ghost use Rattle.std.specs.Prelude.{◌≡◌};
ghost use Rattle.sectors.specs.Follow.{with_id, on_side, step_of};
ghost use Rattle.sectors.specs.Result.{tardy};
ghost use Rattle.sectors.specs.Search.{with_other};

use crate::order::{Plan, Transfer};
use chip::fifo::{Fifo, Setting};
use image::layout::Geometry;
use image::lent::Put;
use image::slot::Id;

// Where it works: the side in use, and the header met in the first tick, since a changed one ends the command.
#[derive(Clone, Copy, Debug, PartialEq, Eq)]
pub struct Site {
    pub drive: u8,
    pub side: u8,
    pub disk: Geometry,
}

impl Site {
    pub(crate) fn on_side(self, side: u8) -> Site
        ensures { result ≡ on_side side self }
    {
        Site { side, ..self }
    }
}

// A transfer with the sector in hand. other: a mark of the other kind was met, so ST2 has its 40 from then on. late: a
// byte came late, so ST1 has its 10 from then on and the command ends with this sector (02 2026-02).
#[derive(Clone, Copy, Debug, PartialEq, Eq)]
pub struct Task {
    pub transfer: Transfer,
    pub id: Id,
    pub other: bool,
    pub late: bool,
}

impl Task {
    pub(crate) fn with_id(self, id: Id) -> Task
        ensures { result ≡ with_id id self }
    {
        Task { id, ..self }
    }

    // A mark was met, of the other kind or not.
    pub(crate) fn with_other(self, other: bool) -> Task
        ensures { result ≡ with_other other self }
    {
        Task {
            other: self.other | other,
            ..self
        }
    }

    // A byte is late (02 2026-02).
    pub(crate) fn tardy(self) -> Task
        ensures { result ≡ tardy self }
    {
        Task { late: true, ..self }
    }

    // How far R goes below EOT.
    pub(crate) fn step(self) -> u8
        ensures { result ≡ step_of self }
    {
        1
    }
}

// One search: the slot to look at, the passes counted, whether an ID was met, and one with another C below FF, or FF.
#[derive(Clone, Copy, Debug, PartialEq, Eq)]
pub struct Search {
    pub slot: u8,
    pub passes: u8,
    pub met: bool,
    pub wrong: bool,
    pub bad: bool,
}

// A sector that is read, with what its mark said at the match.
#[derive(Clone, Copy, Debug, PartialEq, Eq)]
pub struct Sector {
    pub slot: u8,
    pub broken: bool,
    pub other: bool,
}

// The stages of a transfer. Bytes are counted from 0, and so are waits.
#[derive(Clone, Copy, Debug, PartialEq, Eq)]
pub enum Stage {
    Searching(Search),
    // The tick after an MT turn; the slot at which the search goes on.
    Turning(u8),
    Reading(Sector, u16),
    // After a sector's last byte: the looks that found bytes.
    Draining(Sector, u8),
    // A slot, and the ticks without a byte.
    Awaiting(u8, u8),
    // A slot, and the bytes stored under its broken mark.
    Storing(u8, u16),
}

// The stages of a Format, each with its slot.
#[derive(Clone, Copy, Debug, PartialEq, Eq)]
pub enum Form {
    Awaiting(u8, u8),
    Addressing(u8, u8),
    Filling(u8, u16),
    // The slots after SC.
    Clearing(u8),
}

#[derive(Clone, Copy, Debug, PartialEq, Eq)]
pub enum Work {
    // A slot, and the passes counted.
    Identifying(Site, u8, u8),
    Moving(Site, Task, Stage),
    Formatting(Site, Plan, Form),
}

// What a tick of a transfer is handed: where it works, the sector in hand, the drive's head, and the FIFO as it is set.
#[derive(Clone, Copy)]
pub struct Moving {
    pub site: Site,
    pub task: Task,
    pub head: u8,
    pub fifo: Fifo,
    pub set: Setting,
}

// What a command ends with.
#[derive(Clone, Copy, Debug, PartialEq, Eq)]
pub struct Verdict {
    pub st0: u8,
    pub st1: u8,
    pub st2: u8,
    pub id: Id,
}

// What a tick leaves. An end is no failure and work no success, so that this is no Result.
#[derive(Clone, Copy, Debug, PartialEq, Eq)]
pub enum Then {
    Ends(Verdict),
    Works(Work),
}

// What a tick gives: at most one store (01 Calls).
#[derive(Clone, Copy)]
pub struct Step {
    pub then: Then,
    pub fifo: Fifo,
    pub effect: Option<Put>,
}
