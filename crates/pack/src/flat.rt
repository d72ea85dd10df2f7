// A phase with the fields of all its cases side by side, each in a place of its own, as the record's bytes have them.
// What a case does not carry is 0. The numbers of the cases are the record's bytes (the C interface).
ghost use Rattle.std.specs.Prelude.{◌≡◌};
ghost use Rattle.pack.specs.Flat.{
  stage_spot,
  form_spot,
  job_flat,
  work_flat,
  phase_flat,
  stage_from,
  form_from,
  job_from,
  work_from,
  phase_from,
};

use chip::codes::{Entry, Kind};
use fdc::record::Phase;
use image::layout::Geometry;
use image::slot::Id;
use sectors::order::{Job, Order, Pass, Plan, Transfer};
use sectors::work::{Form, Search, Sector, Site, Stage, Task, Work};

// A stage of a transfer, or of a Format.
#[derive(Clone, Copy)]
pub struct Spot {
    pub stage: u8,
    pub form: u8,
    pub slot: u8,
    // Passes, looks, a wait, or bytes of an address.
    pub count: u8,
    pub met: bool,
    pub wrong: bool,
    pub bad: bool,
    pub broken: bool,
    pub other: bool,
    pub done: u16,
}

#[derive(Clone, Copy)]
pub struct Flat {
    pub tag: u8,
    pub entry: Entry,
    pub unit: u8,
    pub loud: bool,
    // Which job, or which work.
    pub work: u8,
    pub site: Site,
    pub task: Task,
    pub plan: Plan,
    pub spot: Spot,
}

// What a case does not carry. Constants and no Default, which is no plainer: it would have to stand on nine types of
// the crates below, of which Pass has no case that is none.
const NO_SITE: Site = Site {
    drive: 0,
    side: 0,
    disk: Geometry {
        cylinders: 0,
        heads: 0,
        slots: 0,
        n: 0,
        protect: false,
    },
};

const NO_TASK: Task = Task {
    transfer: Transfer {
        pass: Pass::Read,
        deleted: false,
        mt: false,
        sk: false,
        eot: 0,
        dtl: 0,
    },
    id: Id {
        c: 0,
        h: 0,
        r: 0,
        n: 0,
    },
    other: false,
    late: false,
};

const NO_PLAN: Plan = Plan {
    n: 0,
    sc: 0,
    fill: 0,
};

const NO_SPOT: Spot = Spot {
    stage: 0,
    form: 0,
    slot: 0,
    count: 0,
    met: false,
    wrong: false,
    bad: false,
    broken: false,
    other: false,
    done: 0,
};

const NO_FLAT: Flat = Flat {
    tag: 0,
    entry: Entry {
        kind: Kind::Unknown,
        bytes: 0,
    },
    unit: 0,
    loud: false,
    work: 0,
    site: NO_SITE,
    task: NO_TASK,
    plan: NO_PLAN,
    spot: NO_SPOT,
};

impl From<Stage> for Spot {
    ghost from_gives = { λ stage spot. spot ≡ stage_spot stage };

    fn from(stage: Stage) -> Spot {
        match stage {
            Stage::Searching(look) => Spot {
                slot: look.slot,
                count: look.passes,
                met: look.met,
                wrong: look.wrong,
                bad: look.bad,
                ..NO_SPOT
            },
            Stage::Turning(slot) => Spot {
                stage: 1,
                slot,
                ..NO_SPOT
            },
            Stage::Reading(sector, done) => Spot {
                stage: 2,
                slot: sector.slot,
                broken: sector.broken,
                other: sector.other,
                done,
                ..NO_SPOT
            },
            Stage::Draining(sector, looks) => Spot {
                stage: 3,
                slot: sector.slot,
                count: looks,
                broken: sector.broken,
                other: sector.other,
                ..NO_SPOT
            },
            Stage::Awaiting(slot, wait) => Spot {
                stage: 4,
                slot,
                count: wait,
                ..NO_SPOT
            },
            Stage::Storing(slot, done) => Spot {
                stage: 5,
                slot,
                done,
                ..NO_SPOT
            },
        }
    }
}

impl From<Form> for Spot {
    ghost from_gives = { λ form spot. spot ≡ form_spot form };

    fn from(form: Form) -> Spot {
        match form {
            Form::Awaiting(slot, wait) => Spot {
                slot,
                count: wait,
                ..NO_SPOT
            },
            Form::Addressing(slot, k) => Spot {
                form: 1,
                slot,
                count: k,
                ..NO_SPOT
            },
            Form::Filling(slot, done) => Spot {
                form: 2,
                slot,
                done,
                ..NO_SPOT
            },
            Form::Clearing(slot) => Spot {
                form: 3,
                slot,
                ..NO_SPOT
            },
        }
    }
}

impl From<Order> for Flat {
    ghost from_gives = { λ order flat. flat ≡ job_flat order.drive order.side order.job };

    fn from(order: Order) -> Flat {
        let start = Flat {
            tag: 2,
            site: Site {
                drive: order.drive,
                side: order.side,
                ..NO_SITE
            },
            ..NO_FLAT
        };
        match order.job {
            Job::Identify => start,
            Job::Move(transfer, id) => Flat {
                work: 1,
                task: Task {
                    transfer,
                    id,
                    ..NO_TASK
                },
                ..start
            },
            Job::Format(plan) => Flat {
                work: 2,
                plan,
                ..start
            },
        }
    }
}

impl From<Work> for Flat {
    ghost from_gives = { λ work flat. flat ≡ work_flat work };

    fn from(work: Work) -> Flat {
        match work {
            Work::Identifying(site, slot, passes) => Flat {
                tag: 3,
                site,
                spot: Spot {
                    slot,
                    count: passes,
                    ..NO_SPOT
                },
                ..NO_FLAT
            },
            Work::Moving(site, task, stage) => Flat {
                tag: 3,
                work: 1,
                site,
                task,
                spot: Spot::from(stage),
                ..NO_FLAT
            },
            Work::Formatting(site, plan, form) => Flat {
                tag: 3,
                work: 2,
                site,
                plan,
                spot: Spot::from(form),
                ..NO_FLAT
            },
        }
    }
}

impl From<Phase> for Flat {
    ghost from_gives = { λ phase flat. flat ≡ phase_flat phase };

    fn from(phase: Phase) -> Flat {
        match phase {
            Phase::Idle => NO_FLAT,
            Phase::Gathering(entry) => Flat {
                tag: 1,
                entry,
                ..NO_FLAT
            },
            Phase::Starting(order) => Flat::from(order),
            Phase::Working(work) => Flat::from(work),
            Phase::Sensing(unit) => Flat {
                tag: 4,
                unit,
                ..NO_FLAT
            },
            Phase::Answering(loud) => Flat {
                tag: 5,
                loud,
                ..NO_FLAT
            },
        }
    }
}

impl From<Spot> for Stage {
    ghost from_gives = { λ spot stage. stage ≡ stage_from spot };

    #[tactic(auto, unfolding(crate::specs::Flat::stage_from))]
    fn from(spot: Spot) -> Stage {
        let look = Search {
            slot: spot.slot,
            passes: spot.count,
            met: spot.met,
            wrong: spot.wrong,
            bad: spot.bad,
        };
        let sector = Sector {
            slot: spot.slot,
            broken: spot.broken,
            other: spot.other,
        };
        match spot.stage {
            0 => Stage::Searching(look),
            1 => Stage::Turning(spot.slot),
            2 => Stage::Reading(sector, spot.done),
            3 => Stage::Draining(sector, spot.count),
            4 => Stage::Awaiting(spot.slot, spot.count),
            _ => Stage::Storing(spot.slot, spot.done),
        }
    }
}

impl From<Spot> for Form {
    ghost from_gives = { λ spot form. form ≡ form_from spot };

    #[tactic(auto, unfolding(crate::specs::Flat::form_from))]
    fn from(spot: Spot) -> Form {
        match spot.form {
            0 => Form::Awaiting(spot.slot, spot.count),
            1 => Form::Addressing(spot.slot, spot.count),
            2 => Form::Filling(spot.slot, spot.done),
            _ => Form::Clearing(spot.slot),
        }
    }
}

impl From<Flat> for Job {
    ghost from_gives = { λ flat job. job ≡ job_from flat.work flat.task flat.plan };

    #[tactic(auto, unfolding(crate::specs::Flat::job_from))]
    fn from(flat: Flat) -> Job {
        match flat.work {
            0 => Job::Identify,
            1 => Job::Move(flat.task.transfer, flat.task.id),
            _ => Job::Format(flat.plan),
        }
    }
}

impl From<Flat> for Work {
    ghost from_gives = { λ flat work. work ≡ work_from flat.work flat.site flat.task flat.plan flat.spot };

    #[tactic(auto, unfolding(crate::specs::Flat::work_from))]
    fn from(flat: Flat) -> Work {
        match flat.work {
            0 => Work::Identifying(flat.site, flat.spot.slot, flat.spot.count),
            1 => Work::Moving(flat.site, flat.task, Stage::from(flat.spot)),
            _ => Work::Formatting(flat.site, flat.plan, Form::from(flat.spot)),
        }
    }
}

impl From<Flat> for Phase {
    ghost from_gives = { λ flat phase. phase ≡ phase_from flat };

    #[tactic(auto, unfolding(crate::specs::Flat::phase_from))]
    fn from(flat: Flat) -> Phase {
        match flat.tag {
            0 => Phase::Idle,
            1 => Phase::Gathering(flat.entry),
            2 => Phase::Starting(Order {
                drive: flat.site.drive,
                side: flat.site.side,
                job: Job::from(flat),
            }),
            3 => Phase::Working(Work::from(flat)),
            4 => Phase::Sensing(flat.unit),
            _ => Phase::Answering(flat.loud),
        }
    }
}
