// What the controller asks of a command at work. `Work` is of the crate below, so that these are no methods of it.
ghost use Rattle.std.specs.Prelude.{◌≡◌};
ghost use Rattle.engine.specs.Format.{form_wait};
ghost use Rattle.engine.specs.Step.{pass_flow, flow_of, stage_wait, wait_of, drive_of, hears_tc};

use crate::step::site_of;
use sectors::order::Pass;
use sectors::work::{Form, Stage, Work};

// Which way its bytes go. No `Option<Pass>`: a Format's bytes come from the host too, but it has no `Pass`, which is of a
// transfer's sectors; `flow_of`, which docs/CONTRACTS.md names, answers with these three.
#[derive(Clone, Copy, Debug, PartialEq, Eq)]
pub enum Flow {
    Quiet,
    ToHost,
    FromHost,
}

impl From<Pass> for Flow {
    ghost from_gives = { λ pass flow. flow ≡ pass_flow pass };

    fn from(pass: Pass) -> Flow {
        match pass {
            Pass::Read => Flow::ToHost,
            Pass::Write => Flow::FromHost,
        }
    }
}

pub fn flow_of(work: Work) -> Flow
    ensures { result ≡ flow_of work }
{
    match work {
        Work::Identifying(..) => Flow::Quiet,
        Work::Moving(_, task, _) => Flow::from(task.transfer.pass),
        Work::Formatting(..) => Flow::FromHost,
    }
}

fn stage_wait(stage: Stage) -> u8
    ensures { result ≡ stage_wait stage }
{
    match stage {
        Stage::Draining(_, wait) | Stage::Awaiting(_, wait) => wait,
        _ => 0,
    }
}

fn form_wait(form: Form) -> u8
    ensures { result ≡ form_wait form }
{
    match form {
        Form::Awaiting(_, wait) => wait,
        _ => 0,
    }
}

// The ticks waited, or the looks that found bytes.
pub fn wait_of(work: Work) -> u8
    ensures { result ≡ wait_of work }
{
    match work {
        Work::Identifying(..) => 0,
        Work::Moving(_, _, stage) => stage_wait(stage),
        Work::Formatting(_, _, form) => form_wait(form),
    }
}

pub fn drive_of(work: Work) -> u8
    ensures { result ≡ drive_of work }
{
    site_of(work).drive
}

// Whether a TC means anything to it.
pub fn hears_tc(work: Work) -> bool
    ensures { result ≡ hears_tc work }
{
    !matches!(work, Work::Formatting(..))
}
