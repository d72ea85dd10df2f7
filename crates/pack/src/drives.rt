// A drive's row in the record.
ghost use Rattle.std.specs.Prelude.{◌≡◌, ◌<◌};
ghost use Rattle.pack.specs.Bytes.{course_of, motion_of, drive_bytes, drive_from};

use crate::places::{
    BUSY_AT, CHANGED_AT, HEAD_AT, MOTION_AT, PCN_AT, REPORT_AT, STEPS_AT, TARGET_AT, WAIT_AT,
};
use drive::{Drive, Motion};

// A motion with the fields of its cases side by side, as the record's bytes have them (the C interface).
#[derive(Clone, Copy)]
pub struct Course {
    pub tag: u8,
    pub target: u8,
    pub steps: u8,
    pub wait: u16,
}

impl From<Motion> for Course {
    ghost from_gives = { λ motion course. course ≡ course_of motion };

    fn from(motion: Motion) -> Course {
        match motion {
            Motion::Still => Course {
                tag: 0,
                target: 0,
                steps: 0,
                wait: 0,
            },
            Motion::Seeking {
                target,
                steps,
                wait,
            } => Course {
                tag: 1,
                target,
                steps,
                wait,
            },
            Motion::Recalibrating { steps, wait } => Course {
                tag: 2,
                target: 0,
                steps,
                wait,
            },
        }
    }
}

impl From<Course> for Motion {
    ghost from_gives = { λ course motion. motion ≡ motion_of course.tag course.target course.steps course.wait };

    #[tactic(auto, unfolding(crate::specs::Bytes::motion_of))]
    fn from(course: Course) -> Motion {
        let Course {
            tag,
            target,
            steps,
            wait,
        } = course;
        match tag {
            0 => Motion::Still,
            1 => Motion::Seeking {
                target,
                steps,
                wait,
            },
            _ => Motion::Recalibrating { steps, wait },
        }
    }
}

pub fn drive_row(d: Drive) -> [u8; 16]
    ensures bytes { result ≡ drive_bytes d }
    ensures fits { (course_of d.motion).wait < 0x10000 }
{
    let course = Course::from(d.motion);
    let [high, low] = course.wait.to_be_bytes();
    let mut row = [0; 16];
    row[HEAD_AT] = d.head;
    row[PCN_AT] = d.pcn;
    row[CHANGED_AT] = u8::from(d.changed);
    row[BUSY_AT] = u8::from(d.busy);
    row[REPORT_AT] = d.report;
    row[MOTION_AT] = course.tag;
    row[TARGET_AT] = course.target;
    row[STEPS_AT] = course.steps;
    row[WAIT_AT] = high;
    row[WAIT_AT + 1] = low;
    row
}

pub fn drive_in(row: [u8; 16]) -> Drive
    ensures { result ≡ drive_from row }
{
    let course = Course {
        tag: row[MOTION_AT],
        target: row[TARGET_AT],
        steps: row[STEPS_AT],
        wait: u16::from_be_bytes([row[WAIT_AT], row[WAIT_AT + 1]]),
    };
    Drive {
        head: row[HEAD_AT],
        pcn: row[PCN_AT],
        changed: row[CHANGED_AT] == 1,
        busy: row[BUSY_AT] == 1,
        report: row[REPORT_AT],
        motion: Motion::from(course),
    }
}
