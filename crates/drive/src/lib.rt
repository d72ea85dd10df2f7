// A drive's mechanics (01 Stepping): where its head stands, what the controller takes that to be, and a Seek or
// Recalibrate going on. It knows nothing of ports, commands and images.
#![tactic(auto)]

ghost use Rattle.std.specs.Prelude.{◌≡◌};
ghost use Rattle.drive.specs.Drive.{
  fresh_drive,
  reset_drive,
  reported_of,
  sensed_drive,
  noted_of,
  first_wait,
  seek_of,
  accepted,
  recalibrate_of,
  recalibrate_steps,
  countdown_of,
  stands_in,
};
ghost use Rattle.drive.specs.Step.{
  inward,
  moved,
  moving,
  stepped,
  sought,
  recalibrated,
  tick_drive,
};
ghost use Rattle.drive.specs.Course.{going, over, goes_in, course_step, course_tick};

// A Seek or Recalibrate going on: the steps still due, and the ticks until the next one, or until the end if none
// is due.
#[derive(Clone, Copy, Debug, PartialEq, Eq)]
pub enum Motion {
    Still,
    Seeking { target: u8, steps: u8, wait: u16 },
    Recalibrating { steps: u8, wait: u16 },
}

impl Motion {
    // 01 Refusals 4: the step countdown.
    fn wait(self) -> u16
        ensures { result ≡ countdown_of self }
    {
        match self {
            Motion::Still => 0,
            Motion::Seeking { wait, .. } | Motion::Recalibrating { wait, .. } => wait,
        }
    }

    // No Seek or Recalibrate is going on.
    fn is_still(self) -> bool
        ensures { result ≡ stands_in self }
    {
        matches!(self, Motion::Still)
    }
}

#[derive(Clone, Copy, Debug, PartialEq, Eq)]
pub struct Drive {
    // Where the head stands. PCN is where the controller takes it to be (01 Easy 3).
    pub head: u8,
    pub pcn: u8,
    pub changed: bool,
    pub busy: bool,
    // The report for Sense Interrupt, 0 where none is pending. No Option: `reported_of` sets any number, `sensed_drive`
    // leaves 0, and a Some(0) would come back from its byte as None (pack's `read_back`).
    pub report: u8,
    pub motion: Motion,
}

// What a tick tells a drive: its number, whether an image is mounted in it, and the ticks of a step.
#[derive(Clone, Copy)]
struct Tick {
    number: u8,
    mounted: bool,
    ticks: u16,
}

// All that a Seek and a Recalibrate differ in.
#[derive(Clone, Copy)]
enum Course {
    To(u8),
    Out,
}

impl Course {
    fn motion(self, steps: u8, wait: u16) -> Motion
        ensures { result ≡ going self steps wait }
    {
        match self {
            Course::To(target) => Motion::Seeking {
                target,
                steps,
                wait,
            },
            Course::Out => Motion::Recalibrating { steps, wait },
        }
    }

    fn goes_in(self, pcn: u8) -> bool
        ensures { result ≡ goes_in self pcn }
    {
        match self {
            Course::To(target) => pcn < target,
            Course::Out => false,
        }
    }

    fn end(self, d: Drive, number: u8) -> Drive
        ensures { result ≡ over self number d }
    {
        match self {
            Course::To(target) => d.sought(number, target),
            Course::Out => d.recalibrated(number),
        }
    }
}

// No steps due: done at the next tick.
fn first_wait(steps: u8, ticks: u16) -> u16
    ensures { result ≡ first_wait steps ticks }
{
    if steps == 0 { 1 } else { ticks }
}

// Out until the head is at 0, at most 79 times; drives 2 and 3 never see track 0.
fn recalibrate_steps(number: u8, head: u8) -> u8
    ensures { result ≡ recalibrate_steps number head }
{
    if number < 2 { head.min(79) } else { 79 }
}

// The head stops at 0 and 81. A head above 81, where no call leads, stays: min would move it.
fn step_in(head: u8) -> u8
    ensures { result ≡ inward head }
{
    if head < 81 { head + 1 } else { head }
}

fn head_after(number: u8, goes_in: bool, head: u8) -> u8
    ensures { result ≡ moved number goes_in head }
{
    if 2 <= number {
        return head;
    }
    if goes_in {
        return step_in(head);
    }
    head.saturating_sub(1)
}

impl Drive {
    // 01 Form power-on.
    pub const PCN: u8 = 0;

    pub const CHANGED: bool = true;

    // 01 Registers power-on.
    pub fn new(head: u8) -> Drive
        ensures { result ≡ fresh_drive head }
    {
        Drive {
            head,
            pcn: Drive::PCN,
            changed: Drive::CHANGED,
            busy: false,
            report: 0,
            motion: Motion::Still,
        }
    }

    // 01 Registers reset.
    pub fn reset(self) -> Drive
        ensures { result ≡ reset_drive self }
    {
        Drive {
            changed: self.changed,
            ..Drive::new(self.head)
        }
    }

    pub fn reported(self, report: u8) -> Drive
        ensures { result ≡ reported_of report self }
    {
        Drive { report, ..self }
    }

    pub fn sensed(self) -> Drive
        ensures { result ≡ sensed_drive self }
    {
        let busy = false;
        Drive {
            report: 0,
            busy,
            ..self
        }
    }

    pub fn noted(self) -> Drive
        ensures { result ≡ noted_of self }
    {
        Drive {
            changed: true,
            ..self
        }
    }

    fn moving(self, motion: Motion) -> Drive
        ensures { result ≡ moving motion self }
    {
        Drive { motion, ..self }
    }

    fn accepted(self, motion: Motion) -> Drive
        ensures { result ≡ accepted motion self }
    {
        Drive {
            busy: true,
            report: 0,
            motion,
            ..self
        }
    }

    // 01 Stepping: a Seek is accepted; ticks is T.
    pub fn seek(self, target: u8, ticks: u16) -> Drive
        ensures { result ≡ seek_of target ticks self }
    {
        let steps = self.pcn.abs_diff(target);
        let wait = first_wait(steps, ticks);
        self.accepted(Course::To(target).motion(steps, wait))
    }

    pub fn recalibrate(self, number: u8, ticks: u16) -> Drive
        ensures { result ≡ recalibrate_of number ticks self }
    {
        let steps = recalibrate_steps(number, self.head);
        let wait = first_wait(steps, ticks);
        self.accepted(Course::Out.motion(steps, wait))
    }

    #[tactic(auto, unfolding(crate::specs::Step::stepped))]
    fn stepped(self, at: Tick, goes_in: bool) -> Drive
        ensures { result ≡ stepped at.number at.mounted goes_in self }
    {
        Drive {
            head: head_after(at.number, goes_in, self.head),
            changed: self.changed & !at.mounted,
            ..self
        }
    }

    #[tactic(auto, unfolding(crate::specs::Step::sought))]
    fn sought(self, number: u8, target: u8) -> Drive
        ensures { result ≡ sought number target self }
    {
        Drive {
            pcn: target,
            report: 0x20 + number % 4,
            motion: Motion::Still,
            ..self
        }
    }

    #[tactic(auto, unfolding(crate::specs::Step::recalibrated))]
    fn recalibrated(self, number: u8) -> Drive
        ensures { result ≡ recalibrated number self }
    {
        let zero = (number < 2) & (self.head == 0);
        let arrival = if zero { 0x20 } else { 0x70 };
        Drive {
            pcn: 0,
            report: arrival + number % 4,
            motion: Motion::Still,
            ..self
        }
    }

    // A step, after which T ticks lead to the next one; the last one ends it.
    fn step(self, course: Course, at: Tick, steps: u8) -> Drive
        ensures { result ≡ course_step course at.number at.mounted at.ticks steps self }
    {
        let d = self.stepped(at, course.goes_in(self.pcn));
        if steps <= 1 {
            return course.end(d, at.number);
        }
        d.moving(course.motion(steps - 1, at.ticks))
    }

    // A tick of waiting, or the step that is due, or the end where none was.
    fn go_on(self, course: Course, at: Tick, steps: u8, wait: u16) -> Drive
        ensures { result ≡ course_tick course at.number at.mounted at.ticks steps wait self }
    {
        if 1 < wait {
            return self.moving(course.motion(steps, wait - 1));
        }
        if steps == 0 {
            return course.end(self, at.number);
        }
        self.step(course, at, steps)
    }

    // A tick of drive `number`, mounted or not, with `ticks` for a step.
    #[tactic(auto, unfolding(crate::specs::Step::tick_drive, crate::specs::Step::tick_in, crate::specs::Step::seek_tick, crate::specs::Step::recalibrate_tick))]
    pub fn tick(self, number: u8, mounted: bool, ticks: u16) -> Drive
        ensures { result ≡ tick_drive number mounted ticks self }
    {
        let at = Tick {
            number,
            mounted,
            ticks,
        };
        match self.motion {
            Motion::Still => self,
            Motion::Seeking {
                target,
                steps,
                wait,
            } => self.go_on(Course::To(target), at, steps, wait),
            Motion::Recalibrating { steps, wait } => self.go_on(Course::Out, at, steps, wait),
        }
    }

    // 01 Refusals 4: the step countdown.
    pub fn countdown(self) -> u16
        ensures { result ≡ countdown_of self.motion }
    {
        self.motion.wait()
    }

    // No Seek or Recalibrate is going on.
    pub fn stands(self) -> bool
        ensures { result ≡ stands_in self.motion }
    {
        self.motion.is_still()
    }
}
