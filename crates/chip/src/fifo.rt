// The FIFO and its request (01 FIFO). It holds the first `count` of `bytes`, the oldest first; past them stand zeros.
ghost use Rattle.std.specs.Prelude.{◌≡◌, ◌-◌, ◌<◌};
ghost use Rattle.chip.specs.Fifo.{
  capacity_of,
  read_level,
  write_level,
  full_of,
  within_of,
  front_of,
  handed_of,
  emptied,
  flagged,
  shut,
  pushed_of,
  popped_of,
  filled_of,
  taken_of,
  opened_of,
  given_of,
  drawn_of,
};

// How Configure has set the FIFO.
#[derive(Clone, Copy, Debug, PartialEq, Eq)]
pub struct Setting {
    // 1: it holds one byte.
    pub efifo: bool,
    pub fifothr: u8,
}

// An array with a count beside it: no heap, and refusal 4 speaks of counts past the array's end (`within_of`).
#[derive(Clone, Copy)]
pub struct Fifo {
    pub bytes: [u8; 16],
    pub count: u8,
    // The request, a latch.
    pub asks: bool,
    // No byte follows, and the request is off for good: TC has come, or a byte came late (02 2026-02).
    pub tc: bool,
}

pub fn capacity(efifo: bool) -> u8
    ensures { result ≡ capacity_of efifo }
{
    if efifo { 1 } else { 16 }
}

impl Setting {
    // To the host it asks from so many bytes on.
    fn read_level(self) -> u8
        ensures { result ≡ read_level self.efifo self.fifothr }
    {
        if self.efifo {
            return 1;
        }
        if self.fifothr < 15 {
            15 - self.fifothr
        } else {
            1
        }
    }

    // From the host it asks up to so many.
    fn write_level(self) -> u16
        ensures { result ≡ write_level self.efifo self.fifothr }
    {
        if self.efifo {
            return 0;
        }
        u16::from(self.fifothr) + 1
    }
}

impl Fifo {
    pub fn empty() -> Fifo
        ensures { result ≡ emptied }
    {
        Fifo {
            bytes: [0u8; 16],
            count: 0,
            asks: false,
            tc: false,
        }
    }

    // Nothing is held, and no byte follows.
    pub fn shut() -> Fifo
        ensures { result ≡ shut }
    {
        Fifo {
            tc: true,
            ..Fifo::empty()
        }
    }

    pub fn full(self, efifo: bool) -> bool
        ensures { result ≡ full_of efifo self }
    {
        capacity(efifo) <= self.count
    }

    // Not above the capacity (01 Refusals 4).
    pub fn within(self, efifo: bool) -> bool
        ensures { result ≡ within_of efifo self }
    {
        self.count <= capacity(efifo)
    }

    // The oldest byte held.
    pub fn front(self) -> u8
        ensures { result ≡ front_of self }
    {
        self.bytes[0]
    }

    // What the host is handed: 0 where none is held (D-33).
    pub fn handed(self) -> u8
        ensures { result ≡ handed_of self }
    {
        if self.count == 0 { 0 } else { self.front() }
    }

    fn flagged(self, asks: bool, tc: bool) -> Fifo
        ensures { result ≡ flagged asks tc self }
    {
        Fifo { asks, tc, ..self }
    }

    fn pushed(self, byte: u8) -> Fifo
        requires { self.count < 16 }
        ensures { result ≡ pushed_of byte self }
    {
        let mut bytes = self.bytes;
        bytes[usize::from(self.count)] = byte;
        Fifo {
            bytes,
            count: self.count + 1,
            ..self
        }
    }

    // The oldest byte goes, and the others move up.
    fn popped(self) -> Fifo
        ensures { result ≡ popped_of self }
    {
        let mut bytes = [0; 16];
        bytes[..15].copy_from_slice(&self.bytes[1..]);
        Fifo {
            bytes,
            count: self.count.saturating_sub(1),
            ..self
        }
    }

    // A byte from the disk, to the host.
    #[tactic(auto, using(crate::proofs::FifoLaws::room_left, image::proofs::TestLaws::or_right), unfolding(crate::specs::Fifo::filled_of))]
    pub fn filled(self, set: Setting, last: bool, byte: u8) -> Fifo
        ensures { result ≡ filled_of set.efifo set.fifothr last byte self }
    {
        if self.tc | self.full(set.efifo) {
            return self;
        }
        let f = self.pushed(byte);
        let asks = self.asks | last | (set.read_level() <= f.count);
        f.flagged(asks, self.tc)
    }

    // The host takes the front byte, with or without TC.
    #[tactic(auto, unfolding(crate::specs::Fifo::taken_of))]
    pub fn taken(self, tc: bool) -> Fifo
        ensures { result ≡ taken_of tc self }
    {
        if tc {
            return Fifo::shut();
        }
        let f = self.popped();
        let asks = self.asks & (0 < f.count);
        f.flagged(asks, self.tc)
    }

    // The first tests passed: the request from the host goes on.
    #[tactic(auto, unfolding(crate::specs::Fifo::opened_of))]
    pub fn opened(self) -> Fifo
        ensures { result ≡ opened_of self }
    {
        self.flagged(true, self.tc)
    }

    // The host gives a byte, with or without TC. A full FIFO has no room for either, and asks no more (D-32).
    #[tactic(auto, using(crate::proofs::FifoLaws::room_left), unfolding(crate::specs::Fifo::given_of))]
    pub fn given(self, efifo: bool, tc: bool, byte: u8) -> Fifo
        ensures { result ≡ given_of efifo tc byte self }
    {
        if self.full(efifo) {
            return self.flagged(false, self.tc);
        }
        let f = self.pushed(byte);
        let asks = self.asks & !tc & (f.count < capacity(efifo));
        f.flagged(asks, self.tc | tc)
    }

    // The front byte goes to the disk.
    #[tactic(auto, unfolding(crate::specs::Fifo::drawn_of))]
    pub fn drawn(self, set: Setting) -> Fifo
        ensures { result ≡ drawn_of set.efifo set.fifothr self }
    {
        let f = self.popped();
        let few = (u16::from(f.count) <= set.write_level()) & (f.count < capacity(set.efifo));
        let asks = !self.tc & (self.asks | few);
        f.flagged(asks, self.tc)
    }
}
