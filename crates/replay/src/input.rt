// Standard input, a line at a time.
ghost use Rattle.std.specs.Prelude.{◌≤◌};

use log_lines::gather::Gathered;
use std::io;
use std::io::Read;

// The bytes of `buf` from `at` up to `count` were read and are still to be taken. A buffer with a length beside it,
// since memory is fixed: no heap.
#[derive(Drop)]
pub struct Lines<R> {
    from: R,
    buf: [u8; 4096],
    at: usize,
    count: usize,
    // How the last read went, once nothing more comes.
    end: Option<io::Result<()>>,
    ghost filled: { count ≤ 4096 },
}

impl<R: Read + Drop> Lines<R> {
    pub fn new(from: R) -> Lines<R> {
        Lines {
            from,
            buf: [0; 4096],
            at: 0,
            count: 0,
            end: None,
        }
    }

    pub fn end(&self) -> Option<io::Result<()>> {
        self.end
    }

    // One read more, into a buffer whose bytes are all taken. One that fails ends the input too.
    fn read_more(&mut self) {
        self.at = 0;
        self.count = 0;
        match self.from.read(&mut self.buf) {
            Ok(0) => self.end = Some(Ok(())),
            Ok(count) => self.count = count,
            Err(why) => self.end = Some(Err(why)),
        }
    }

    // The next byte; none at the input's end.
    fn byte(&mut self) -> Option<u8> {
        if self.count <= self.at {
            self.read_more();
        }
        let byte = *self.buf[..self.count].get(self.at)?;
        self.at += 1;
        Some(byte)
    }

    // The next line's bytes. Where nothing more comes, those that stand are the last. The bound is one that no run uses
    // up: a loop has to end.
    pub fn line(&mut self) -> Gathered {
        let mut line = Gathered::new();
        for _ in 0..u64::MAX {
            match self.byte() {
                None | Some(b'\n') => break,
                Some(byte) => line = line.add(byte),
            }
        }
        line
    }
}
