// Standard output. Where it does not take something, that is kept, and nothing more is written there: the log goes on,
// since its calls change the images.
use std::{fmt, io};

#[derive(Drop)]
pub struct Output<'a, P> {
    to: &'a P,
    written: io::Result<()>,
}

impl<'a, P: Print> Output<'a, P> {
    pub fn new(to: &'a P) -> Output<'a, P> {
        Output {
            to,
            written: Ok(()),
        }
    }

    pub fn text(&mut self, bytes: &[u8]) {
        self.written = self.written.and_then(|()| self.to.write_all(bytes));
    }

    pub fn show(&mut self, shown: impl fmt::Display + Drop) {
        self.written = self.written.and_then(|()| self.to.print(shown));
    }

    // Whether all of it was taken.
    pub fn written(self) -> io::Result<()> {
        self.written
    }
}
