// A program that works on files.

// The system that it runs on, its standard error, and its name, behind which it says there what is wrong.
#[derive(Clone, Copy)]
pub struct Program<'a, R, E> {
    pub rt: &'a R,
    pub err: &'a E,
    pub name: &'a [u8],
}
