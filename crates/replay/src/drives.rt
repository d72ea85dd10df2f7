// The images of the two drives: files that the arguments name.
ghost use Rattle.std.specs.Prelude.{◌≤◌, length, IfSome};

use files::image::Image;
use files::program::Program;
use files::word::{PATH, argument, argument_count};
use std::env::Env;
use std::fs::Files;

fn is_dash(path: &[u8]) -> bool {
    matches!(path, b"-")
}

// Whether both arguments name one file by the same name: the second would write back what the first had changed.
pub fn twice(rt: &impl Env) -> bool {
    let mut p = [0u8; PATH];
    let first = argument(rt, 1, &mut p);
    let mut q = [0u8; PATH];
    let second = argument(rt, 2, &mut q);
    !second.is_empty() && !is_dash(first) && first == second
}

fn names_dash(rt: &impl Env, k: usize) -> bool {
    let mut path = [0u8; PATH];
    is_dash(argument(rt, k, &mut path))
}

// The image in a drive: of no file where the argument is missing or `-`. Where it cannot be had, it is said why. Its length is
// bounded as `image_of` has it: the bytes lent on are no part of the answer.
pub fn image_in<R: Files + Env, E: Print>(
    program: &Program<'_, R, E>,
    k: usize,
    bytes: &mut [u8],
) -> Option<Image<R::File>>
    ensures { IfSome result (λ i. i.length ≤ length bytes.new) }
{
    if argument_count(program.rt) <= k || names_dash(program.rt, k) {
        return Some(Image::none());
    }
    program.image_of(k, true, bytes)
}
