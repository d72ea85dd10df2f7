// The maker of a formatted blank disk (02 2026-01): the image file of document 01 with every sector in its place.
#![tactic(auto)]

pub mod disk;
mod parts;
