// The image file of a disk (01 Image): what lies where in it, and whether it is a disk at all.
#![tactic(auto)]

pub mod bytes;
pub mod disk;
pub mod layout;
pub mod lent;
pub mod mark;
pub mod slot;
