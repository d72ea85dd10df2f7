// A log's calls on a box with its two images, and what is printed of an answer.
#![tactic(auto)]

pub mod shown;
pub mod turn;
