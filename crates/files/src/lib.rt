// What the programs share about files: an image read whole into memory and written back where its bytes changed, and
// what is wrong with a file, said on standard error behind the program's name.
#![tactic(auto)]

pub mod fault;
pub mod image;
pub mod keep;
pub mod load;
pub mod program;
pub mod word;
