// A transfer, sector by sector (01 Search, Read, Write, Next, Result): what each tick of it does on the track under the
// head. What a command was told and what it carries stand here too (`order`, `work`).
#![tactic(auto)]

mod ends;
pub mod follow;
pub mod order;
pub mod read;
pub mod result;
pub mod search;
pub mod track;
pub mod work;
pub mod write;
