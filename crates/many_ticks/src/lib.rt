// Many ticks at once: those of the rules (01 Calls), made the short way while a sector's bytes pass.
#![tactic(auto)]

pub mod run;
mod sector;
mod stream;
