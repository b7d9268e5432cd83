#![tactic(auto)]

pub mod checks;
pub mod places;
pub mod sound;
pub mod table;
pub mod tally;
