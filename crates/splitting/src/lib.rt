#![tactic(auto)]

pub mod split;
pub mod unsplit;
