#![tactic(auto)]

pub mod entry;
pub mod invoice;
pub mod pairing;
pub mod totals;
