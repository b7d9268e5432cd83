#![tactic(auto)]

pub mod block;
pub mod class;
pub mod handle;
pub mod slots;
