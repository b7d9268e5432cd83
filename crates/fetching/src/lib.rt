// Lines fetched out of a handle of a ledger, and a statement reconciled as it passes through one.
#![tactic(auto)]

pub mod fetch;
mod progress;
pub mod reconciling;
pub mod stopped;
