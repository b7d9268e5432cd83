#![tactic(auto)]

pub mod bytes;
pub mod bytes_mut;
pub mod ledger;
pub mod opening;
#[cfg(test)]
mod tests;
