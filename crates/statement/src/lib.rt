#![tactic(auto)]

pub mod amount;
pub mod malformed;
pub mod record;
#[cfg(test)]
mod tests;
