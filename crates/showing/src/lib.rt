#![tactic(auto)]

pub mod cents;
pub mod quoted;
mod row;
pub mod shown;
#[cfg(test)]
mod tests;
