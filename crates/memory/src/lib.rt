#![tactic(auto)]

pub mod access;
mod cells;
pub mod fault;
pub mod interface;
pub mod own;
pub mod slice;
pub mod window;

pub use crate::fault::MemoryFault;
pub use crate::interface::Memory;
pub use crate::own::OwnMemory;
pub use crate::slice::SliceMemory;
pub use crate::window::Window;

#[cfg(test)]
mod tests;
