ghost use Rattle.memory.specs.Faults.{fault_text, own_fault, raised};
ghost use Rattle.std.specs.Prelude.{◌≡◌, Some};

use std::error::Error;
use std::fmt;

// Why a memory refused a position.
#[derive(Clone, Copy, PartialEq, Eq, Debug)]
pub struct MemoryFault {
    // The position asked of the memory that refused.
    pub position: u32,
    // The size of that memory.
    pub size: u32,
    // How many layers the fault rose through, stopping at 255.
    pub layers: u8,
}

impl MemoryFault {
    // The fault of a memory of this size that itself refuses the position.
    pub fn own(position: u32, size: u32) -> MemoryFault
        ensures { result ≡ own_fault size position }
    {
        MemoryFault {
            position,
            size,
            layers: 0,
        }
    }

    // The fault as the next layer hands it up.
    pub fn raise(self) -> MemoryFault
        ensures { result ≡ raised self }
    {
        MemoryFault {
            layers: self.layers.saturating_add(1),
            ..self
        }
    }
}

impl fmt::Display for MemoryFault {
    ghost output = { λ fault. Some (fault_text fault) };

    fn fmt<W: fmt::Write>(&self, f: &mut fmt::Formatter<W>) -> fmt::Result {
        let MemoryFault {
            position,
            size,
            layers,
        } = self;
        write!(
            f,
            "no position {position} in {size} bytes (layers: {layers})"
        )
    }
}

impl Error for MemoryFault {}
