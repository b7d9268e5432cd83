ghost use Rattle.std.specs.Prelude.{◌≡◌, ℕ, ◌^◌, ◌<◌, List, length, slice_set};
ghost use Rattle.memory.specs.Answers.{read_answer, put_answer};
ghost use Rattle.memory.specs.declared.fault.MemoryFault.{MemoryFault};

use crate::fault::MemoryFault;

// A list of at most 4,294,967,295 bytes, and a fault for each position outside it.
pub trait Memory {
    ghost bytes: { Self → List ℕ };

    ghost fault: { Self → ℕ → MemoryFault };

    ghost short: { (m : Self) → length (bytes m) < 2 ^ 32 };

    // How many bytes there are.
    fn size(&self) -> u32
        ensures { result ≡ length (bytes self.now) };

    // The byte at a position, or the position's fault where there is none.
    fn read(&self, position: u32) -> Result<u8, MemoryFault>
        ensures { result ≡ read_answer (bytes self.now) (fault self.now) position };

    // Puts a byte at a position, or answers the position's fault and changes nothing.
    fn put(&mut self, position: u32, byte: u8) -> Result<(), MemoryFault>
        ensures answer { result ≡ put_answer (bytes self.old) (fault self.old) position }
        ensures memory { bytes self.new ≡ slice_set (bytes self.old) position byte }
        ensures faults { fault self.new ≡ fault self.old };
}
