ghost use Rattle.std.specs.Prelude.{◌≡◌, ℕ, length, slice_set};
ghost use Rattle.memory.specs.Answers.{put_answer};
ghost use Rattle.memory.specs.Bounds.{window_short};
ghost use Rattle.memory.specs.Layouts.{window_bytes, window_fault, put_below, lowered_answer};

use crate::fault::MemoryFault;
use crate::interface::Memory;

// A layer: the bytes of the memory below from `start` on, at most `length` of them.
#[derive(Drop)]
pub struct Window<M> {
    below: M,
    start: u32,
    length: u32,
}

impl<M> Window<M> {
    pub fn new(below: M, start: u32, length: u32) -> Self
        ensures below { result.below ≡ below }
        ensures start { result.start ≡ start }
        ensures length { result.length ≡ length }
    {
        Window {
            below,
            start,
            length,
        }
    }

    // Takes the window off and gives the memory below back.
    pub fn into_below(self) -> M
        ensures { result ≡ self.below }
    {
        self.below
    }
}

impl<M: Memory> Window<M> {
    // The position below for one of the window's, or the window's own refusal.
    fn lowered(&self, position: u32) -> Result<u32, MemoryFault>
        ensures { result ≡ lowered_answer self.now.start self.now.length (M.Memory.bytes self.now.below) position }
    {
        if position < self.length {
            Ok(self.start.saturating_add(position))
        } else {
            Err(MemoryFault::own(position, self.size()))
        }
    }
}

impl<M: Memory> Memory for Window<M> {
    ghost bytes = { λ w. window_bytes w.start w.length (M.Memory.bytes w.below) };

    ghost fault = { λ w. window_fault w.start w.length (M.Memory.bytes w.below) (M.Memory.fault w.below) };

    ghost short = { λ w. window_short w.start w.length (M.Memory.bytes w.below) (M.Memory.short w.below) };

    #[tactic(auto, using(crate::proofs::Windowed::length_window))]
    fn size(&self) -> u32 {
        self.below
            .size()
            .saturating_sub(self.start)
            .min(self.length)
    }

    fn read(&self, position: u32) -> Result<u8, MemoryFault> {
        let lower = self.lowered(position)?;
        self.below.read(lower).map_err(MemoryFault::raise)
    }

    // Beside what every memory promises: the window stays where it is, and below it the one byte changes.
    fn put(&mut self, position: u32, byte: u8) -> Result<(), MemoryFault>
        ensures answer { result ≡ put_answer (window_bytes self.old.start self.old.length (M.Memory.bytes self.old.below)) (window_fault self.old.start self.old.length (M.Memory.bytes self.old.below) (M.Memory.fault self.old.below)) position }
        ensures memory { window_bytes self.new.start self.new.length (M.Memory.bytes self.new.below) ≡ slice_set (window_bytes self.old.start self.old.length (M.Memory.bytes self.old.below)) position byte }
        ensures faults { window_fault self.new.start self.new.length (M.Memory.bytes self.new.below) (M.Memory.fault self.new.below) ≡ window_fault self.old.start self.old.length (M.Memory.bytes self.old.below) (M.Memory.fault self.old.below) }
        ensures start { self.new.start ≡ self.old.start }
        ensures length { self.new.length ≡ self.old.length }
        ensures below { M.Memory.bytes self.new.below ≡ put_below self.old.start self.old.length (M.Memory.bytes self.old.below) position byte }
        ensures below_faults { M.Memory.fault self.new.below ≡ M.Memory.fault self.old.below }
    {
        let lower = self.lowered(position)?;
        self.below.put(lower, byte).map_err(MemoryFault::raise)
    }
}
