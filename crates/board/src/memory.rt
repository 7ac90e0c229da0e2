// GPU memory: the places for blocks of the heap, and runs of memory.
ghost use Rattle.std.specs.Prelude.{◌≡◌, ◌<◌};
ghost use Rattle.board.specs.Memory.{span, apart, bytes_of, clear_of};

use crate::facts::Span;

// A block, where the place is taken. Where it is free, as by default, the rest says nothing. A flag tells, as in C.
#[repr(C)]
#[derive(Clone, Copy, Default)]
pub struct Block {
    pub taken: bool,
    pub locked: bool,
    pub base: u32,
    pub size: u32,
    pub alignment: u32,
    pub flags: u32,
}

impl Block {
    // Its bytes, where it is taken.
    pub fn bytes(self) -> Span
        ensures { result ≡ bytes_of self }
    {
        Span {
            base: self.base,
            size: self.size,
        }
    }
}

// Whether two runs of memory share no byte. The first is no `Span`, since it may begin behind 2^32. No entry point:
// for a base below 2^36.
#[tactic(auto, unfolding(crate::specs::Memory::apart))]
pub fn are_apart(base: u64, size: u32, t: Span) -> bool
    requires { base < 0x10_0000_0000 }
    ensures { result ≡ apart (span base size) t }
{
    base + size as u64 <= t.base as u64 || t.end() <= base || size == 0 || t.size == 0
}

// Whether a run of memory has no byte of a block. No entry point: for a base below 2^36.
#[tactic(auto, unfolding(crate::specs::Memory::clear_of))]
pub fn is_clear_of(base: u64, size: u32, b: Block) -> bool
    requires { base < 0x10_0000_0000 }
    ensures { result ≡ clear_of (span base size) b }
{
    !b.taken || are_apart(base, size, b.bytes())
}
