// GPU memory: allocate, and the tags that name a block by its handle.
ghost use Rattle.std.specs.Prelude.{true, not, position, ◌≡◌, ◌<◌};
ghost use Rattle.words.specs.Align.{aligned};
ghost use Rattle.board.specs.Memory.{valid_heap};
ghost use Rattle.tags.specs.Memory.{new_block, allocation};
ghost use Rattle.tags.specs.Memory.{handle_after, handle_value};
ghost use Rattle.tags.specs.Raised.{raised_over, Raised};

use board::facts::Span;
use board::memory::{Block, is_clear_of};
use table::kinds::HandleTag;
use words::align::Alignment;

// What an allocate is granted: a handle and its new block.
#[derive(Clone, Copy)]
pub struct Granted {
    pub handle: u32,
    pub block: Block,
}

// A new block is not locked.
fn new_block(base: u32, size: u32, alignment: u32, flags: u32) -> Block
    ensures { result ≡ new_block base size alignment flags }
{
    Block {
        taken: true,
        locked: false,
        base,
        size,
        alignment,
        flags,
    }
}

// The address; or, where a block is in the way of `size` bytes from it on, the lowest multiple of the
// alignment behind the block.
fn raised_over(b: Block, address: u64, size: u32, alignment: Alignment) -> u64
    requires { address < 0x3_0000_0000 }
    ensures { (result ≡ raised_over b address size alignment.value) × (result < 0x3_0000_0000) }
{
    if is_clear_of(address, size, b) {
        address
    } else {
        alignment.lowest_multiple(b.bytes().end())
    }
}

// The address, raised over one block after the other.
fn raised_over_all(blocks: &[Block; 32], address: u64, size: u32, alignment: Alignment) -> u64
    requires { (aligned alignment.value address ≡ true) × (address < 0x3_0000_0000) }
    ensures { Raised blocks.now address size alignment.value result }
{
    let mut a = address;
    for b in blocks {
        a = raised_over(*b, a, size, alignment);
    }
    a
}

// The lowest place that is free, of the 32 that the handles name.
fn lowest_free_place(blocks: &[Block; 32]) -> Option<usize>
    ensures { result ≡ position (λ b. not b.taken) blocks.now }
{
    blocks.iter().position(|b| !b.taken)
}

// What an allocate comes to: the lowest free place, and the lowest multiple of the alignment in the heap, raised until
// nothing is in the way. No entry point: for a valid heap, which the walk knows by its record.
pub fn allocate(
    heap: Span,
    blocks: &[Block; 32],
    size: u32,
    alignment: u32,
    flags: u32,
) -> Option<Granted>
    requires { valid_heap heap ≡ true }
    ensures { result ≡ allocation heap blocks.now size alignment flags }
{
    if size == 0 {
        return None;
    }
    let alignment = Alignment::new(alignment)?;
    let mut a = alignment.lowest_multiple(heap.base as u64);
    // Where the heap as a whole has no room, the places need no look.
    if heap.end() < a + size as u64 {
        return None;
    }
    let place = lowest_free_place(blocks)?;
    while a + size as u64 <= heap.end() {
        let raised = raised_over_all(blocks, a, size, alignment);
        if raised == a {
            let handle = place as u32 + 1;
            let block = new_block(a as u32, size, alignment.value, flags);
            return Some(Granted { handle, block });
        }
        a = raised;
    }
    None
}

// The block as a tag leaves it. A handle whose place is free is unknown, and nothing changes.
#[tactic(auto, unfolding(crate::specs::Memory::handle_after))]
pub fn handle_after(b: Block, tag: HandleTag) -> Block
    ensures { result ≡ handle_after tag b }
{
    if !b.taken {
        return b;
    }
    match tag {
        HandleTag::Lock => Block { locked: true, ..b },
        HandleTag::Unlock => Block { locked: false, ..b },
        HandleTag::Release => Block::default(),
    }
}

// What a tag answers of the block that it found.
#[tactic(auto, unfolding(crate::specs::Memory::handle_value))]
pub fn handle_value(b: Block, tag: HandleTag) -> u32
    ensures { result ≡ handle_value tag b }
{
    match tag {
        HandleTag::Lock => if b.taken { b.base } else { 0 },
        HandleTag::Unlock | HandleTag::Release => u32::from(!b.taken),
    }
}
