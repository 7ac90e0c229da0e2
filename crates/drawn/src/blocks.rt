// A line for each block of GPU memory.
ghost use Rattle.std.specs.Prelude.{◌≡◌, IfOk};

use board::memory::Block;
use std::io;

fn of_block(rt: &impl Print, handle: usize, b: &Block) -> io::Result<()> {
    let lock = if b.locked { " locked" } else { "" };
    print!(rt; "block {handle} at {:08x} size {:08x}", b.base, b.size)?;
    println!(rt;
        " alignment {:08x} flags {:08x}{lock}",
        b.alignment, b.flags
    )
}

// The blocks that are taken, by their handles.
pub fn of_blocks(rt: &impl Print, blocks: &[Block]) -> io::Result<()>
    ensures { IfOk result (λ u. u ≡ tt) }
{
    for (handle, block) in (1..).zip(blocks) {
        if block.taken {
            of_block(rt, handle, block)?;
        }
    }
    Ok(())
}
