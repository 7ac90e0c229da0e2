// A line for each answer.
ghost use Rattle.std.specs.Prelude.{◌≡◌, IfOk};

use board::display::{Display, Settings};
use message::builder::{Built, Finished};
use message::lister::Listed;
use message::reader::Reading;
use std::io;

// The name, which may come from the input and need not be text, and the outcome by its number, of a line that goes on.
fn begin(rt: &impl Print, name: &[u8], outcome: u32, place: usize) -> io::Result<()> {
    rt.write_all(name)?;
    print!(rt; ": outcome {outcome} place {place}")
}

pub fn of_listed(rt: &impl Print, name: &[u8], r: Listed) -> io::Result<()>
    ensures { IfOk result (λ u. u ≡ tt) }
{
    begin(rt, name, r.outcome, r.place)?;
    print!(rt; " id {:08x} size {:08x} word {:08x}", r.id, r.size, r.word)?;
    println!(rt; " value at {}", r.value)
}

pub fn of_reading(rt: &impl Print, name: &[u8], r: Reading) -> io::Result<()>
    ensures { IfOk result (λ u. u ≡ tt) }
{
    begin(rt, name, r.outcome, r.place)?;
    println!(rt;
        " length {} value at {} count {}",
        r.total, r.value, r.count
    )
}

pub fn of_built(rt: &impl Print, name: &[u8], r: Built) -> io::Result<()>
    ensures { IfOk result (λ u. u ≡ tt) }
{
    begin(rt, name, r.outcome, r.place)?;
    println!(rt; " cursor {}", r.cursor.at)
}

pub fn of_finished(rt: &impl Print, name: &[u8], r: Finished) -> io::Result<()>
    ensures { IfOk result (λ u. u ≡ tt) }
{
    begin(rt, name, r.outcome, r.place)?;
    println!(rt; " size {}", r.size)
}

pub fn of_served(rt: &impl Print, name: &[u8], outcome: u32, place: usize) -> io::Result<()>
    ensures { IfOk result (λ u. u ≡ tt) }
{
    begin(rt, name, outcome, place)?;
    println!(rt)
}

// The settings, and the buffer's base and size.
pub fn of_display(rt: &impl Print, d: Display) -> io::Result<()>
    ensures { IfOk result (λ u. u ≡ tt) }
{
    let Settings {
        physical,
        logical,
        offset,
        depth,
        order,
        alpha,
    } = d.settings;
    print!(rt; "physical {} x {}", physical.width, physical.height)?;
    print!(rt; " virtual {} x {}", logical.width, logical.height)?;
    print!(rt; " offset {}, {}", offset.x, offset.y)?;
    print!(rt; " depth {depth} order {order} alpha {alpha}")?;
    println!(rt; " buffer {:08x} {:08x}", d.buffer.base, d.buffer.size)
}
