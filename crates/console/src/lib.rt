// Runs of bytes on standard output, what failed on standard error, and bytes that are read.
#![tactic(auto)]

ghost use Rattle.std.specs.Prelude.{◌≡◌, IfOk};

pub mod failure;
pub mod reading;

use std::io;

// The words of a run of bytes, in one line: those that lie in it whole.
pub fn print_words(rt: &impl Print, bytes: &[u8]) -> io::Result<()>
    ensures { IfOk result (λ u. u ≡ tt) }
{
    for word in bytes.as_chunks::<4>().0 {
        print!(rt; " {:08x}", u32::from_le_bytes(*word))?;
    }
    println!(rt)
}

// The bytes of a run, in one line. Two loops: a word and a byte have formats of their own, and a format is a literal.
pub fn print_bytes(rt: &impl Print, bytes: &[u8]) -> io::Result<()>
    ensures { IfOk result (λ u. u ≡ tt) }
{
    for byte in bytes {
        print!(rt; " {byte:02x}")?;
    }
    println!(rt)
}
