// Bytes that are read.
ghost use Rattle.std.specs.Prelude.{take};
ghost use Rattle.std.specs.Io.KnownBytes.{Consumes};
ghost use Rattle.console.specs.Counts.{IsPrefixLen};

use std::io::Read;

// Reads until `bytes` is full, the input ends or a read fails, and gives how many bytes it put at
// the start of `bytes`: those that came first. Where `bytes` is empty, it reads nothing.
pub fn read_full<R: Read>(from: &mut R, bytes: &mut [u8]) -> usize
    ensures count { IsPrefixLen result bytes.new }
    ensures read { Consumes (R.remaining from.old) (R.remaining from.new) (take result bytes.new) }
{
    let mut done = 0;
    // By hand: `read_exact` does not say how many bytes came where they are too few.
    while done < bytes.len() {
        match from.read(&mut bytes[done..]) {
            Ok(n) if n > 0 => done += n,
            _ => break,
        }
    }
    done
}
