// What failed, on standard error.
ghost use Rattle.std.specs.Prelude.{◌≡◌};

use std::io;
use std::io::Write;

// The system's text of an error, which stands before its number, or else the whole text: `text` has
// zeros behind it.
fn reason(text: &[u8]) -> &str {
    let shown = str::from_utf8(text).unwrap_or("");
    match shown.split_once(" (os error ") {
        Some((reason, _)) => reason,
        None => shown.trim_end_matches('\0'),
    }
}

fn say(rt: &impl Eprint, what: &[u8], reason: &str) -> io::Result<()> {
    match str::from_utf8(what) {
        Ok(name) => eprintln!(rt; "{name}: {reason}"),
        Err(_) => {
            let name = what.escape_ascii();
            eprintln!(rt; "{name}: {reason}")
        }
    }
}

// Writes a line to standard error: what failed, as the caller names it, a colon and the reason. A name
// that is not UTF-8 is escaped, all of it. A line that cannot be written is dropped.
pub fn fail(rt: &impl Eprint, what: &[u8], error: io::Error)
    ensures { result ≡ tt }
{
    // Fixed memory: no heap.
    let mut text = [0u8; 256];
    let mut room = &mut text[..];
    let _ = write!(room, "{error}");
    let _ = say(rt, what, reason(&text));
}
