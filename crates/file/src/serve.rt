// Serving a file: it is read, served and written back. What fails is said on standard error.
ghost use Rattle.std.specs.Prelude.{◌≡◌};

use crate::bytes::{is_rewritten, serve_bytes};
use console::failure::fail;
use console::reading::read_full;
use message::opening::Message;
use std::fs::{OpenFile, OpenOptions};
use std::io::{ErrorKind, Read, Write};
use std::rt::Files;
use std::{fs, io};

// A path as text: no other can be opened.
fn as_text(path: &[u8]) -> io::Result<&str> {
    str::from_utf8(path).map_err(|_| io::Error::new(
        ErrorKind::InvalidFilename,
        "the file name is not UTF-8",
    ))
}

// Fails unless the whole file has been read: nothing follows, and no read fails.
fn check_end(file: &mut impl Read) -> io::Result<()> {
    let mut more = [0u8; 1];
    if file.read(&mut more)? == 0 {
        return Ok(());
    }
    Err(io::Error::other("more bytes follow those that were read"))
}

// Whether a sync fails for the kind of file, as a pipe, and not for what was written.
fn has_no_sync(error: io::Error) -> bool {
    matches!(
        error.kind(),
        ErrorKind::InvalidInput | ErrorKind::Unsupported
    )
}

// Fails where the system took the bytes and then could not write them.
fn check_written(file: &impl OpenFile) -> io::Result<()> {
    match file.sync_data() {
        Err(error) if !has_no_sync(error) => Err(error),
        _ => Ok(()),
    }
}

// Writes the bytes over the file's own, as many as it has. The file is never emptied, so that no
// failure leaves it shorter.
fn write_back(rt: &impl Files, path: &str, bytes: &[u8]) -> io::Result<()> {
    let mut file = OpenOptions::new().read(true).write(true).open(rt, path)?;
    file.write_all(bytes)?;
    check_written(&file)
}

fn print_line(rt: &(impl Print + Eprint), n: u32) {
    if let Err(error) = println!(rt; "{n}") {
        fail(rt, b"standard output", error);
    }
}

// Serves the bytes that were read, writes them back where they can have changed, and gives the
// outcome.
fn serve_read(rt: &impl Files, path: &str, bytes: &mut [u8]) -> io::Result<u32> {
    let outcome = serve_bytes(bytes);
    if is_rewritten(outcome) {
        write_back(rt, path, bytes)?;
    }
    Ok(outcome)
}

// Serves the file, and gives the outcome by its number. It is read no further than shows that it is above the most
// bytes of a message.
fn serve_path(rt: &impl Files, path: &[u8]) -> io::Result<u32> {
    // Fixed memory: no heap. It stands first: behind a `?` it is cleared twice.
    let mut buffer = [0u8; Message::MAX + 1];
    let path = as_text(path)?;
    let mut file = fs::open(rt, path)?;
    let n = read_full(&mut file, &mut buffer);
    if n <= Message::MAX {
        check_end(&mut file)?;
    }
    serve_read(rt, path, &mut buffer[..n])
}

// Serves a message file on the bench record, writes it back in place, and prints the outcome as a
// line on standard output. A file that cannot be read or written is said on standard error, and
// prints nothing.
pub fn serve_file<R: Files + Print + Eprint>(rt: &R, path: &[u8])
    ensures { result ≡ tt }
{
    match serve_path(rt, path) {
        Ok(outcome) => print_line(rt, outcome),
        Err(error) => fail(rt, path, error),
    }
}
