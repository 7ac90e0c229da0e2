// Serves message files, and writes out what they hold afterwards.
#![tactic(auto)]

use console::failure::fail;
use console::print_words;
use console::reading::read_full;
use file::serve::serve_file;
use std::fs::OpenOptions;
use std::io::{Read, Write};
use std::rt::Files;
use std::{fs, io};

// A file one byte longer than a message may be, that begins as a message of 12 bytes.
fn make_long(rt: &impl Files, path: &str) -> io::Result<()> {
    let mut bytes = [0u8; 65537];
    bytes[0] = 12;
    let mut file = OpenOptions::new()
        .write(true)
        .create_new(true)
        .open(rt, path)?;
    file.write_all(&bytes)
}

// How many bytes there are, and the words of the first 80.
fn show_bytes(rt: &impl Print, bytes: &[u8]) -> io::Result<()> {
    print!(rt; "bytes {}:", bytes.len())?;
    let n = bytes.len().min(80);
    print_words(rt, &bytes[..n])
}

fn show_open(rt: &impl Print, mut file: impl Read + Drop) -> io::Result<()> {
    // Fixed memory: no heap.
    let mut buffer = [0u8; 65540];
    let n = read_full(&mut file, &mut buffer);
    show_bytes(rt, &buffer[..n])
}

fn show_file(rt: &(impl Files + Print + Eprint), path: &str) -> io::Result<()> {
    match fs::open(rt, path) {
        Ok(file) => show_open(rt, file),
        Err(error) => {
            fail(rt, path.as_bytes(), error);
            Ok(())
        }
    }
}

fn serve_and_show(rt: &(impl Files + Print + Eprint), path: &str) -> io::Result<()> {
    println!(rt; "{path}")?;
    serve_file(rt, path.as_bytes());
    show_file(rt, path)
}

fn main(rt: HostRuntime) -> io::Result<()> {
    serve_and_show(&rt, "screen.msg")?;
    serve_and_show(&rt, "fault.msg")?;
    serve_and_show(&rt, "reply.msg")?;
    serve_and_show(&rt, "empty.msg")?;
    // A file that is there already stays, and is served.
    let _ = make_long(&rt, "long.msg");
    serve_and_show(&rt, "long.msg")?;
    serve_and_show(&rt, "missing.msg")
}
