// Requests that the builder makes.
ghost use Rattle.std.specs.Prelude.{◌≡◌, IfOk};

use crate::{answered, lines};
use console::print_words;
use message::builder;
use message::builder::{Built, Cursor};
use message::lister::list;
use std::io;

fn add_empty(buffer: &mut [u8], cursor: Cursor) -> Built {
    builder::add(buffer, cursor, 1, 0, &[])
}

// Adds as many tags of 12 bytes as are asked for, and gives what the last add gave.
fn add_many(buffer: &mut [u8], first: Built, count: usize) -> Built {
    let mut last = first;
    for _ in 0..count {
        last = add_empty(buffer, last.cursor);
    }
    last
}

// The largest message: 5,460 tags of 12 bytes, and no room for one more.
pub fn largest_request(rt: &impl Print) -> io::Result<()>
    ensures { IfOk result (λ u. u ≡ tt) }
{
    let mut buffer = [0xAAu8; 65540];
    let first = builder::start(&buffer);
    lines::of_built(rt, b"start", first)?;
    let full = add_many(&mut buffer, first, 5460);
    lines::of_built(rt, b"5460 tags", full)?;
    let more = add_empty(&mut buffer, full.cursor);
    lines::of_built(rt, b"one tag more", more)?;
    lines::of_finished(rt, b"finished", builder::finish(&mut buffer, full.cursor))?;
    lines::of_listed(rt, b"tag 5459", list(&buffer, 5459))?;
    lines::of_listed(rt, b"tag 5460", list(&buffer, 5460))
}

// The same in 65,536 bytes, served.
pub fn largest_served(rt: &impl Print) -> io::Result<()>
    ensures { IfOk result (λ u. u ≡ tt) }
{
    let mut buffer = [0u8; 65536];
    let first = builder::start(&buffer);
    let full = add_many(&mut buffer, first, 5460);
    builder::finish(&mut buffer, full.cursor);
    answered::serve_largest(rt, &mut buffer)
}

// The cursor behind a tag whose value and request are one word.
fn add_word(buffer: &mut [u8], cursor: Cursor, id: u32, a: u32) -> Cursor {
    builder::add(buffer, cursor, id, 4, &a.to_le_bytes()).cursor
}

// The cursor behind a tag whose value and request are two words.
fn add_pair(buffer: &mut [u8], cursor: Cursor, id: u32, a: u32, b: u32) -> Cursor {
    let request = [a.to_le_bytes(), b.to_le_bytes()];
    builder::add(buffer, cursor, id, 8, request.as_flattened()).cursor
}

// The request of 80 bytes that sets 640 x 480 at depth 24, in a buffer of 84 other bytes.
pub fn screen_request(rt: &impl Print) -> io::Result<()>
    ensures { IfOk result (λ u. u ≡ tt) }
{
    let mut buffer = [0xAAu8; 84];
    let first = builder::start(&buffer).cursor;
    let physical = add_pair(&mut buffer, first, 0x0004_8003, 640, 480);
    let shown = add_pair(&mut buffer, physical, 0x0004_8004, 640, 480);
    let depth = add_word(&mut buffer, shown, 0x0004_8005, 24);
    lines::of_finished(rt, b"640 x 480 x 24", builder::finish(&mut buffer, depth))?;
    print_words(rt, &buffer)
}

// A call with each cursor, id and value that the builder refuses, and its neighbours that it takes.
pub fn refused_calls(rt: &impl Print) -> io::Result<()>
    ensures { IfOk result (λ u. u ≡ tt) }
{
    let mut buffer = [0u8; 48];
    lines::of_built(rt, b"start in 15", builder::start(&buffer[..15]))?;
    lines::of_built(rt, b"start in 16", builder::start(&buffer[..16]))?;
    add_at(rt, b"cursor 4", &mut buffer, 4, 1, 0)?;
    add_at(rt, b"cursor 10", &mut buffer, 10, 1, 0)?;
    add_at(rt, b"cursor 52 of 48", &mut buffer, 52, 0, 0)?;
    add_at(rt, b"id 0", &mut buffer, 8, 0, 4)?;
    add_at(rt, b"value shorter than its request", &mut buffer, 8, 1, 3)?;
    add_at(
        rt,
        b"value of 0xffffffff bytes",
        &mut buffer,
        8,
        1,
        0xffff_ffff,
    )?;
    add_at(rt, b"value of 25 bytes", &mut buffer, 8, 1, 25)?;
    add_at(rt, b"value of 24 bytes", &mut buffer, 8, 1, 24)?;
    finish_at(rt, b"finish at 4", &mut buffer, 4)?;
    finish_at(rt, b"finish at 48", &mut buffer, 48)?;
    finish_at(rt, b"finish at 44", &mut buffer, 44)?;
    print_words(rt, &buffer)
}

fn add_at(
    rt: &impl Print,
    name: &[u8],
    buffer: &mut [u8],
    at: usize,
    id: u32,
    size: u32,
) -> io::Result<()> {
    lines::of_built(
        rt,
        name,
        builder::add(buffer, Cursor { at }, id, size, b"four"),
    )
}

fn finish_at(rt: &impl Print, name: &[u8], buffer: &mut [u8], at: usize) -> io::Result<()> {
    lines::of_finished(rt, name, builder::finish(buffer, Cursor { at }))
}
