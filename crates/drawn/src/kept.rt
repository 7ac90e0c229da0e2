// Messages that are kept and asked several times.
ghost use Rattle.std.specs.Prelude.{◌≡◌, IfOk};

use crate::{ids, lines};
use board::bench::bench_record;
use message::builder;
use message::builder::Cursor;
use message::reader::{Question, read_two, whole_answer};
use responder::respond::respond;
use std::io;

// The cursor behind a tag that has room for an answer of so many bytes.
fn add_tag(buffer: &mut [u8], cursor: Cursor, id: u32, size: u32) -> Cursor {
    builder::add(buffer, cursor, id, size, &[]).cursor
}

// A question in one line, where a literal takes five.
fn question(id: u32, occurrence: usize, wanted: usize) -> Question {
    Question {
        id,
        occurrence,
        wanted,
    }
}

// One kept message is asked for two tags.
fn draw_two(
    rt: &impl Print,
    name: &[u8],
    bytes: &[u8],
    one: Question,
    other: Question,
) -> io::Result<()> {
    let readings = read_two(bytes, one, other);
    lines::of_reading(rt, name, readings.one)?;
    lines::of_reading(rt, name, readings.other)
}

// One kept message is asked for the length of an answer and for its bytes, which are counted.
fn draw_whole(
    rt: &impl Print,
    name: &str,
    bytes: &[u8],
    id: u32,
    occurrence: usize,
) -> io::Result<()> {
    let answer = whole_answer(bytes, id, occurrence);
    println!(rt; "{name}: {} bytes", answer.len())
}

// What the message shows once it is served: tags that are there once, twice and not at all.
fn draw_readings(rt: &impl Print, bytes: &[u8]) -> io::Result<()> {
    draw_two(
        rt,
        b"MAC address, model",
        bytes,
        question(ids::MAC_ADDRESS, 0, 6),
        question(ids::MODEL, 0, 4),
    )?;
    draw_two(
        rt,
        b"second MAC address, 4 and 6 bytes",
        bytes,
        question(ids::MAC_ADDRESS, 1, 4),
        question(ids::MAC_ADDRESS, 1, 6),
    )?;
    draw_two(
        rt,
        b"third MAC address, revision",
        bytes,
        question(ids::MAC_ADDRESS, 2, 0),
        question(ids::REVISION, 0, 0),
    )?;
    draw_two(
        rt,
        b"unknown tag, id 0",
        bytes,
        question(ids::UNKNOWN, 0, 0),
        question(0, 0, 0),
    )?;
    draw_whole(rt, "whole MAC address", bytes, ids::MAC_ADDRESS, 0)?;
    draw_whole(rt, "whole second MAC address", bytes, ids::MAC_ADDRESS, 1)?;
    draw_whole(rt, "whole unknown tag", bytes, ids::UNKNOWN, 0)
}

// The same of its command line, which has 51 bytes.
fn draw_line(rt: &impl Print, bytes: &[u8]) -> io::Result<()> {
    draw_two(
        rt,
        b"command line, 0 and 51 bytes",
        bytes,
        question(ids::COMMAND_LINE, 0, 0),
        question(ids::COMMAND_LINE, 0, 51),
    )?;
    draw_two(
        rt,
        b"command line, 52 and 64 bytes",
        bytes,
        question(ids::COMMAND_LINE, 0, 52),
        question(ids::COMMAND_LINE, 0, 64),
    )?;
    draw_whole(rt, "whole command line", bytes, ids::COMMAND_LINE, 0)?;
    rt.write_all(whole_answer(bytes, ids::COMMAND_LINE, 0))?;
    println!(rt)
}

// A message that asks for the MAC address with room for six bytes and for four, the model, an
// unknown tag, and the command line with room for 64.
pub fn cases(rt: &impl Print) -> io::Result<()>
    ensures { IfOk result (λ u. u ≡ tt) }
{
    let mut buffer = [0u8; 160];
    let first = builder::start(&buffer).cursor;
    let mac = add_tag(&mut buffer, first, ids::MAC_ADDRESS, 6);
    let short = add_tag(&mut buffer, mac, ids::MAC_ADDRESS, 4);
    let model = add_tag(&mut buffer, short, ids::MODEL, 4);
    let unknown = add_tag(&mut buffer, model, ids::UNKNOWN, 0);
    let line = add_tag(&mut buffer, unknown, ids::COMMAND_LINE, 64);
    lines::of_finished(rt, b"to be kept", builder::finish(&mut buffer, line))?;
    draw_two(
        rt,
        b"not served",
        &buffer,
        question(ids::MAC_ADDRESS, 0, 6),
        question(ids::MODEL, 0, 4),
    )?;
    let served = respond(bench_record(), &mut buffer);
    lines::of_served(rt, b"served, and kept", served.outcome, served.place)?;
    draw_readings(rt, &buffer)?;
    draw_line(rt, &buffer)
}
