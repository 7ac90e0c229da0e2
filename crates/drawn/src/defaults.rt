// Answers that are read, or the default in their place.
ghost use Rattle.std.specs.Prelude.{◌≡◌, IfOk};

use crate::ids;
use board::bench::bench_record;
use console::print_bytes;
use message::builder;
use message::reader::{part_or, read};
use responder::respond::respond;
use std::io;
use words::bytes::prefix;

// The outcome of a reading, and the bytes that are shown where six others are the default.
fn draw_or(rt: &impl Print, name: &str, message: &[u8], id: u32, wanted: usize) -> io::Result<()> {
    let default = [1, 2, 3, 4, 5, 6];
    let reading = read(message, id, 0, wanted);
    print!(rt; "{name}: outcome {} shows", reading.outcome)?;
    print_bytes(rt, part_or(message, id, 0, wanted, &default))
}

// A request for the MAC address in a value of four bytes, and an unknown tag.
fn build_request(buffer: &mut [u8]) {
    let start = builder::start(buffer).cursor;
    let second = builder::add(buffer, start, ids::MAC_ADDRESS, 4, &[]).cursor;
    let end = builder::add(buffer, second, ids::UNKNOWN, 4, &[]).cursor;
    builder::finish(buffer, end);
}

fn draw_reply(rt: &impl Print, reply: &[u8]) -> io::Result<()> {
    draw_or(
        rt,
        "MAC address in 4 bytes, 4 wanted",
        reply,
        ids::MAC_ADDRESS,
        4,
    )?;
    draw_or(rt, "5 wanted", reply, ids::MAC_ADDRESS, 5)?;
    draw_or(rt, "6 wanted", reply, ids::MAC_ADDRESS, 6)?;
    draw_or(rt, "0 wanted", reply, ids::MAC_ADDRESS, 0)?;
    draw_or(rt, "no such tag", reply, ids::SERIAL, 4)?;
    draw_or(rt, "not answered", reply, ids::UNKNOWN, 0)?;
    draw_or(rt, "lent 11", prefix(reply, 11), ids::MAC_ADDRESS, 4)
}

pub fn cases(rt: &impl Print) -> io::Result<()>
    ensures { IfOk result (λ u. u ≡ tt) }
{
    let mut lent = [0u8; 48];
    build_request(&mut lent);
    draw_or(rt, "MAC address not served", &lent, ids::MAC_ADDRESS, 4)?;
    respond(bench_record(), &mut lent);
    draw_reply(rt, &lent)
}
