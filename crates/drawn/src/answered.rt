// Messages that are served, and what they hold afterwards.
ghost use Rattle.std.specs.Prelude.{◌≡◌, ◌<◌, IfOk, length};
ghost use Rattle.board.specs.Bench.{bench};
ghost use Rattle.responder.specs.Reply.{reply};

use crate::{blocks, lines};
use board::bench::bench_record;
use board::record::Board;
use console::print_words;
use message::lister::list;
use responder::respond::respond;
use std::io;
use words::numbers::put_u32;

// Serves the bytes, prints outcome, place, words, display and blocks, and gives the record afterwards.
pub fn serve_and_draw(
    rt: &impl Print,
    name: &[u8],
    board: Board,
    bytes: &mut [u8],
) -> io::Result<Board>
    ensures bytes_after { bytes.new ≡ (reply board bytes.old).bytes }
    ensures value { IfOk result (λ b. b ≡ (reply board bytes.old).answer.board) }
{
    let served = respond(board, bytes);
    lines::of_served(rt, name, served.outcome, served.place)?;
    print_words(rt, bytes)?;
    let after = served.board;
    lines::of_display(rt, after.display)?;
    blocks::of_blocks(rt, &after.blocks)?;
    Ok(after)
}

// A message of no tags in 11 of its 12 bytes.
pub fn eleven(rt: &impl Print) -> io::Result<()>
    ensures { IfOk result (λ u. u ≡ tt) }
{
    serve_empty(rt, b"lent 11", bench_record(), &mut [0; 11])
}

// A message of no tags, in these bytes.
fn serve_empty(rt: &impl Print, name: &[u8], board: Board, lent: &mut [u8]) -> io::Result<()>
    requires { 0 < length lent.old }
{
    lent[0] = 12;
    serve_and_draw(rt, name, board, lent)?;
    Ok(())
}

// A record whose DMA mask has bit 16.
pub fn invalid(rt: &impl Print) -> io::Result<()>
    ensures { IfOk result (λ u. u ≡ tt) }
{
    let mut board = bench_record();
    board.facts.dma = 0x1_0000;
    serve_empty(rt, b"record not valid", board, &mut [0; 12])
}

// A record that shows 800 columns of a virtual picture of 800, from column 799 on.
pub fn beyond_picture(rt: &impl Print) -> io::Result<()>
    ensures { IfOk result (λ u. u ≡ tt) }
{
    let mut board = bench_record();
    board.display.settings.offset.x = 799;
    serve_empty(rt, b"record with offset 799 of 800", board, &mut [0; 12])
}

// A message of no tags with this size word, in 65,540 bytes.
pub fn long_message(rt: &impl Print, name: &[u8], size: u32) -> io::Result<()>
    ensures { IfOk result (λ u. u ≡ tt) }
{
    let mut lent = [0u8; 65540];
    put_u32(&mut lent, 0, size);
    let served = respond(bench_record(), &mut lent);
    lines::of_served(rt, name, served.outcome, served.place)
}

// The largest message, with its first and last tag.
pub fn serve_largest(rt: &impl Print, bytes: &mut [u8]) -> io::Result<()>
    ensures { bytes.new ≡ (reply bench bytes.old).bytes }
{
    let served = respond(bench_record(), bytes);
    lines::of_served(rt, b"5460 tags served", served.outcome, served.place)?;
    lines::of_listed(rt, b"tag 0", list(bytes, 0))?;
    lines::of_listed(rt, b"tag 5459", list(bytes, 5459))?;
    lines::of_listed(rt, b"tag 5460", list(bytes, 5460))
}
