// Messages from standard input, one to a line: `-` and a name, a colon, and words in hexadecimal. A
// message is served on the bench record, or, with `+` for `-`, on the record that the one before it
// left. Any other line is copied.
ghost use Rattle.std.specs.Prelude.{◌≡◌, ◌<◌, ◌≤◌, IfOk, length};

use crate::answered::serve_and_draw;
use board::bench::bench_record;
use board::record::Board;
use console::reading::read_full;
use std::io;
use words::numbers::{put_u32, u32_at};

// The value of a hexadecimal digit. By hand: any other byte has a value too, where `to_digit` has none.
fn digit(c: u8) -> u32
    ensures { result < 16 }
{
    let code = u32::from(c);
    if code < 64 {
        code % 16
    } else {
        (code + 9) % 16
    }
}

// Takes a character behind `n` bytes of words: a blank begins a word, and a digit goes on with it.
// Where there is no room for a word, the digits go on with the last.
fn put_character(bytes: &mut [u8], n: usize, c: u8) -> usize
    requires { n ≤ length bytes.old }
    ensures { result ≤ length bytes.new }
{
    match c {
        b' ' if bytes.len() - n < 4 => n,
        b' ' => n + 4,
        _ if n < 4 => n,
        _ => {
            let word = u32_at(bytes, n - 4);
            put_u32(bytes, n - 4, word << 4 | digit(c));
            n
        }
    }
}

// Puts words, a blank before each, into bytes that are zeros, and gives the number of their bytes.
fn put_words(bytes: &mut [u8], words: &[u8]) -> usize
    ensures { result ≤ length bytes.new }
{
    let mut n = 0;
    for c in words {
        n = put_character(bytes, n, *c);
    }
    n
}

fn serve_message(rt: &impl Print, board: Board, line: &[u8]) -> io::Result<Board> {
    let colon = line.iter().position(|c| *c == b':').unwrap_or(line.len());
    let (name, words) = line.split_at(colon);
    // Fixed memory: no heap.
    let mut buffer = [0u8; 1024];
    let n = put_words(&mut buffer, words);
    serve_and_draw(rt, name, board, &mut buffer[..n])
}

// Takes a line, and gives the record for the next.
fn take_line(rt: &impl Print, board: Board, line: &[u8]) -> io::Result<Board> {
    match line {
        [b'-', ..] => serve_message(rt, bench_record(), line),
        [b'+', ..] => serve_message(rt, board, line),
        _ => {
            rt.write_all(line)?;
            println!(rt)?;
            Ok(board)
        }
    }
}

fn take_lines(rt: &impl Print, lines: &[u8]) -> io::Result<()> {
    let mut board = bench_record();
    for line in lines.split_inclusive(|c| *c == b'\n') {
        board = take_line(rt, board, line.strip_suffix(b"\n").unwrap_or(line))?;
    }
    Ok(())
}

pub fn serve_input(rt: &(impl Print + Input)) -> io::Result<()>
    ensures { IfOk result (λ u. u ≡ tt) }
{
    // Fixed memory: no heap.
    let mut buffer = [0u8; 65536];
    let n = read_full(&mut rt.reader(), &mut buffer);
    take_lines(rt, &buffer[..n])
}
