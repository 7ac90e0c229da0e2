// What the lister says of sizes and of values that run over.
ghost use Rattle.std.specs.Prelude.{◌≡◌, ◌≤◌, IfOk, length};

use crate::lines;
use message::lister::list;
use message::opening::Message;
use message::walk::Tag;
use std::io;
use words::numbers::put_u32;

pub fn cases(rt: &impl Print) -> io::Result<()>
    ensures { IfOk result (λ u. u ≡ tt) }
{
    // The bytes of all cases, made once.
    let mut short = [0; 12];
    let mut long = [0; 65540];
    lines::of_listed(rt, b"lent 0", list(&short[..0], 0))?;
    lines::of_listed(rt, b"lent 11", list(&short[..11], 0))?;
    sized(rt, b"size 8", &mut short, 8)?;
    sized(rt, b"size 12", &mut short, 12)?;
    sized(rt, b"size 14", &mut short, 14)?;
    sized(rt, b"size 16 of 12 lent", &mut short, 16)?;
    sized(rt, b"size 65532", &mut long, 65532)?;
    sized(rt, b"size 65536", &mut long, 65536)?;
    sized(rt, b"size 65540", &mut long, 65540)?;
    tag_value(rt, b"no end", 1, 4)?;
    tag_value(rt, b"end", 0, 4)?;
    tag_value(rt, b"value of 0xfffffffd bytes", 1, 0xffff_fffd)?;
    tag_value(rt, b"value of 0xffffffff bytes", 1, 0xffff_ffff)?;
    tag_value(rt, b"value of 5 bytes in 4", 1, 5)?;
    tag_value(rt, b"value of 3 bytes in 4", 1, 3)
}

// Bytes with this size word: the tag of index 0.
fn sized(rt: &impl Print, name: &[u8], lent: &mut [u8], size: u32) -> io::Result<()>
    requires { 4 ≤ length lent.old }
{
    put_u32(lent, 0, size);
    lines::of_listed(rt, name, list(lent, 0))
}

// A message of 36 bytes, whose first tag has no value, and whose second has this id and value size
// and takes up the rest: the tags of index 0, 1 and 2.
fn tag_value(rt: &impl Print, name: &[u8], id: u32, size: u32) -> io::Result<()> {
    let mut lent = [0u8; 36];
    let second = Message::HEADER + Message::TAG;
    put_u32(&mut lent, 0, 36);
    put_u32(&mut lent, Message::HEADER, 7);
    put_u32(&mut lent, second, id);
    put_u32(&mut lent, second + Tag::SIZE, size);
    lines::of_listed(rt, name, list(&lent, 0))?;
    lines::of_listed(rt, name, list(&lent, 1))?;
    lines::of_listed(rt, name, list(&lent, 2))
}
