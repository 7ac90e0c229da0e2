// The answer of a tag, written into its message: the tag word, and the value's first bytes. A small answer
// is a number or two, a long one a part of the record.
//
// No entry points: each asks that the tag lies in the message, as the walk above has found it. Then its word and its
// value are there to be written, and nothing is left to refuse. The message and the tag are lent apart, and each
// promise asks that the one lies in the other: of a struct of both, the message afterwards would be `self.exit.0`.
ghost use Rattle.std.specs.Prelude.{[], ◌≡◌, ◌^◌, ◌<◌, length};
ghost use Rattle.words.specs.Numbers.{le};
ghost use Rattle.message.specs.Helpers.{InMessage};
ghost use Rattle.answers.specs.Answer.{two_words};
ghost use Rattle.answers.specs.Writing.{answered};

use message::opening::Message;
use message::walk::Tag;
use words::bytes::store;
use words::numbers::put_u32;

// Answers the tag with bytes, whose count has to fit into a tag word. It asks for the tag in the message because it
// writes at its place without a look: elsewhere the writes would fall on other tags, or behind the message.
pub fn put_bytes(msg: &mut [u8], tag: Tag, bytes: &[u8])
    requires { (InMessage (length msg.old) tag.at tag.size) × (length bytes.now < 2 ^ 31) }
    ensures { msg.new ≡ answered tag.at tag.size bytes.now msg.old }
{
    put_u32(msg, tag.at + Tag::WORD, 0x8000_0000 + bytes.len() as u32);
    let value = tag.at + Message::TAG;
    let end = value + tag.size as usize;
    store(&mut msg[value..end], bytes);
}

// Answers the tag with no bytes, whatever the size of its value.
pub fn put_nothing(msg: &mut [u8], tag: Tag)
    requires { InMessage (length msg.old) tag.at 0 }
    ensures { msg.new ≡ answered tag.at 0 [] msg.old }
{
    put_bytes(msg, Tag { size: 0, ..tag }, &[]);
}

// Answers the tag with a word. This and the next ones are one line each, for the bytes of their numbers.
pub fn put_word(msg: &mut [u8], tag: Tag, n: u32)
    requires { InMessage (length msg.old) tag.at tag.size }
    ensures { msg.new ≡ answered tag.at tag.size (le 4 n) msg.old }
{
    put_bytes(msg, tag, &n.to_le_bytes());
}

// Answers the tag with two words: as one number of 64 bits they are stored at once.
pub fn put_pair(msg: &mut [u8], tag: Tag, a: u32, b: u32)
    requires { InMessage (length msg.old) tag.at tag.size }
    ensures { msg.new ≡ answered tag.at tag.size (two_words a b) msg.old }
{
    put_long(msg, tag, a as u64 + 0x1_0000_0000 * b as u64);
}

// Answers the tag with a number of 64 bits.
pub fn put_long(msg: &mut [u8], tag: Tag, n: u64)
    requires { InMessage (length msg.old) tag.at tag.size }
    ensures { msg.new ≡ answered tag.at tag.size (le 8 n) msg.old }
{
    put_bytes(msg, tag, &n.to_le_bytes());
}
