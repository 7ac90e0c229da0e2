// What a tag asks of the board.
ghost use Rattle.std.specs.Prelude.{◌≡◌, length};
ghost use Rattle.message.specs.Helpers.{InMessage};
ghost use Rattle.requests.specs.Ask.{ask_of};
ghost use Rattle.requests.specs.Requests.{request_bytes, request_of};

use message::opening::Message;
use message::walk::Tag;
use table::kinds::{FrameTag, Kind, OutsideTag};
use table::rows::row_of;

// What a tag asks, outside the frame buffer group or of it, and how many bytes of its value are its request.
#[derive(Clone, Copy)]
pub enum Ask {
    Pass,
    Short,
    Outside(OutsideTag, usize),
    Group(FrameTag, usize),
}

// How many bytes of a value are the request of a tag of this kind, `least` being the request length of its row.
#[tactic(auto, unfolding(crate::specs::Requests::request_bytes))]
fn request_length(kind: Kind, least: usize, value: &[u8]) -> usize
    ensures { result ≡ length (request_bytes kind least (length value.now) value.now) }
{
    least.min(value.len())
}

// What the tag asks. No entry point: the walk has found the tag in the message.
pub fn ask_at(msg: &[u8], tag: Tag) -> Ask
    requires { InMessage (length msg.now) tag.at tag.size }
    ensures { result ≡ ask_of (request_of msg.now tag) }
{
    if tag.word >= 0x8000_0000 {
        return Ask::Pass;
    }
    let Some(row) = row_of(tag.id) else {
        return Ask::Pass;
    };
    if (tag.size as usize) < row.request {
        return Ask::Short;
    }
    let value = tag.at + Message::TAG;
    let end = value + tag.size as usize;
    let count = request_length(row.kind, row.request, &msg[value..end]);
    match row.kind {
        Kind::Outside(outside) => Ask::Outside(outside, count),
        Kind::Group(frame) => Ask::Group(frame, count),
    }
}
