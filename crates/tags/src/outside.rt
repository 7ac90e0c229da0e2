// A tag outside the group by the id that it names: where its item stands, and the answer where no
// item has the id.
ghost use Rattle.std.specs.Prelude.{◌≡◌, length};
ghost use Rattle.message.specs.Helpers.{InMessage};
ghost use Rattle.answers.specs.Writing.{answered};
ghost use Rattle.tags.specs.Named.{Named, absent_answer};

use crate::clock::clock_value;
use crate::memory::handle_value;
use crate::place::place_of;
use crate::power::power_value;
use crate::voltage::voltage_value;
use answers::writing::{put_pair, put_word};
use board::items::{Clock, Device, Voltage};
use board::memory::Block;
use message::walk::Tag;
use table::kinds::OutsideTag;

// The place of the item that a tag names. A fact and an allocate have no id and the temperature answers every id:
// their place is 0.
pub fn item_place(tag: OutsideTag, id: u32) -> Option<usize>
    ensures { Named tag id result }
{
    match tag {
        OutsideTag::Power(_) => place_of(id, 0, 11),
        OutsideTag::Clock(_) => place_of(id, 1, 14),
        OutsideTag::Voltage(_) => place_of(id, 1, 4),
        OutsideTag::Handle(_) => place_of(id, 1, 32),
        OutsideTag::Fact(_) | OutsideTag::Temperature(_) | OutsideTag::Allocate => Some(0),
    }
}

// Answers a tag of an id that is not listed: with the value of an absent item, or as of an unknown handle. A fact, the
// temperature and an allocate are always listed. No entry point: the walk above has found the tag in the message.
pub fn put_absent(msg: &mut [u8], tag: Tag, outside: OutsideTag, id: u32)
    requires { InMessage (length msg.old) tag.at tag.size }
    ensures { msg.new ≡ answered tag.at tag.size (absent_answer outside id) msg.old }
{
    match outside {
        OutsideTag::Power(kind) => {
            put_pair(msg, tag, id, power_value(Device::default(), kind));
        }
        OutsideTag::Clock(kind) => {
            put_pair(msg, tag, id, clock_value(Clock::default(), kind));
        }
        OutsideTag::Voltage(kind) => {
            put_pair(msg, tag, id, voltage_value(Voltage::default(), kind));
        }
        OutsideTag::Handle(kind) => put_word(msg, tag, handle_value(Block::default(), kind)),
        OutsideTag::Fact(_) | OutsideTag::Temperature(_) | OutsideTag::Allocate => {
            put_pair(msg, tag, id, 0);
        }
    }
}
