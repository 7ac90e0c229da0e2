// What the tags of the group answer.
//
// No entry points: the walk above has found the tag in the message.
ghost use Rattle.std.specs.Prelude.{◌≡◌, length};
ghost use Rattle.message.specs.Helpers.{InMessage};
ghost use Rattle.answers.specs.Writing.{answered};
ghost use Rattle.display.specs.Decision.{setting_answer};
ghost use Rattle.display.specs.GroupPut.{FramePut, GroupPut};

use crate::decision::Decision;
use answers::writing::{put_nothing, put_pair, put_word};
use board::display::Settings;
use message::walk::Tag;
use table::kinds::{FrameTag, Setting};

fn put_setting(msg: &mut [u8], tag: Tag, s: Settings, setting: Setting)
    requires { InMessage (length msg.old) tag.at tag.size }
    ensures { msg.new ≡ answered tag.at tag.size (setting_answer setting s) msg.old }
{
    match setting {
        Setting::Physical => put_pair(msg, tag, s.physical.width, s.physical.height),
        Setting::Virtual => put_pair(msg, tag, s.logical.width, s.logical.height),
        Setting::Depth => put_word(msg, tag, s.depth),
        Setting::Order => put_word(msg, tag, s.order),
        Setting::Alpha => put_word(msg, tag, s.alpha),
        Setting::Offset => put_pair(msg, tag, s.offset.x, s.offset.y),
    }
}

// Answers a tag of the group. Get, test and set of a setting answer alike.
#[tactic(auto, unfolding(crate::specs::Decision::group_answer))]
fn put_frame(msg: &mut [u8], tag: Tag, d: Decision, frame: FrameTag)
    requires { InMessage (length msg.old) tag.at tag.size }
    ensures { FramePut d frame tag.at tag.size msg.old msg.new }
{
    match frame {
        FrameTag::Get(setting) | FrameTag::Test(setting) | FrameTag::Set(setting) => {
            put_setting(msg, tag, d.shown, setting);
        }
        FrameTag::Pitch => put_word(msg, tag, d.pitch),
        FrameTag::Allocate => put_pair(msg, tag, d.placed.base, d.placed.size),
        FrameTag::Release => put_nothing(msg, tag),
    }
}

// Answers a tag of the group where the decision says so. No entry point: the walk above has found the tag in
// the message.
pub fn put_group(msg: &mut [u8], tag: Tag, d: Decision, frame: FrameTag)
    requires { InMessage (length msg.old) tag.at tag.size }
    ensures { GroupPut d frame tag.at tag.size msg.old msg.new }
{
    if d.answered {
        put_frame(msg, tag, d, frame);
    }
}
