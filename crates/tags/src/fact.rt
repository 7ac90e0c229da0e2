// Fixed facts.
ghost use Rattle.std.specs.Prelude.{◌≡◌, length};
ghost use Rattle.message.specs.Helpers.{InMessage};
ghost use Rattle.answers.specs.Writing.{answered};
ghost use Rattle.tags.specs.Fact.{fact_answer};

use answers::writing::{put_bytes, put_long, put_pair, put_word};
use board::facts::Facts;
use message::walk::Tag;
use table::kinds::FactTag;
use words::bytes::prefix;

// Answers a tag with a fact; `line` is the record's command line, of whose 256 bytes `characters` count. No entry
// point: the walk above has found the tag in the message.
#[tactic(auto, unfolding(crate::specs::Fact::fact_answer))]
pub fn put_fact(msg: &mut [u8], tag: Tag, f: Facts, line: &[u8], fact: FactTag)
    requires { InMessage (length msg.old) tag.at tag.size }
    ensures { msg.new ≡ answered tag.at tag.size (fact_answer fact f line.now) msg.old }
{
    match fact {
        FactTag::Firmware => put_word(msg, tag, f.firmware),
        FactTag::Model => put_word(msg, tag, f.model),
        FactTag::Revision => put_word(msg, tag, f.revision),
        FactTag::Mac => {
            // Copied out, so that the other facts are not.
            let mac = f.mac;
            put_bytes(msg, tag, &mac);
        }
        FactTag::Serial => put_long(msg, tag, f.serial),
        FactTag::Arm => put_pair(msg, tag, f.arm.base, f.arm.size),
        FactTag::Vc => put_pair(msg, tag, f.vc.base, f.vc.size),
        FactTag::Line => put_bytes(msg, tag, prefix(prefix(line, 256), f.characters)),
        FactTag::Dma => put_word(msg, tag, f.dma),
    }
}
