// The walk over a message that serves its tags. The record is the loop's own variable, and no call
// takes or gives the whole of it.
ghost use Rattle.std.specs.Prelude.{true, ◌≡◌};
ghost use Rattle.message.specs.Builder.{leaves};
ghost use Rattle.message.specs.Outcomes.{short_request};
ghost use Rattle.message.specs.Sizes.{header};
ghost use Rattle.message.specs.Helpers.{Walking};
ghost use Rattle.board.specs.Memory.{valid_heap};
ghost use Rattle.responder.specs.Serve.{walk_served};

use answers::writing::{put_pair, put_word};
use board::record::Board;
use display::answer::put_group;
use display::decision::Decision;
use display::operation::{Operation, no_tag_yet, note};
use message::opening::Message;
use message::outcome;
use message::walk::{Ending, Step, ended, step_at};
use requests::ask::{Ask, ask_at};
use table::kinds::OutsideTag;
use tags::clock::{clock_after, clock_value};
use tags::fact::put_fact;
use tags::memory::{allocate, handle_after, handle_value};
use tags::outside::{item_place, put_absent};
use tags::power::{power_after, power_value};
use tags::temperature::temperature_value;
use tags::voltage::{voltage_after, voltage_value};
use words::numbers::nth_word;

// How a walk ended, the operation that the group's tags come to, and the record that it left.
#[derive(Clone, Copy)]
pub struct TagsServed {
    pub ending: Ending,
    pub operation: Operation,
    pub board: Board,
}

// How a walk ends at a tag whose value is too short for its request.
fn short_at(p: usize) -> Ending
    ensures { result ≡ record { outcome = short_request; place = p } }
{
    Ending {
        outcome: outcome::SHORT_REQUEST,
        place: p,
    }
}

// Serves the tags of a message of `size` bytes in order, up to its end or its first fault. Tags outside
// the group are served on the record; those of the group are noted, and answered where the decision
// says so. No entry point: the message has been opened, and the heap is valid.
pub fn serve_tags(board: Board, msg: &mut [u8], size: usize, group: Decision) -> TagsServed
    requires { (Walking msg.old size header) × (valid_heap board.heap ≡ true) }
    ensures { leaves msg.new result ≡ walk_served group board msg.old size }
{
    let mut b = board;
    // No tag changes where the heap lies. That it is valid is asked of the record: a heap of a type of its own would
    // have to be tied to this record's by a clause.
    let heap = b.heap;
    let mut operation = no_tag_yet(b.display.settings);
    let mut p = Message::HEADER;
    loop {
        let st = step_at(msg, size, p);
        // No iterator: the rules end a walk by the step that is no tag.
        let Step::Tag(tag, next) = st else {
            return TagsServed {
                ending: ended(st),
                operation,
                board: b,
            };
        };
        let value = tag.at + Message::TAG;
        match ask_at(msg, tag) {
            Ask::Pass => {}
            Ask::Short => {
                return TagsServed {
                    ending: short_at(p),
                    operation,
                    board: b,
                };
            }
            Ask::Group(frame, count) => {
                let request = &msg[value..value + count];
                operation = note(operation, frame, request);
                put_group(msg, tag, group, frame);
            }
            Ask::Outside(outside, count) => {
                let request = &msg[value..value + count];
                let id = nth_word(request, 0);
                let x = nth_word(request, 1);
                let Some(i) = item_place(outside, id) else {
                    // No item has this id: the answer of an absent one, and nothing changes.
                    put_absent(msg, tag, outside, id);
                    p = next;
                    continue;
                };
                match outside {
                    OutsideTag::Fact(fact) => {
                        put_fact(msg, tag, b.facts, &b.line, fact);
                    }
                    OutsideTag::Power(power) => {
                        let d = power_after(b.devices[i], power, x);
                        b.devices[i] = d;
                        put_pair(msg, tag, id, power_value(d, power));
                    }
                    OutsideTag::Clock(clock) => {
                        let c = clock_after(b.clocks[i], clock, x);
                        b.clocks[i] = c;
                        put_pair(msg, tag, id, clock_value(c, clock));
                    }
                    OutsideTag::Voltage(voltage) => {
                        let v = voltage_after(b.voltages[i], voltage, x);
                        b.voltages[i] = v;
                        put_pair(msg, tag, id, voltage_value(v, voltage));
                    }
                    OutsideTag::Temperature(temperature) => {
                        let n = temperature_value(b.temperature, temperature, id);
                        put_pair(msg, tag, id, n);
                    }
                    OutsideTag::Allocate => {
                        let flags = nth_word(request, 2);
                        match allocate(heap, &b.blocks, id, x, flags) {
                            Some(granted) => {
                                b.blocks[granted.handle as usize - 1] = granted.block;
                                put_word(msg, tag, granted.handle);
                            }
                            None => put_word(msg, tag, 0),
                        }
                    }
                    OutsideTag::Handle(kind) => {
                        let block = b.blocks[i];
                        b.blocks[i] = handle_after(block, kind);
                        put_word(msg, tag, handle_value(block, kind));
                    }
                }
            }
        }
        p = next;
    }
}
