// Serving a message.
ghost use Rattle.std.specs.Prelude.{true, ◌≡◌, eqb};
ghost use Rattle.message.specs.Builder.{leaves};
ghost use Rattle.message.specs.Outcomes.{done, number_of};
ghost use Rattle.message.specs.Sizes.{header};
ghost use Rattle.message.specs.Helpers.{Walking};
ghost use Rattle.board.specs.Memory.{valid_heap};
ghost use Rattle.board.specs.Record.{valid};
ghost use Rattle.responder.specs.Answers.{group_by};
ghost use Rattle.responder.specs.Reply.{code_of, served, reply};
ghost use Rattle.responder.specs.Serve.{group_served};

use crate::walk::serve_tags;
use board::record::Board;
use board::valid::is_valid;
use display::decision::{Decision, decide, leave};
use display::operation::Operation;
use display::valid::ValidDisplay;
use message::opening::{Message, open};
use message::outcome::{self, Refusal};
use words::numbers::{put_u32, u32_at};

// How a message was served, and the record afterwards.
// `outcome` is a number: the rules and C name every outcome by its number.
#[derive(Clone, Copy)]
pub struct Served {
    pub outcome: u32,
    pub place: usize,
    pub board: Board,
}

// The refusal by its number, as every answer has it.
fn refused(refusal: Refusal, board: Board) -> Served
    ensures { result ≡ record { outcome = number_of refusal; place = 0; board = board } }
{
    Served {
        outcome: refusal.number(),
        place: 0,
        board,
    }
}

// The decision on the group's operation; after a fault, which the outcome's number tells, the group is left alone.
fn group_of(d: ValidDisplay, outcome: u32, o: Operation) -> Decision
    ensures { result ≡ group_by (eqb outcome done) d.display o }
{
    if outcome == outcome::DONE {
        decide(d, o)
    } else {
        leave(d)
    }
}

// Answers the group's tags in a second walk, where the decision says so. The others carry bit 31 by
// then and are passed over. That the heap is valid is asked of the record, as by the walk.
fn answer_group(board: Board, msg: &mut [u8], size: usize, group: Decision)
    requires { (Walking msg.old size header) × (valid_heap board.heap ≡ true) }
    ensures { msg.new ≡ group_served group board msg.old size }
{
    if group.answered {
        serve_tags(board, msg, size, group);
    }
}

// The code word of a reply, by the outcome's number.
fn code_of(outcome: u32) -> u32
    ensures { result ≡ code_of outcome }
{
    if outcome == outcome::DONE {
        0x8000_0000
    } else {
        0x8000_0001
    }
}

// Serves an opened request of `size` bytes on a valid record.
fn serve_opened(board: Board, msg: &mut [u8], size: usize) -> Served
    requires { (Walking msg.old size header) × (valid board ≡ true) }
    ensures { leaves msg.new result ≡ served board msg.old size }
{
    let display = ValidDisplay {
        display: board.display,
    };
    // The first walk leaves the group alone and notes what it asks.
    let first = serve_tags(board, msg, size, leave(display));
    let ending = first.ending;
    let group = group_of(display, ending.outcome, first.operation);
    answer_group(first.board, msg, size, group);
    put_u32(msg, Message::CODE, code_of(ending.outcome));
    Served {
        outcome: ending.outcome,
        place: ending.place,
        board: Board {
            display: group.display,
            ..first.board
        },
    }
}

// Serves the message that the lent bytes hold, and rewrites it in place. Any bytes and any record
// get an outcome; a refusal leaves both as they were.
#[tactic(auto, unfolding(crate::specs::Reply::reply))]
pub fn respond(board: Board, msg: &mut [u8]) -> Served
    ensures { leaves msg.new result ≡ reply board msg.old }
{
    if !is_valid(board) {
        return refused(Refusal::InvalidBoard, board);
    }
    match open(msg) {
        Ok(message) => {
            if u32_at(msg, Message::CODE) == 0 {
                serve_opened(board, msg, message.size)
            } else {
                refused(Refusal::NotRequest, board)
            }
        }
        Err(refusal) => refused(refusal, board),
    }
}
