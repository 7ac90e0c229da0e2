// The emulated board, on a record that the caller holds.
ghost use Rattle.std.specs.Prelude.{◌≡◌};
ghost use Rattle.message.specs.Builder.{leaves};
ghost use Rattle.board.specs.Bench.{bench};
ghost use Rattle.responder.specs.Reply.{reply};

use board::bench::bench_record;
use board::record::Board;
use responder::respond::respond;

// Fills in the bench record.
#[unsafe(no_mangle)]
pub extern "C" fn vc_bench(board: &mut Board)
    ensures { board.new ≡ bench }
{
    *board = bench_record();
}

// Serves the message on the record.
#[unsafe(no_mangle)]
pub extern "C" fn vc_serve(board: &mut Board, message: &mut [u8], place: &mut u32) -> u32
    ensures { leaves message.new
        (record { outcome = result; place = place.new; board = board.new })
        ≡ reply board.old message.old }
{
    let before = *board;
    let served = respond(before, message);
    *board = served.board;
    *place = served.place as u32;
    served.outcome
}
