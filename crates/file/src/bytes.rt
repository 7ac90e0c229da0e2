// What a file's bytes are served as.
ghost use Rattle.std.specs.Prelude.{◌≡◌};
ghost use Rattle.message.specs.Builder.{leaves};
ghost use Rattle.file.specs.Filed.{filed, rewrites};

use board::bench::bench_record;
use message::opening::Message;
use message::outcome::{self, Refusal};
use responder::respond::respond;

// Serves the bytes of a file in place, and gives the outcome by its number, which is what is printed. More bytes than a
// message may have stay as they are.
#[tactic(auto, unfolding(crate::specs::Filed::filed))]
pub fn serve_bytes(bytes: &mut [u8]) -> u32
    ensures { leaves bytes.new result ≡ filed bytes.old }
{
    if Message::MAX < bytes.len() {
        return Refusal::BadSize.number();
    }
    respond(bench_record(), bytes).outcome
}

// Whether the bytes can have changed under the outcome of this number: all was done, or a fault cut it short.
#[tactic(auto, unfolding(crate::specs::Filed::rewrites))]
pub fn is_rewritten(outcome: u32) -> bool
    ensures { result ≡ rewrites outcome }
{
    matches!(
        outcome,
        outcome::DONE | outcome::NO_END..=outcome::SHORT_REQUEST
    )
}
