// Clocks.
ghost use Rattle.std.specs.Prelude.{◌≡◌};
ghost use Rattle.tags.specs.Clock.{settled, clock_after, clock_value};

use crate::state::{if_present, set_state, state_of};
use board::items::Clock;
use table::kinds::ClockTag;
use words::clamp::clamped;

// The clock with a rate set.
#[tactic(auto, unfolding(crate::specs::Clock::settled))]
fn rated(mut c: Clock, x: u32) -> Clock
    ensures { result ≡ settled x c }
{
    if c.state.exists {
        c.rate = clamped(c.min, c.max, x);
    }
    c
}

// The clock as a tag leaves it, x being the state or the rate it sets.
#[tactic(auto, unfolding(crate::specs::Clock::clock_after))]
pub fn clock_after(mut c: Clock, tag: ClockTag, x: u32) -> Clock
    ensures { result ≡ clock_after tag x c }
{
    match tag {
        ClockTag::SetState => {
            c.state = set_state(c.state, x);
            c
        }
        ClockTag::SetRate => rated(c, x),
        ClockTag::State | ClockTag::Rate | ClockTag::Max | ClockTag::Min => c,
    }
}

// What a tag answers of the clock that it left.
#[tactic(auto, unfolding(crate::specs::Clock::clock_value))]
pub fn clock_value(c: Clock, tag: ClockTag) -> u32
    ensures { result ≡ clock_value tag c }
{
    match tag {
        ClockTag::State | ClockTag::SetState => state_of(c.state),
        ClockTag::Rate | ClockTag::SetRate => if_present(c.state, c.rate),
        ClockTag::Max => if_present(c.state, c.max),
        ClockTag::Min => if_present(c.state, c.min),
    }
}
