// The state of a device or a clock: the same get and set for both.
ghost use Rattle.std.specs.Prelude.{◌≡◌};
ghost use Rattle.tags.specs.State.{state_of, present, switched};

use board::items::State;

#[tactic(auto, unfolding(crate::specs::State::state_of))]
pub fn state_of(s: State) -> u32
    ensures { result ≡ state_of s }
{
    if s.exists { u32::from(s.on) } else { 2 }
}

// A number of an item, 0 where it is absent.
#[tactic(auto, unfolding(crate::specs::State::present))]
pub fn if_present(s: State, n: u32) -> u32
    ensures { result ≡ present s n }
{
    if s.exists { n } else { 0 }
}

#[tactic(auto, unfolding(crate::specs::State::switched))]
pub fn set_state(mut s: State, x: u32) -> State
    ensures { result ≡ switched x s }
{
    if s.exists {
        s.on = x % 2 == 1;
    }
    s
}
