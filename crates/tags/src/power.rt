// Power devices.
ghost use Rattle.std.specs.Prelude.{◌≡◌};
ghost use Rattle.tags.specs.Power.{power_after, power_value};

use crate::state::{if_present, set_state, state_of};
use board::items::Device;
use table::kinds::PowerTag;

// The device as a tag leaves it, x being the state it sets.
#[tactic(auto, unfolding(crate::specs::Power::power_after))]
pub fn power_after(mut d: Device, tag: PowerTag, x: u32) -> Device
    ensures { result ≡ power_after tag x d }
{
    match tag {
        PowerTag::SetState => {
            d.state = set_state(d.state, x);
            d
        }
        PowerTag::State | PowerTag::Timing => d,
    }
}

// What a tag answers of the device that it left.
#[tactic(auto, unfolding(crate::specs::Power::power_value))]
pub fn power_value(d: Device, tag: PowerTag) -> u32
    ensures { result ≡ power_value tag d }
{
    match tag {
        PowerTag::State | PowerTag::SetState => state_of(d.state),
        PowerTag::Timing => if_present(d.state, d.timing),
    }
}
