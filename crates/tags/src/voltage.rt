// Voltages.
ghost use Rattle.std.specs.Prelude.{◌≡◌};
ghost use Rattle.tags.specs.Voltage.{max_offset, min_offset, voltage_after, voltage_value};

use board::items::Voltage;
use table::kinds::VoltageTag;
use words::clamp::clamped;

// The offset of a maximum from 1,200 mV, 48 steps of 25 mV, rounded down to a step.
#[tactic(auto, unfolding(crate::specs::Voltage::max_offset))]
fn max_offset(mv: u32) -> u32
    ensures { result ≡ max_offset mv }
{
    (mv / 25).wrapping_sub(48)
}

// The offset of a minimum, rounded up to a step.
#[tactic(auto, unfolding(crate::specs::Voltage::min_offset))]
fn min_offset(mv: u32) -> u32
    ensures { result ≡ min_offset mv }
{
    mv.div_ceil(25).wrapping_sub(48)
}

// The voltage as a tag leaves it, x being what a set asks for.
#[tactic(auto, unfolding(crate::specs::Voltage::voltage_after))]
pub fn voltage_after(mut v: Voltage, tag: VoltageTag, x: u32) -> Voltage
    ensures { result ≡ voltage_after tag x v }
{
    match tag {
        VoltageTag::Set if v.valid => {
            v.value = clamped(v.min, v.max, x);
            v
        }
        VoltageTag::Set | VoltageTag::Get | VoltageTag::Max | VoltageTag::Min => v,
    }
}

// What a tag answers of the voltage that it left.
#[tactic(auto, unfolding(crate::specs::Voltage::voltage_value))]
pub fn voltage_value(v: Voltage, tag: VoltageTag) -> u32
    ensures { result ≡ voltage_value tag v }
{
    if !v.valid {
        return 0x8000_0000;
    }
    match tag {
        VoltageTag::Get | VoltageTag::Set => v.value,
        VoltageTag::Max => max_offset(v.max),
        VoltageTag::Min => min_offset(v.min),
    }
}
