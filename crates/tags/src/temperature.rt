// The temperature.
ghost use Rattle.std.specs.Prelude.{◌≡◌};
ghost use Rattle.tags.specs.Temperature.{temperature_value};

use board::items::Temperature;
use table::kinds::TemperatureTag;

// What a tag answers, of an id.
#[tactic(auto, unfolding(crate::specs::Temperature::temperature_value))]
pub fn temperature_value(t: Temperature, tag: TemperatureTag, id: u32) -> u32
    ensures { result ≡ temperature_value tag id t }
{
    if id != 0 {
        return 0;
    }
    match tag {
        TemperatureTag::Current => t.current,
        TemperatureTag::Max => t.max,
    }
}
