// A display that is valid.
ghost use Rattle.std.specs.Prelude.{true, ◌≡◌};
ghost use Rattle.board.specs.Display.{valid_display};

use board::display::Display;
use board::settings::PossibleSettings;

#[derive(Clone, Copy)]
pub struct ValidDisplay {
    pub display: Display,
    pub ghost valid: { valid_display display ≡ true },
}

impl ValidDisplay {
    // The settings that stand.
    #[tactic(auto, using(crate::proofs::Laws::Decision::valid_possible))]
    pub fn settings(self) -> PossibleSettings
        ensures { result.settings ≡ self.display.settings }
    {
        PossibleSettings {
            settings: self.display.settings,
        }
    }
}
