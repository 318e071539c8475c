// What a panel's glass shows.
ghost use Rattle.std.specs.Prelude.{◌≡◌};
ghost use Rattle.ssd1329.specs.Meaning.{wires};
ghost use Rattle.ssd1329.specs.Glass.{glass_answer, shown};
ghost use Rattle.link.specs.Panels.{panel_meaning};

use super::Panel;
use refusal::Refusal;
use ssd1329::{Shows, Wiring};

impl Panel {
    // Astray, dark or lit.
    pub fn shows(&self) -> Shows
        ensures { result ≡ shown (panel_meaning self.now).chip }
    {
        match &self.seat {
            Ok(controller) => controller.shows(),
            Err(_) => Shows::Dark,
        }
    }

    // The gray of a dot; a position above 127 is refused.
    pub fn dot(&self, wiring: &Wiring, x: u32, y: u32) -> Result<u8, Refusal>
        ensures { result ≡ glass_answer (wires wiring.now) (panel_meaning self.now).chip x y }
    {
        match &self.seat {
            Ok(controller) => controller.dot(wiring, x, y),
            Err(_) if x > 127 || y > 127 => Err(Refusal::Position),
            Err(_) => Ok(0),
        }
    }
}
