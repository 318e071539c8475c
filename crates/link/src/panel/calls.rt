// The panel as a link.
// A method that promises more than the trait's says the trait's clauses again, since its own stand in their place.
ghost use Rattle.std.specs.Prelude.{◌≡◌};
ghost use Rattle.link.specs.Links.{open_answer, open_after, send_answer, send_after, close_answer, CloseAfter};
ghost use Rattle.link.specs.Panels.{panel_meaning};
ghost use Rattle.link.specs.Refusing.{Untouched};
ghost use Rattle.link.specs.PanelLaws.{panel_lawful};

use super::Panel;
use crate::links::{Link, granted, spent};
use refusal::Refusal;
use ssd1329::Transfer;

impl Link for Panel {
    ghost means = { panel_meaning };

    ghost lawful = { panel_lawful };

    fn open(&mut self, n: u32) -> Result<u32, Refusal>
        ensures answer { result ≡ open_answer (panel_meaning self.old) n }
        ensures after { panel_meaning self.new ≡ open_after (panel_meaning self.old) result }
        ensures untouched { Untouched result self.old self.new }
    {
        let grant = granted(self.slot, self.room, n)?;
        self.slot = Some(grant);
        Ok(grant)
    }

    fn send(&mut self, t: Transfer) -> Result<(), Refusal>
        ensures answer { result ≡ send_answer (panel_meaning self.old).slot }
        ensures after { panel_meaning self.new ≡ send_after (panel_meaning self.old) t result }
        ensures untouched { Untouched result self.old self.new }
    {
        self.slot = Some(spent(self.slot)?);
        self.room -= 1;
        self.taken += 1;
        if let Ok(controller) = &mut self.seat {
            controller.step(t);
        }
        Ok(())
    }

    fn close(&mut self) -> Result<(), Refusal>
        ensures answer { result ≡ close_answer (panel_meaning self.old).slot }
        ensures after { CloseAfter (panel_meaning self.old) result (panel_meaning self.new) }
        ensures room_stays { self.new.room ≡ self.old.room }
        ensures untouched { Untouched result self.old self.new }
    {
        self.slot.take().ok_or(Refusal::NoSlot)?;
        if let Ok(controller) = &mut self.seat {
            controller.end_slot();
        }
        Ok(())
    }

    fn left(&self) -> Option<u32> {
        self.slot
    }

    fn room(&self) -> u32 {
        self.room
    }

    fn taken(&self) -> u32 {
        self.taken
    }
}
