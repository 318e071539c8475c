// The beginning and the end of a panel.
ghost use Rattle.std.specs.Prelude.{◌≡◌, length, if◌then◌else◌, Ok, Err, nat_eq};
ghost use Rattle.refusal.specs.declared.refusals.Refusal.TheVariants.{Memory};
ghost use Rattle.link.specs.Panels.{panel_meaning, seat_memory, NewPanel};

use super::Panel;
use refusal::Refusal;
use ssd1329::Controller;

impl Panel {
    // Whether the memory can be a panel's: it has 8,192 bytes.
    pub fn check(memory: &[u8]) -> Result<(), Refusal>
        ensures { result ≡ (if nat_eq (length memory.now) 8192 then Ok tt else Err Memory) }
    {
        (memory.len() == 8192).then_some(()).ok_or(Refusal::Memory)
    }

    // A fresh panel that can take so many transfers, or none over memory that fails the check.
    pub fn new(memory: Vec<u8>, transfers: u32) -> Panel
        ensures means { NewPanel memory.items transfers (panel_meaning result) }
        ensures keeps { seat_memory result.seat ≡ memory.items }
    {
        let seat = Controller::new(memory).map_err(|back| back.value);
        let room = if seat.is_ok() { transfers } else { 0 };
        Panel {
            seat,
            slot: None,
            room,
            taken: 0,
        }
    }

    // The memory, as it is.
    pub fn into_memory(self) -> Vec<u8>
        ensures { result.items ≡ seat_memory self.seat }
    {
        let seat = self.seat;
        match seat {
            Ok(controller) => controller.into_memory(),
            Err(memory) => memory,
        }
    }
}
