// The beginning of a controller, the end of a slot, and its memory back.
ghost use Rattle.std.specs.Prelude.{◌≡◌, is_ok, vec_len, IfOk, MatchResult, ◌==◌};
ghost use Rattle.refusal.specs.declared.refusals.Refusal.TheVariants.{Memory};
ghost use Rattle.ssd1329.specs.Meaning.{chip, settings};
ghost use Rattle.ssd1329.specs.Settings.{at_reset};
ghost use Rattle.ssd1329.specs.Chip.{blank, reset, dropped};

use super::{Awaited, Controller, Registers, Window};
use refusal::{HandedBack, Refusal};
use std::alloc::{AllocError, Global};

impl Registers {
    fn at_reset() -> Registers
        ensures { settings result ≡ at_reset }
    {
        Registers {
            remap: 0,
            start: 0,
            offset: 0,
            mux: 127,
        }
    }
}

impl Controller {
    #[tactic(auto, unfolding(crate::specs::Chip::reset))]
    fn at_reset(memory: Vec<u8>) -> Controller
        requires { vec_len memory ≡ 8192 }
        ensures { chip result ≡ reset memory.items }
    {
        Controller {
            memory,
            window: Window::whole(),
            registers: Registers::at_reset(),
            awake: false,
            astray: false,
            awaited: Awaited::Opcode,
            held: None,
        }
    }

    // A controller at reset over a memory of 8,192 bytes, whatever they are; other memory is handed back.
    pub fn new(memory: Vec<u8>) -> Result<Controller, HandedBack<Vec<u8>>>
        ensures judged { is_ok result ≡ (vec_len memory == 8192) }
        ensures made { MatchResult result (λ c. chip c ≡ reset memory.items) (λ e. (e.refusal ≡ Memory) × (e.value ≡ memory)) }
    {
        if memory.len() != 8192 {
            return Err(HandedBack {
                refusal: Refusal::Memory,
                value: memory,
            });
        }
        Ok(Controller::at_reset(memory))
    }

    // A controller at reset over a memory of zeros.
    pub fn blank(heap: Global) -> Result<Controller, AllocError>
        ensures { IfOk result (λ c. chip c ≡ blank) }
    {
        Ok(Controller::at_reset(vec![in heap; 0u8; 8192]?))
    }

    // Reset leaves the memory as it is.
    // Field by field, since the memory cannot be moved out of a lent controller.
    #[tactic(auto, unfolding(crate::specs::Chip::reset, crate::specs::Chip::dropped))]
    pub fn reset(&mut self)
        ensures fresh { chip self.new ≡ reset (chip self.old).memory }
    {
        self.window = Window::whole();
        self.registers = Registers::at_reset();
        self.awake = false;
        self.astray = false;
        self.awaited = Awaited::Opcode;
        self.end_slot();
    }

    // The end of a slot drops a held byte, and moves no pointer.
    #[tactic(auto, unfolding(crate::specs::Chip::dropped))]
    pub fn end_slot(&mut self)
        ensures ended { chip self.new ≡ dropped (chip self.old) }
    {
        self.held = None;
    }

    pub fn into_memory(self) -> Vec<u8>
        ensures given_back { result.items ≡ (chip self).memory }
    {
        self.memory
    }
}
