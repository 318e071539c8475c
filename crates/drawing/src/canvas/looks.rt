// Looking at a canvas.
ghost use Rattle.std.specs.Prelude.{◌≡◌, ◌&&◌, if◌then◌else◌, Ok, Err, nat_lt};
ghost use Rattle.refusal.specs.declared.refusals.Refusal.TheVariants.{Position};
ghost use Rattle.drawing.specs.Dots.{gray, due};

use super::Canvas;
use refusal::Refusal;

impl Canvas {
    // The gray of a dot; a position above 127 is refused.
    #[tactic(auto, unfolding(crate::specs::Dots::gray))]
    pub fn gray(&self, x: u32, y: u32) -> Result<u8, Refusal>
        ensures { result ≡ (if nat_lt x 128 && nat_lt y 128 then Ok (gray self.now x y) else Err Position) }
    {
        if x >= 128 || y >= 128 {
            return Err(Refusal::Position);
        }
        let byte = self.cells[(y * 64 + x / 2) as usize];
        Ok(if x % 2 == 0 { byte % 16 } else { byte / 16 })
    }

    // Whether a byte is due; a line above 127 or a column above 63 is refused.
    #[tactic(auto, unfolding(crate::specs::Dots::due, marks::specs::Marks::bit))]
    pub fn is_due(&self, line: u32, column: u32) -> Result<bool, Refusal>
        ensures { result ≡ (if nat_lt line 128 && nat_lt column 64 then Ok (due self.now line column) else Err Position) }
    {
        if line >= 128 || column >= 64 {
            return Err(Refusal::Position);
        }
        Ok((self.due[line as usize] >> column) % 2 == 1)
    }
}
