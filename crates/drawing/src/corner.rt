// Positions that a caller names.
ghost use Rattle.std.specs.Prelude.{◌≡◌, ◌<◌, ◌≤ℤ◌, ◌-ℤ◌, pos, negsuc, true, false, Some, None, IfOk, IfErr};
ghost use Rattle.refusal.specs.declared.refusals.Refusal.TheVariants.{Position};
ghost use Rattle.drawing.specs.Clips.{in_reach, position_refusal};
ghost use Rattle.drawing.specs.Drawing.{behind};

use refusal::Refusal;

// One part of a position, −1,024 to 1,023; others are refused.
#[derive(Clone, Copy)]
pub(crate) struct Reach {
    pub(crate) at: i32,
    ghost low: { negsuc 1023 ≤ℤ at },
    ghost high: { at ≤ℤ pos 1023 },
}

impl Reach {
    fn new(at: i32) -> Result<Reach, Refusal>
        ensures ok { IfOk result (λ reach. (in_reach at ≡ true) × (reach.at ≡ at)) }
        ensures err { IfErr result (λ refusal. (in_reach at ≡ false) × (refusal ≡ Position)) }
    {
        if (-1024..=1023).contains(&at) {
            Ok(Reach { at })
        } else {
            Err(Refusal::Position)
        }
    }

    // How far a place lies behind this one, if it does.
    pub(crate) fn offset(self, place: usize) -> Option<u32>
        requires { place < 128 }
        ensures { result ≡ behind (pos place -ℤ self.at) }
    {
        u32::try_from(place as i32 - self.at).ok()
    }
}

// Where a picture's first dot goes.
#[derive(Clone, Copy)]
pub(crate) struct Corner {
    pub(crate) x: Reach,
    pub(crate) y: Reach,
}

impl Corner {
    pub(crate) const ORIGIN: Corner = Corner {
        x: Reach { at: 0 },
        y: Reach { at: 0 },
    };

    pub(crate) fn new(x: i32, y: i32) -> Result<Corner, Refusal>
        ensures ok { IfOk result (λ corner. (position_refusal x y ≡ None) × (corner.x.at ≡ x) × (corner.y.at ≡ y)) }
        ensures err { IfErr result (λ refusal. position_refusal x y ≡ Some refusal) }
    {
        Ok(Corner {
            x: Reach::new(x)?,
            y: Reach::new(y)?,
        })
    }
}
