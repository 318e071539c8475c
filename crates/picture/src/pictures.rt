// What every picture answers. Places and sizes are plain numbers in public calls, as callers have them.
ghost use Rattle.std.specs.Prelude.{◌≡◌};
ghost use Rattle.picture.specs.Pictures.{PictureMeaning, Lawful, dot_answer};

use refusal::Refusal;

// A picture, known by its meaning. Its calls change nothing.
pub trait Picture {
    ghost means: { Self → PictureMeaning };

    ghost lawful: { (x : Self) → Lawful (means x) };

    fn width(&self) -> u32
        ensures { result ≡ (means self.now).width };

    fn height(&self) -> u32
        ensures { result ≡ (means self.now).height };

    // The gray at (x, y), or none where the dot is clear.
    fn dot(&self, x: u32, y: u32) -> Result<Option<u8>, Refusal>
        ensures { result ≡ dot_answer (means self.now) x y };
}
