// Inverses of pictures.
ghost use Rattle.std.specs.Prelude.{◌≡◌, ◌≤◌};
ghost use Rattle.picture.specs.Lawfulness.{inverse_lawful};
ghost use Rattle.picture.specs.Kinds.{inverse_means};

use crate::kinds::Inverse;
use crate::pictures::Picture;
use refusal::Refusal;

impl<P> Inverse<P> {
    pub fn new(inner: P) -> Inverse<P>
        ensures { result.inner ≡ inner }
    {
        Inverse { inner }
    }

    // The picture that this is the inverse of.
    pub fn into_inner(self) -> P
        ensures { result ≡ self.inner }
    {
        self.inner
    }
}

impl<P: Picture> Picture for Inverse<P> {
    ghost means = { λ i. inverse_means P.Picture i };

    ghost lawful = { λ i. inverse_lawful P.Picture i };

    fn width(&self) -> u32 {
        self.inner.width()
    }

    fn height(&self) -> u32 {
        self.inner.height()
    }

    #[tactic(auto, using(crate::proofs::Shades::answered_gray))]
    fn dot(&self, x: u32, y: u32) -> Result<Option<u8>, Refusal> {
        let dot = self.inner.dot(x, y)?;
        Ok(dot.map(
            |gray: u8| -> u8
                requires { gray ≤ 15 }
            { 15 - gray },
        ))
    }
}
