// Bytes that a picture reads: lent, as a constant in flash, or owned.
ghost use Rattle.std.specs.Prelude.{◌≡◌, ℕ, List};

// What a picture's bytes are kept in.
pub trait Bytes {
    ghost list: { Self → List ℕ };

    fn all(&self) -> &[u8]
        ensures { result.now ≡ list self.now };
}

impl Bytes for Vec<u8> {
    ghost list = { λ owned. owned.items };

    fn all(&self) -> &[u8] {
        self.as_slice()
    }
}

impl Bytes for &[u8] {
    ghost list = { λ lent. lent.now };

    fn all(&self) -> &[u8] {
        *self
    }
}
