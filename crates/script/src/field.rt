// What one field of a line says.
ghost use Rattle.std.specs.Prelude.{◌≡◌, ℕ, List, Option};

// Values that a field can say.
pub trait Field: Sized {
    // the value that a field says, or none
    ghost says: { List ℕ → Option Self };

    fn read(field: &[u8]) -> Option<Self>
        ensures { result ≡ says field.now };
}
