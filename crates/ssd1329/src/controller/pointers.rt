// The window and its pointers.
ghost use Rattle.std.specs.Prelude.{◌≡◌, ◌≤◌, ◌==◌};
ghost use Rattle.ssd1329.specs.Meaning.{area};
ghost use Rattle.ssd1329.specs.Area.{whole, following, advanced};

use super::{Pointer, Window};

impl<const LAST: u8> Pointer<LAST> {
    // A pointer at the first of its places.
    pub(super) fn new(first: u8, last: u8) -> Self
        requires { (first ≤ last) × (last ≤ LAST) }
        ensures { (result.first ≡ first) × (result.last ≡ last) × (result.at ≡ first) }
    {
        Pointer {
            first,
            last,
            at: first,
        }
    }

    // On to the next place; the answer tells whether it begins again.
    fn next(&mut self) -> bool
        ensures goes_on { self.new.at ≡ following self.old.first self.old.last self.old.at }
        ensures stays { (self.new.first ≡ self.old.first) × (self.new.last ≡ self.old.last) }
        ensures begins { result ≡ (self.old.at == self.old.last) }
    {
        let begins = self.at == self.last;
        self.at = if begins { self.first } else { self.at + 1 };
        begins
    }
}

impl Window {
    pub(super) fn whole() -> Window
        ensures { area result ≡ whole }
    {
        Window {
            columns: Pointer::new(0, 63),
            lines: Pointer::new(0, 127),
        }
    }

    // On to the place of the next byte, along the line or down the column.
    // The flag stays: it is a bit of the re-map byte, known only when a byte comes.
    pub(super) fn advance(&mut self, down: bool)
        ensures { area self.new ≡ advanced (area self.old) down }
    {
        if down {
            if self.lines.next() {
                self.columns.next();
            }
        } else if self.columns.next() {
            self.lines.next();
        }
    }
}
