// The fields of a line, one by one.
ghost use Rattle.std.specs.Prelude.{◌≡◌, [], MatchResult};
ghost use Rattle.std.specs.Iterator.{YieldsFirstRef, item_count};
ghost use Rattle.script.specs.Parts.{fields};
ghost use Rattle.script.specs.Left.{left, GoesOn};

use super::Fields;
use crate::cuts::cut;
use crate::fault::Fault;

impl<'a> Fields<'a> {
    #[tactic(auto, unfolding(crate::specs::Left::left))]
    pub fn of(line: &'a [u8]) -> Fields<'a>
        ensures { left result ≡ fields line.now }
    {
        Fields { rest: Some(line) }
    }

    // What was said, if no field is left.
    pub fn end<T: Drop>(&mut self, said: T) -> Result<T, Fault>
        ensures { MatchResult result (λ told. (told ≡ said) × (left self.old ≡ []))
            (λ fault. (fault ≡ Fault.Unreadable) × GoesOn (left self.old)) }
    {
        match self.next() {
            None => Ok(said),
            Some(_) => Err(Fault::Unreadable),
        }
    }
}

impl<'a> Iterator for Fields<'a> {
    type Item = &'a [u8];

    ghost next_gives = { YieldsFirstRef left };

    ghost remaining = { item_count left };

    #[tactic(auto, unfolding(crate::specs::Left::left))]
    fn next(&mut self) -> Option<&'a [u8]> {
        let text = self.rest?;
        match cut(text, b'\t') {
            Some((field, after)) => {
                self.rest = Some(after);
                Some(field)
            }
            None => {
                self.rest = None;
                Some(text)
            }
        }
    }
}
