// The lines of a text, one by one.
ghost use Rattle.std.specs.Prelude.{◌≡◌, length, None, MatchOption};
ghost use Rattle.std.specs.Iterator.{at_most};
ghost use Rattle.script.specs.Parts.{a_line, lines};
ghost use Rattle.script.specs.Ahead.{ahead, next_line, ended};

use super::Ahead;
use crate::cuts::cut;

// The longest text that is read.
const ROOM: usize = 65535;

impl<'a> Ahead<'a> {
    pub fn of(text: &'a [u8]) -> Ahead<'a>
        ensures { ahead result ≡ lines text.now }
    {
        Ahead {
            rest: &text[..ROOM.min(text.len())],
            whole: text.len() <= ROOM,
        }
    }

    // Whether the text has ended, just after a newline.
    #[tactic(auto, using(crate::proofs::Walking::ended_is), unfolding(crate::specs::Ahead::ahead))]
    pub fn ended(&self) -> bool
        ensures { result ≡ ended (ahead self.now) }
    {
        self.whole && self.rest.is_empty()
    }
}

// The lines, each without its newline; none where no newline comes.
impl<'a> Iterator for Ahead<'a> {
    type Item = &'a [u8];

    ghost next_gives = { λ before line after. MatchOption line (next_line (ahead before) ≡ None) (λ l. ahead before ≡ a_line l.now (ahead after)) };

    ghost remaining = { λ text. at_most (length text.rest.now) };

    #[tactic(auto, using(crate::proofs::Walking::next_lines), unfolding(crate::specs::Ahead::ahead))]
    fn next(&mut self) -> Option<&'a [u8]> {
        let (line, after) = cut(self.rest, b'\n')?;
        self.rest = after;
        Some(line)
    }
}
