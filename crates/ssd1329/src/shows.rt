// What a look at the module tells at once.
ghost use Rattle.std.specs.Prelude.{Some};

use std::fmt;

#[derive(Clone, Copy, PartialEq, Eq, Debug)]
pub enum Shows {
    // a bad command was met: the controller changes no more, and every dot is 0
    Astray,
    // asleep: every dot is 0
    Dark,
    // the dots show the memory
    Lit,
}

impl fmt::Display for Shows {
    ghost use Rattle.ssd1329.specs.ShowsWords.{shows_word};

    ghost output = { λ shows. Some (shows_word shows) };

    fn fmt<W: fmt::Write>(&self, f: &mut fmt::Formatter<W>) -> fmt::Result {
        f.write_str(match self {
            Shows::Astray => "astray",
            Shows::Dark => "dark",
            Shows::Lit => "lit",
        })
    }
}
