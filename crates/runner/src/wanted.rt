// What can be asked of a script.
ghost use Rattle.runner.specs.Wanted.{Asks};

use std::error::Error;
use std::fmt;
use std::str::FromStr;

#[derive(Clone, Copy, PartialEq, Eq, Debug)]
pub enum Wanted {
    // a line for each line of the script
    Answers,
    // what went over the wire
    Listing,
    // the dots of the glass, in the viewer's format
    Glass,
    // the glass as a plain PGM image
    Image,
}

// A word that asks for none of these.
#[derive(Clone, Copy, PartialEq, Eq, Debug)]
pub struct NotWanted;

impl fmt::Display for NotWanted {
    fn fmt<W: fmt::Write>(&self, f: &mut fmt::Formatter<W>) -> fmt::Result {
        write!(f, "ask for answers, listing, glass or picture")
    }
}

impl Error for NotWanted {}

impl FromStr for Wanted {
    type Err = NotWanted;

    ghost from_str_gives = { Asks };

    fn from_str(word: &str) -> Result<Wanted, NotWanted> {
        match word {
            "answers" => Ok(Wanted::Answers),
            "listing" => Ok(Wanted::Listing),
            "glass" => Ok(Wanted::Glass),
            "picture" => Ok(Wanted::Image),
            _ => Err(NotWanted),
        }
    }
}
