// Scripts: calls of a screen that are written down, a call to a line.
//
// docs/SCRIPTS.md has the format in words, specs/ as definitions.
#![tactic(auto)]

mod ahead;
mod cuts;
mod fault;
mod field;
mod fields;
mod figures;
mod heads;
mod hex;
mod lines;
mod numbers;
mod reads;
mod script;
mod shapes;
mod words;

pub use figures::{Base, Figure, Shade};
pub use reads::read;
pub use script::{Card, Line, Script, Unread};
