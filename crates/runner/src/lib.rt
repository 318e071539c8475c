// Runs a script on a fresh screen over a listing link, and writes what is asked of it.
//
// docs/SCRIPTS.md has scripts and what is written in words.
#![tactic(auto)]

mod plans;
mod printed;
mod prints;
mod runs;
#[cfg(test)]
mod tests;
mod wanted;

pub use prints::bench;
pub use runs::{Outcome, run};
pub use wanted::{NotWanted, Wanted};
