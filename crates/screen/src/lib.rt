// A screen: a canvas over a link of its own, for a module of some wiring.
//
// docs/DRAWING.md and docs/SCREEN.md have the rules in words. The promise of a screen is `every_life_is_faithful`.
#![tactic(auto)]

mod answers;
mod blocks;
mod faults;
mod first;
#[cfg(test)]
mod flush_tests;
mod flushes;
mod lives;
#[cfg(test)]
mod perform_tests;
mod performs;
mod screens;
mod scripts;
mod sends;
mod slots;
mod sweeps;
#[cfg(test)]
mod tests;

pub use answers::{FlushFault, LeftOver, Place};
pub use first::first_flush_is_short;
pub use lives::every_life_is_faithful;
pub use performs::perform;
pub use screens::Screen;
pub use scripts::{Answer, Call};
