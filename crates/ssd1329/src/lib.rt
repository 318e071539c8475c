// An SSD1329 display controller with its memory, the wiring of a glass to it, and what the glass shows.
//
// docs/CONTROLLER.md and docs/GLASS.md have the rules in words, specs/ has them as definitions.
#![tactic(auto)]

mod below;
pub mod commands;
mod controller;
mod laws;
mod remap;
mod shows;
#[cfg(test)]
mod tests;
mod transfer;
mod wiring;

pub use controller::Controller;
pub use laws::{every_wiring_shows_the_memory, worked_examples_hold};
pub use shows::Shows;
pub use transfer::Transfer;
pub use wiring::Wiring;
