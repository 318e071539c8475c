// Listings: the text of what went over a wire, a record to a line.
//
// docs/LISTING.md has the format in words, specs/Listing.antt as a definition.
#![tactic(auto)]

mod laws;
mod lines;
mod reader;
mod reads;
mod record;
#[cfg(test)]
mod tests;
mod view_text;
mod writer;

pub use laws::listings_are_plain;
pub use lines::octet;
pub use reader::Reader;
pub use reads::{check, replay};
pub use record::Record;
pub use view_text::{view, view_on};
pub use writer::write_record;
