// Pictures: what can be placed on a screen.
//
// A picture is known by its meaning alone, a width, a height and a dot for each place (docs/PICTURES.md).
#![tactic(auto)]

mod bytes;
mod kinds;
mod laws;
mod packed;
mod pictures;
mod sizes;
#[cfg(test)]
mod tests;

pub use bytes::Bytes;
pub use either::Either;
pub use kinds::{BitPicture, Crop, GrayPicture, Inverse};
pub use laws::pictures_have_their_laws;
pub use pictures::Picture;
