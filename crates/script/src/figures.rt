// The pictures of a script.
use picture::{BitPicture, Crop, Either, GrayPicture, Inverse};

pub mod takes;

// Dots read from bytes.
pub type Base = Either<BitPicture<Vec<u8>>, GrayPicture<Vec<u8>>>;

// Such dots, or their inverse.
pub type Shade = Either<Base, Inverse<Base>>;

// One of these, or a part of one.
pub type Figure = Either<Shade, Crop<Shade>>;
