// A text that is not a listing.
#[derive(Clone, Copy, PartialEq, Eq, Debug)]
pub struct BadListing {
    // where the first byte of the first bad line stands; 65,535 for a text that is too long
    pub place: usize,
}
