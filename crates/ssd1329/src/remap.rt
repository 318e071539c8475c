// The bits of the re-map byte.
// Numbers, since the byte comes over the wire as it is.
pub(crate) const COLUMNS_REVERSED: u8 = 0x01;

pub(crate) const HALVES_SWAPPED: u8 = 0x02;

pub(crate) const RUNS_DOWN: u8 = 0x04;

pub(crate) const COMMONS_REVERSED: u8 = 0x10;

pub(crate) const COMMONS_SPLIT: u8 = 0x40;

// they have to be zero
pub(crate) const UNUSED: u8 = 0xA8;
