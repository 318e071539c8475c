// Due bytes of a line, side by side: `len` of them, the first at `start`.
#[derive(Clone, Copy, PartialEq, Eq, Debug)]
pub struct Run {
    pub start: u32,
    pub len: u32,
}
