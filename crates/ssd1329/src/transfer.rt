// One byte over the wire, marked as a command or as data.
#[derive(Clone, Copy, PartialEq, Eq, Debug)]
pub enum Transfer {
    Command(u8),
    Data(u8),
}
