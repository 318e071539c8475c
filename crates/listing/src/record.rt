// What one line lists.
use ssd1329::Transfer;

#[derive(Clone, Copy, PartialEq, Debug)]
pub enum Record {
    // a slot is opened, with so many transfers granted
    Open(u16),
    Sent(Transfer),
    // the slot is closed
    Close,
}
