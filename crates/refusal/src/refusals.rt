// Refusals, and what comes with some.
ghost use Rattle.std.specs.Prelude.{◌≡◌};

// The cases that carry no values.
#[derive(Clone, Copy, PartialEq, Eq, Debug)]
pub enum Refusal {
    // an open slot where a closed one is asked for, or a link that is no longer fresh
    InUse,
    // the slot's grant is used up
    GrantSpent,
    // no slot is open
    NoSlot,
    // the link can take no more transfers
    NoRoom,
    // a slot of none, or of more than 9,999 transfers
    SlotSize,
    // a position, or a row, out of range
    Position,
    // a width or a height above 255
    Size,
    // a gray above 15
    Gray,
    // a picture's width, height or number of bytes
    PictureShape,
    // a crop that is empty or not inside its picture
    CropOutside,
    // a wiring's shift above 127
    Shift,
    // a dot that is not in the picture
    OutsidePicture,
    // memory or a buffer of the wrong length
    Memory,
}

// A refusal that hands back, unaltered, what the call was given to keep.
#[derive(Drop)]
pub struct HandedBack<T> {
    pub refusal: Refusal,
    pub value: T,
}

// What was refused, without what came back; so `?` hands a refusal on.
impl<T: Drop> From<HandedBack<T>> for Refusal {
    ghost from_gives = { λ back refusal. refusal ≡ back.refusal };

    fn from(back: HandedBack<T>) -> Refusal {
        back.refusal
    }
}
