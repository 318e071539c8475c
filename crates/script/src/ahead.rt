// A text, read line by line.
ghost use Rattle.std.specs.Prelude.{◌≤◌, length};
ghost use Rattle.script.specs.Parts.{room};

mod lines;

// What is left of a text within the room; `whole` where the text has nothing past the room.
#[derive(Clone, Copy)]
pub struct Ahead<'a> {
    rest: &'a [u8],
    // no `Option`: bytes are left either way
    whole: bool,
    ghost short: { length rest.now ≤ room },
}
