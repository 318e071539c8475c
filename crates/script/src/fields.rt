// A line, read field by field.
mod next;
mod says;

// What is left of a line; none once its last field is taken.
#[derive(Clone, Copy)]
pub struct Fields<'a> {
    // no `Split` of std: the type of its closure would be a parameter of every reader
    rest: Option<&'a [u8]>,
}
