// What several numbers in a row say.
#[derive(Clone, Copy)]
pub struct Corner {
    pub x: i32,
    pub y: i32,
}

#[derive(Clone, Copy)]
pub struct Extent {
    pub width: u32,
    pub height: u32,
}

#[derive(Clone, Copy)]
pub struct Part {
    pub left: u32,
    pub top: u32,
    pub size: Extent,
}
