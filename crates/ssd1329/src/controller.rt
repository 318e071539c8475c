// The state of the controller. Every value of these types is in range.
ghost use Rattle.std.specs.Prelude.{◌≡◌, ◌≤◌, vec_len, bit_and};

mod glass;
mod life;
mod pointers;
mod row_text;
mod rules;

// What the next command byte is taken for.
#[derive(Clone, Copy)]
pub(crate) enum Awaited {
    Opcode,
    FirstColumn,
    LastColumn(u8),
    FirstLine,
    LastLine(u8),
    Remap,
    StartLine,
    Offset,
    Mux,
}

// A place that goes from a first one to a last one and begins again; none is beyond LAST.
#[derive(Drop)]
pub(crate) struct Pointer<const LAST: u8> {
    first: u8,
    last: u8,
    at: u8,
    ghost within: { (first ≤ at) × (at ≤ last) × (last ≤ LAST) },
}

// The part of the memory that data bytes fill, and the place of the next byte.
#[derive(Drop)]
pub(crate) struct Window {
    columns: Pointer<63>,
    lines: Pointer<127>,
}

// The registers that say how memory comes to the glass.
#[derive(Drop)]
pub(crate) struct Registers {
    remap: u8,
    start: u8,
    offset: u8,
    mux: u8,
    ghost remapped: { bit_and remap 0xA8 ≡ 0 },
    ghost ranges: { (start ≤ 127) × (offset ≤ 127) × (15 ≤ mux) × (mux ≤ 127) },
}

#[derive(Drop)]
pub struct Controller {
    memory: Vec<u8>,
    window: Window,
    registers: Registers,
    awake: bool,
    astray: bool,
    awaited: Awaited,
    held: Option<u8>,
    ghost size: { vec_len memory ≡ 8192 },
}
