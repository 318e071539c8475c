// Some places in a row.
ghost use Rattle.std.specs.Prelude.{◌≤◌};

// Of the 128 places of a side, those from `from` to before `to`.
#[derive(Clone, Copy)]
pub(crate) struct Span {
    pub(crate) from: u8,
    pub(crate) to: u8,
    ghost forward: { from ≤ to },
    ghost within: { to ≤ 128 },
}

impl Span {
    pub(crate) const NONE: Span = Span { from: 0, to: 0 };

    pub(crate) const ALL: Span = Span { from: 0, to: 128 };
}
