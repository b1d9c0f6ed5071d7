// Where a rectangle begins.

// A column and a row.
#[derive(Clone, Copy, PartialEq, Eq, Hash, Debug)]
pub struct Corner {
    pub x: u16,
    pub y: u16,
}
