// The parts of a message.

// Where a leaf stands in its segment; each number counts from 1.
#[derive(Clone, Copy)]
pub struct Place {
    pub field: usize,
    pub repetition: usize,
    pub component: usize,
    pub subcomponent: usize,
}

// A segment's name, and its number among the segments of that name.
#[derive(Clone, Copy)]
pub struct Label {
    pub a: u8,
    pub b: u8,
    pub c: u8,
    pub occurrence: usize,
}
