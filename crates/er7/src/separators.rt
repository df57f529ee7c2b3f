// The delimiters of a message.

// The five bytes that a message's header names.
#[derive(Clone, Copy)]
pub struct Separators {
    pub field: u8,
    pub component: u8,
    pub repetition: u8,
    pub escape: u8,
    pub subcomponent: u8,
}
