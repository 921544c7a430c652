/// Where a part of a message stands: counted from the message's first octet, the header included.
#[derive(Clone, Copy, PartialEq, Eq)]
pub struct Span {
    pub offset: usize,
    pub len: usize,
}
