//! What a call of `encode` wrote.
/// What was written: the tag of the form, and how many bytes it takes at the front of the buffer.
#[derive(Clone, Copy, Debug, PartialEq, Eq)]
pub struct Coded {
    /// The tag of the form, 0 to 3, which is its first byte.
    pub tag: u8,
    /// The length of the form in bytes, the tag among them.
    pub len: u64,
}
