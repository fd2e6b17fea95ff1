/// A message with its target and its source. Letters compare by target, then by source and by number.
#[derive(Clone, Copy, PartialEq, Eq, PartialOrd, Ord)]
pub struct Letter {
    /// The id of its target, which may be no vertex.
    pub to: i64,
    /// The id of its source, the vertex that sent it.
    pub from: u64,
    /// Its number among the letters of its source, in the order of sending.
    pub seq: u64,
    /// The message.
    pub value: i64,
}
