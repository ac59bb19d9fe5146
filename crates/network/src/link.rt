// A link: a street that is driven from its start node to its end node.

#[derive(Clone, Copy, PartialEq, Eq, Debug, Default)]
pub struct Link {
    pub start: u16,
    pub end: u16,
    pub length: u32,
    pub tightness: u8,
}
