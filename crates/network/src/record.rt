// A record: one link or one turn entry that is to be laid.

#[derive(Clone, Copy, PartialEq, Eq, Debug)]
pub enum Record {
    Link {
        start: u32,
        end: u32,
        length: u32,
        tightness: u8,
    },
    Turn {
        into: u32,
        out: u32,
        letter: char,
        extra: u32,
    },
}
