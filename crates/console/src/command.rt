// What a line can ask for.

// A call of the map, with its nodes, links, letter and extra.
#[derive(Clone, Copy, PartialEq, Eq, Debug)]
pub enum Command {
    Ask {
        from: u32,
        to: u32,
    },
    Next,
    Trial {
        link: u32,
    },
    End,
    Close {
        link: u32,
    },
    Open {
        link: u32,
    },
    Turn {
        into: u32,
        out: u32,
        letter: char,
        extra: u32,
    },
}
