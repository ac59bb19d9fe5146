// The sample town, whole and with links closed, and a second small town.
use crate::asking::show_towns;
use crate::towns::Town;
use std::io;

pub(crate) const SAMPLE: Town = Town {
    name: "sample",
    links: &[
        (1, 2, 350, 2),
        (1, 3, 200, 5),
        (2, 4, 400, 1),
        (3, 2, 100, 3),
        (3, 4, 450, 4),
        (4, 3, 150, 2),
    ],
    turns: &[
        (2, 5, 'R', 120),
        (4, 3, 'L', 30),
        (5, 6, 'X', 0),
        (6, 5, 'U', 200),
    ],
    questions: &[(1, 4), (3, 3), (4, 4), (2, 3), (4, 2), (1, 1), (4, 1)],
    ..Town::EMPTY
};

const LINK_CLOSED: Town = Town {
    name: "sample, link 5 closed",
    closed: &[5],
    questions: &[(1, 4), (3, 3), (3, 4), (4, 4)],
    ..SAMPLE
};

const ALL_CLOSED: Town = Town {
    name: "sample, all closed",
    closed: &[1, 2, 3, 4, 5, 6],
    questions: &[(1, 4), (3, 3), (3, 2)],
    ..SAMPLE
};

// The cheapest way to node 2 begins no cheapest route to node 4.
const SECOND: Town = Town {
    name: "second",
    links: &[
        (1, 2, 4, 3),
        (1, 3, 2, 1),
        (2, 4, 2, 2),
        (3, 2, 1, 4),
        (3, 4, 3, 5),
    ],
    turns: &[(2, 5, 'L', 4), (4, 3, 'R', 2)],
    questions: &[(1, 4), (1, 2), (3, 4)],
    ..Town::EMPTY
};

const NO_LINKS: Town = Town {
    name: "no links",
    questions: &[(1, 2), (512, 512)],
    ..Town::EMPTY
};

// Asks the sample town, the second town and one without links.
pub(crate) fn show_sample(rt: &HostRuntime) -> io::Result<()> {
    show_towns(rt, &[SAMPLE, LINK_CLOSED, ALL_CLOSED, SECOND, NO_LINKS])
}
