// The towns that the calls are made on, laid in drafts. `figures` lays the like of them: a crate for the two would be longer
// than both.
use network::Draft;

// Start, end, length and tightness. A link does not name its numbers: it is a line of the table, and would be six.
const LINKS: [(u32, u32, u32, u8); 6] = [
    (1, 2, 350, 2),
    (1, 3, 200, 5),
    (2, 4, 400, 1),
    (3, 2, 100, 3),
    (3, 4, 450, 4),
    (4, 3, 150, 2),
];

// Link in, link out, letter and extra.
const TURNS: [(u32, u32, char, u32); 4] = [
    (2, 5, 'R', 120),
    (4, 3, 'L', 30),
    (5, 6, 'X', 0),
    (6, 5, 'U', 200),
];

fn sample_links() -> Draft {
    let mut draft = Draft::new();
    for (start, end, length, tightness) in LINKS {
        let _ = draft.lay_link(start, end, length, tightness);
    }
    draft
}

// The sample map: six links and four turn entries.
pub(crate) fn sample() -> Draft {
    let mut draft = sample_links();
    for (into, out, letter, extra) in TURNS {
        let _ = draft.lay_turn(into, out, letter, extra);
    }
    draft
}

// So many links from node 1 to node 1, and then one from node 1 to node 2.
pub(crate) fn rings(links: u32) -> Draft {
    let mut draft = Draft::new();
    for _ in 0..links {
        let _ = draft.lay_link(1, 1, 100, 1);
    }
    let _ = draft.lay_link(1, 2, 100, 1);
    draft
}

// Sixty-four rings with so many entries: from link 1 into each ring, then from link 2, and so on.
pub(crate) fn turned_rings(entries: u32) -> Draft {
    let mut draft = rings(64);
    for entry in 0..entries {
        let _ = draft.lay_turn(entry / 64 + 1, entry % 64 + 1, 'L', 10);
    }
    draft
}
