// Cases: a record that is laid in a fresh draft of a town.
use crate::answers::laying;
use crate::holding::Holding;
use crate::records::{laid, link, turn};
use network::{Draft, Record};
use std::io;

// What is laid before the record.
#[derive(Clone, Copy)]
pub(crate) enum Town {
    // So many links that start and end at a node: the number of links, and the node.
    Rings(u32, u32),
    // Link 1 from 1 to 2, link 2 from 2 to 3, link 3 from 2 to 1, and the entry from link 1 into link 2.
    Crossing,
    // Links 1 to 64 from 1 to 1, link 65 from 1 to 2, and so many entries among the first 64.
    Turns(u32),
}

// A name, a town and the record. A case does not name its parts: it is a line of a table, and would be five.
#[derive(Clone, Copy)]
pub(crate) struct Case(pub &'static str, pub Town, pub Record);

fn crossing() -> Draft {
    laid(&[
        link!(1, 2, 100, 1),
        link!(2, 3, 100, 1),
        link!(2, 1, 100, 1),
        turn!(1, 2, 'S', 0),
    ])
}

// Links from a node to itself.
fn rings(links: u32, node: u32, length: u32, tightness: u8) -> Draft {
    let mut draft = Draft::new();
    for _ in 0..links {
        let _ = draft.lay_link(node, node, length, tightness);
    }
    draft
}

// Rings with so many entries: from link 1 into each of the 64, then from link 2, and so on.
fn turned_rings(entries: u32) -> Draft {
    let mut draft = rings(64, 1, 100, 1);
    let _ = draft.lay_link(1, 2, 100, 1);
    for entry in 0..entries {
        let _ = draft.lay_turn(entry / 64 + 1, entry % 64 + 1, 'L', 10);
    }
    draft
}

// A fresh draft of the town.
fn draft_of(town: Town) -> Draft {
    match town {
        Town::Rings(links, node) => rings(links, node, 0, 0),
        Town::Crossing => crossing(),
        Town::Turns(entries) => turned_rings(entries),
    }
}

// Lays the record of each case, and prints the answer and what the draft holds before and after.
pub(crate) fn show_cases(rt: &HostRuntime, kind: &str, cases: &[Case]) -> io::Result<()> {
    for &Case(name, town, record) in cases {
        let mut draft = draft_of(town);
        let before = Holding::of(rt.alloc(), &draft)?;
        let answer = laying(draft.lay(record));
        let after = Holding::of(rt.alloc(), &draft)?;
        let change = after.change(&before);
        println!(rt; "{kind}, {name}: {answer}, {before} then {after}, {change}")?;
    }
    Ok(())
}
