// Images whose counts reach the limits or pass them, with a length that fits.
use crate::images;
use std::alloc::{AllocError, Global};
use std::io;

// How many links and turn entries the images tell.
const COUNTS: [(u16, u16); 11] = [
    (64, 2048),
    (64, 2049),
    (1024, 0),
    (1024, 2048),
    (1024, 2049),
    (1025, 0),
    (1025, 1),
    (65_535, 0),
    (64, 65_535),
    (65_535, 65_535),
    (0, 1),
];

// The two entries of the table of contents.
fn contents(links: u16, turns: u16) -> [u8; 16] {
    let [l1, l0] = links.to_be_bytes();
    let [t1, t0] = turns.to_be_bytes();
    let place = 16 + 9 * u32::from(links);
    let [p3, p2, p1, p0] = place.to_be_bytes();
    [
        0x4C, 0, l1, l0, 0, 0, 0, 16, 0x54, 0, t1, t0, p3, p2, p1, p0,
    ]
}

// Records of so many links from node 1 to node 1.
fn add_links(bytes: &mut Vec<u8>, links: u16) -> Result<(), AllocError> {
    for _ in 0..links {
        bytes.extend_from_slice(&[0, 1, 0, 1, 0, 0, 0, 100, 1])?;
    }
    Ok(())
}

// Records of so many entries: from link 1 into each of links 1 to 64, then from link 2, and so on.
fn add_turns(bytes: &mut Vec<u8>, turns: u16) -> Result<(), AllocError> {
    for turn in 0..turns {
        let [i1, i0] = (turn / 64 + 1).to_be_bytes();
        let [o1, o0] = (turn % 64 + 1).to_be_bytes();
        bytes.extend_from_slice(&[i1, i0, o1, o0, b'U', 0, 0, 0, 9])?;
    }
    Ok(())
}

// The image of links and entries that are told and recorded.
fn image(heap: Global, links: u16, turns: u16) -> Result<Vec<u8>, AllocError> {
    let mut bytes = Vec::from_slice(heap, &contents(links, turns))?;
    add_links(&mut bytes, links)?;
    add_turns(&mut bytes, turns)?;
    Ok(bytes)
}

// Reads the image of each of the counts.
pub(crate) fn show_limits(rt: &HostRuntime) -> io::Result<()> {
    for (links, turns) in COUNTS {
        let bytes = image(rt.alloc(), links, turns)?;
        let size = bytes.len();
        let name = format!(in rt.alloc(); "{links} links and {turns} turns in {size} bytes")?;
        images::show_reading(rt, name.as_str(), bytes.as_slice())?;
    }
    Ok(())
}
