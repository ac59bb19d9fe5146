// A full map: 1,024 links and 2,048 turn entries.
ghost use Rattle.std.specs.Prelude.{◌≤◌};

use crate::answers::{Counts, laying};
use crate::{buffers, images};
use network::Draft;
use std::io;

// The node where a link of the full map ends. Links 1 and 2 start at node 1, links 3 and 4 at node 2, and so on.
fn end_of(link: u32) -> u32
    ensures { (1 ≤ result) × (result ≤ 512) }
{
    link.wrapping_mul(37) % 512 + 1
}

// Two links from each node.
fn lay_links(draft: &mut Draft) {
    for link in 1u32..1025 {
        let start = (link - 1) / 2 + 1;
        let _ = draft.lay_link(start, end_of(link), link * 976, (link % 256) as u8);
    }
}

// The letters that the entries have in turn.
const LETTERS: [char; 5] = ['S', 'L', 'R', 'U', 'X'];

// Entries from each link into the two links that start where it ends.
fn lay_turns(draft: &mut Draft) {
    for turn in 0u32..2048 {
        let into = turn / 2 + 1;
        let out = 2 * end_of(into) - 1 + turn % 2;
        let letter = LETTERS[turn as usize % 5];
        let _ = draft.lay_turn(into, out, letter, turn * 488);
    }
}

// A number that depends on each byte and on its place.
fn digest(bytes: &[u8]) -> u32 {
    bytes.iter().fold(0u32, |number, byte| {
        number.wrapping_mul(31).wrapping_add(u32::from(*byte))
    })
}

// Lays the full map, seals and writes it, reads it back and writes it again.
pub(crate) fn show_full(rt: &HostRuntime) -> io::Result<()> {
    let mut draft = Draft::new();
    lay_links(&mut draft);
    lay_turns(&mut draft);
    let counts = Counts::of(&draft);
    println!(rt; "full map: {counts}")?;
    let link = laying(draft.lay_link(512, 1, 10, 3));
    let turn = laying(draft.lay_turn(1, 75, 'S', 0));
    let after = Counts::of(&draft);
    println!(rt; "full map, one link more: {link}, one turn more: {turn}, {after}")?;
    let image = images::image_of(rt.alloc(), draft)?;
    let size = image.len();
    let number = digest(image.as_slice());
    println!(rt; "full map: {size} bytes, digest {number}")?;
    images::show_reading(rt, "full map", image.as_slice())?;
    let mut read = Draft::new();
    let _ = image::read_image(&mut read, image.as_slice());
    buffers::show_buffer(rt, read, 27_663, image.as_slice())
}
