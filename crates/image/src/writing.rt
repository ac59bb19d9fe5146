// Writing the image of a network.
ghost use Rattle.std.specs.Prelude.{◌≡◌, ℕ, ◌+◌, ◌*◌, ◌≤◌, List, length};
ghost use Rattle.std.specs.List.{flat_map};
ghost use Rattle.text.specs.Put.{Put};
ghost use Rattle.network.specs.Laid.{plan};
ghost use Rattle.image.specs.Image.{record_bytes, link_record, turn_record, contents};
ghost use Rattle.image.specs.Writes.{Writes};

use crate::entry::ContentsEntry;
use network::{Link, Network, Refusal, Turn};
use text::put_word;

// What an image has a record of.
trait Recorded: Copy {
    ghost bytes: { Self → List ℕ };

    // The nine bytes of the record.
    fn record(self) -> [u8; 9]
        ensures { result ≡ bytes self };
}

impl Recorded for Link {
    ghost bytes = { λ l. record_bytes (link_record l) };

    fn record(self) -> [u8; 9] {
        let [s1, s0] = self.start.to_be_bytes();
        let [e1, e0] = self.end.to_be_bytes();
        let [l3, l2, l1, l0] = self.length.to_be_bytes();
        [s1, s0, e1, e0, l3, l2, l1, l0, self.tightness]
    }
}

impl Recorded for Turn {
    ghost bytes = { λ t. record_bytes (turn_record t) };

    fn record(self) -> [u8; 9] {
        let [i1, i0] = self.into.to_be_bytes();
        let [o1, o0] = self.out.to_be_bytes();
        let [x3, x2, x1, x0] = self.extra.to_be_bytes();
        [i1, i0, o1, o0, self.letter(), x3, x2, x1, x0]
    }
}

// Writes the records of items at a place, one after another, and says where they end.
fn put_records<T: Recorded>(items: &[T], buffer: &mut [u8], from: usize) -> usize
    requires { from + 9 * length items.now ≤ length buffer.old }
    ensures ends { result ≡ from + 9 * length items.now }
    ensures put { Put (flat_map T.Recorded.bytes items.now) buffer.old from buffer.new result }
{
    let mut at = from;
    for item in items {
        at = put_word(&item.record(), buffer, at);
    }
    at
}

// Writes the table of contents for so many links and turn entries to the front, and says where it ends.
fn put_contents(links: u16, turns: u16, buffer: &mut [u8]) -> usize
    requires { 16 ≤ length buffer.old }
    ensures { Put (contents links turns) buffer.old 0 buffer.new result }
{
    let at = put_word(&ContentsEntry::of_links(links).to_bytes(), buffer, 0);
    put_word(
        &ContentsEntry::of_turns(turns, links).to_bytes(),
        buffer,
        at,
    )
}

// Writes the image of a network to the front of a buffer, and answers how many bytes it has.
pub fn write_network(network: &Network, buffer: &mut [u8]) -> Result<usize, Refusal>
    ensures { Writes (plan network.now) buffer.old result buffer.new }
{
    let links = network.links();
    let turns = network.turns();
    let size = 16 + 9 * (links.len() + turns.len());
    if buffer.len() < size {
        return Err(Refusal::BufferTooShort);
    }
    let at = put_contents(links.len() as u16, turns.len() as u16, buffer);
    let at = put_records(links, buffer, at);
    Ok(put_records(turns, buffer, at))
}
