// What is read of a network.
ghost use Rattle.std.specs.Prelude.{◌≡◌, ◌-◌, ◌<◌, ◌≤◌, true, length, slice_index_or};
ghost use Rattle.network.specs.Laid.{plan};
ghost use Rattle.network.specs.Roads.{turn, LinksBelow};
ghost use Rattle.network.specs.Changing.{EntryPlace};
ghost use Rattle.network.specs.Plan.{Laid, laid, link, no_link, last_start, has_entry};

use crate::link::Link;
use crate::network::Network;
use crate::turn::{STRAIGHT_ON, Turn};

impl Network {
    // The links in the order of their numbers.
    pub fn links(&self) -> &[Link]
        ensures { result.now ≡ (plan self.now).links }
    {
        self.links.as_slice()
    }

    // The turn entries in their order.
    pub fn turns(&self) -> &[Turn]
        ensures { result.now ≡ (plan self.now).turns }
    {
        self.turns.as_slice()
    }

    // Whether a link has the number.
    pub fn is_laid(&self, number: u32) -> bool
        ensures { result ≡ laid (plan self.now).links number }
    {
        number >= 1 && number as usize <= self.links.len()
    }

    // The link of a number.
    pub(crate) fn link(&self, number: u32) -> Link
        requires { Laid (plan self.now).links number }
        ensures { result ≡ link (plan self.now).links number }
    {
        self.links[number as usize - 1]
    }

    // The start of the link that was laid last, or 0 before the first.
    pub(crate) fn last_start(&self) -> u16
        ensures { result ≡ last_start (plan self.now).links }
    {
        self.links().last().map_or(0, |link| link.start)
    }

    // A place of the pair's entry, counted from 0.
    pub(crate) fn place_of(&self, into: u32, out: u32) -> Option<usize>
        ensures { EntryPlace (plan self.now).turns into out result }
    {
        // Two tests, and not u16::try_from, since the index of entries ends with the last link.
        if into > 1024 || out > 1024 {
            return None;
        }
        self.turns.find(into as u16, out as u16)
    }

    // Whether the pair has an entry.
    pub(crate) fn has_entry(&self, into: u32, out: u32) -> bool
        ensures { result ≡ has_entry (plan self.now).turns into out }
    {
        self.place_of(into, out).is_some()
    }

    // The turn of a pair: its entry, or straight on with no extra where it has none.
    pub fn turn_of(&self, into: u16, out: u16) -> Turn
        ensures { result ≡ turn (plan self.now).turns into out }
    {
        // A match: two closures are no plainer, and the turn of a pair without an entry is made only where it has none.
        match self.place_of(u32::from(into), u32::from(out)) {
            Some(place) => self.turns()[place],
            None => Turn {
                into,
                out,
                class: STRAIGHT_ON,
                extra: 0,
            },
        }
    }

    // How many links start below a node: the links that start there come next, one after another.
    pub fn links_below(&self, node: u32) -> usize
        ensures { LinksBelow (plan self.now).links node result }
    {
        let links = self.links();
        let count = self.starts.below(node);
        if count <= links.len() && divides(links, count, node) {
            return count;
        }
        links.partition_point(|link| u32::from(link.start) < node)
    }
}

// Whether the last of the first links starts below a node, and the link after them at it or above it, where there are such.
fn divides(links: &[Link], count: usize, node: u32) -> bool
    requires { count ≤ length links.now }
    ensures below { result ≡ true → 0 < count → (slice_index_or links.now (count - 1) no_link).start < node }
    ensures others { result ≡ true → count < length links.now → node ≤ (slice_index_or links.now count no_link).start }
{
    let (below, others) = links.split_at(count);
    below.last().is_none_or(|link| u32::from(link.start) < node)
        && others
            .first()
            .is_none_or(|link| node <= u32::from(link.start))
}
