// What is done with a set of links, told by the marks of the links.
ghost use Rattle.std.specs.Prelude.{◌≡◌, true, false, ◌∷◌, replicate, slice_index_or};
ghost use Rattle.network.specs.Marks.{bits, both, marked, marks, marks_of};
ghost use Rattle.network.specs.Shared.{SharedIsCounted};

use crate::linkset::LinkSet;

impl LinkSet {
    // The set without links.
    pub fn new() -> LinkSet
        ensures { marks result ≡ replicate 1024 false }
    {
        LinkSet { words: [0; 16] }
    }

    // Whether the link is in the set. No set has link 0 or a link above 1024: the numbers are tested here, so that callers need not.
    pub fn has(&self, link: usize) -> bool
        ensures { result ≡ slice_index_or (false ∷ marks self.now) link false }
    {
        if link == 0 || link > 1024 {
            return false;
        }
        let place = link - 1;
        (self.words[place / 64] >> (place % 64)) & 1 == 1
    }

    // Gives the link this mark, a value that is stored. 0 and a number above 1024 leave the set as it is.
    pub fn set(&mut self, link: usize, mark: bool)
        ensures { marks self.new ≡ marked (marks self.old) link mark }
    {
        if link >= 1 && link <= 1024 {
            let place = link - 1;
            let bit = 1 << (place % 64);
            if mark {
                self.words[place / 64] |= bit;
            } else {
                self.words[place / 64] &= !bit;
            }
        }
    }

    // Puts the link into the set. 0 and a number above 1024 leave the set as it is.
    pub fn add(&mut self, link: usize)
        ensures { marks self.new ≡ marked (marks self.old) link true }
    {
        self.set(link, true);
    }

    // Takes the link out of the set. 0 and a number above 1024 leave the set as it is.
    pub fn remove(&mut self, link: usize)
        ensures { marks self.new ≡ marked (marks self.old) link false }
    {
        self.set(link, false);
    }

    // The set of the links in the list. Zeros and numbers above 1024 are no links.
    pub fn of_places(places: &[u16]) -> LinkSet
        ensures { marks result ≡ marks_of places.now }
    {
        let mut links = LinkSet::new();
        for place in places {
            links.add(usize::from(*place));
        }
        links
    }

    // How many links are in both sets.
    pub fn shared_count(a: &LinkSet, b: &LinkSet) -> u32
        ensures { result ≡ both (marks a.now) (marks b.now) }
    {
        a.words
            .iter()
            .zip(&b.words)
            .map(|(x, y)| shared_bits(*x, *y))
            .sum()
    }

    // The sets of two lists tell how many links of the one stand in the other.
    pub fn shared_is_counted()
        ensures { SharedIsCounted }
    {}
}

// How many bits two words share.
fn shared_bits(x: u64, y: u64) -> u32
    ensures { result ≡ both (bits 64 x) (bits 64 y) }
{
    (x & y).count_ones()
}
