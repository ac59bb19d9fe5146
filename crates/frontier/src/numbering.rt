// How the number of a link is made and read.
ghost use Rattle.std.specs.Prelude.{◌≡◌, ◌+◌, ◌-◌, ◌<◌, ◌≤◌, MatchOption};

use crate::linknumber::LinkNumber;

impl LinkNumber {
    // The number of the link at a place.
    pub fn at(place: usize) -> LinkNumber
        requires { place < 1024 }
        ensures { result.number ≡ place + 1 }
    {
        LinkNumber {
            number: place as u16 + 1,
        }
    }

    // The number of the link that a node holds, where 0 is none.
    pub(crate) fn held(number: u16) -> Option<LinkNumber>
        requires { number ≤ 1024 }
        ensures { MatchOption result (number ≡ 0) (λ link. link.number ≡ number) }
    {
        if number == 0 {
            return None;
        }
        Some(LinkNumber { number })
    }

    // The number of a link, where it is one: 0 is none, and neither is what is above 1024.
    pub fn of(number: u16) -> Option<LinkNumber>
        ensures { MatchOption result (number ≤ 1024 → number ≡ 0) (λ link. link.number ≡ number) }
    {
        if 1024 < number {
            return None;
        }
        LinkNumber::held(number)
    }

    // The place of the link.
    pub fn place(self) -> usize
        ensures { result ≡ self.number - 1 }
    {
        usize::from(self.number) - 1
    }
}
