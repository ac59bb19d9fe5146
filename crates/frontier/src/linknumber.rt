// The number of a link: from 1 to 1024. Memory keeps it in two bytes, where 0 is no link.
ghost use Rattle.std.specs.Prelude.{◌<◌, ◌≤◌};

#[derive(Clone, Copy)]
pub struct LinkNumber {
    pub number: u16,
    ghost low: { 0 < number },
    ghost high: { number ≤ 1024 },
}
