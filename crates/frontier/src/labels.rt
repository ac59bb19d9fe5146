// What links cost, by which they are ordered: link n has its label at place n - 1.
ghost use Rattle.std.specs.Prelude.{◌≤◌, length};

use measure::Measure;

#[derive(Drop)]
pub struct Labels<'a, M: Measure> {
    pub(crate) costs: &'a mut [M::Cost],
    ghost room: { 1024 ≤ length costs.now },
}
