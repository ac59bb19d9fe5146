// A sealed map: a town and the measure that its owner chose. It has no call that lays.
// Each call says all that it leaves: that the measure stays is one of its clauses too.
use crate::town::Town;
use measure::Measure;

#[derive(Drop)]
pub struct Map<M: Measure + Drop> {
    pub(crate) town: Town,
    pub(crate) measure: M,
}
