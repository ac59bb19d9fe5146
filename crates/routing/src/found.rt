// What a search found: what the route costs, and how many links it has.

#[derive(Clone, Copy)]
pub struct Found<C> {
    pub cost: C,
    pub count: usize,
}
