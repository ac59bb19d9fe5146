// What routes go over, and between which nodes.
use network::{LinkSet, Network};

// The roads that routes go over: a network, and which of its links are closed.
#[derive(Clone, Copy)]
pub struct Roads<'a> {
    pub network: &'a Network,
    pub closed: &'a LinkSet,
}

// From a node to a node over roads.
#[derive(Clone, Copy)]
pub struct Trip<'a> {
    pub roads: Roads<'a>,
    pub from: u16,
    pub to: u16,
}
