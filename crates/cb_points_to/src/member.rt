// What is had, and what goes on from there.

/// A site of a node.
#[derive(Clone, Copy, Drop)]
pub(crate) struct Member {
    pub node: u32,
    pub site: u32,
}

/// All sites of a node are in another one, or those that a filter lets pass.
#[derive(Clone, Copy, Drop)]
pub(crate) struct Edge {
    pub to: u32,
    pub filter: Option<u32>,
}
