// Inclusions.
use cb_plain::Numbers;

/// What a relation of nodes to sites has to have. `slots`, `calls` and `filter` are places of tables.
#[derive(Debug, Drop)]
pub enum Inclusion {
    /// The site is in the node.
    Has {
        node: u32,
        site: u32,
    },
    /// The site is in the slot of each site of the base.
    HasEach {
        base: u32,
        slots: u32,
        site: u32,
    },
    /// All sites of the one node are in the other.
    Copy {
        from: u32,
        to: u32,
    },
    /// Those that the filter lets pass are.
    Through {
        from: u32,
        to: u32,
        filter: u32,
    },
    /// All sites of the slot of each site of the base are in the node.
    Load {
        base: u32,
        slots: u32,
        to: u32,
    },
    /// All sites of the node are in the slot of each site of the base.
    Store {
        from: u32,
        base: u32,
        slots: u32,
    },
    /// All sites of the slot of each site of the source are in that of each site of the target.
    Between {
        source: u32,
        target: u32,
        slots: u32,
    },
    /// Each site of the receiver that has a callee is in the callee's receiver, all sites of each argument are in the callee's argument of
    /// the same position, and all of the callee's result are in the result.
    Call {
        receiver: u32,
        calls: u32,
        arguments: Numbers,
        result: Option<u32>,
    },
}
