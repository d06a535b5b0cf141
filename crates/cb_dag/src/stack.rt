// Stacks of nodes.
ghost use Rattle.cb_dag.specs.Marks.{IsTop};
ghost use Rattle.std.specs.Prelude.{◌≡◌, [], ◌∷◌, length, MatchOption, OnErr, OnOk};

use cb_plain::OutOfMemory;
use std::alloc::Global;
use std::marker::Model;

/// Nodes, of which the one that was added last is taken first. Contracts see it as their list, that one in front.
#[derive(Drop)]
pub(crate) struct Stack {
    nodes: Vec<u32>,
}

impl Model for Stack {
    ghost use Rattle.std.specs.Prelude.{ℕ, List, reverse};

    ghost Value = { List ℕ };

    ghost view = { λ stack. reverse stack.nodes.items };
}

impl Stack {
    /// The stack without nodes.
    pub fn new(alloc: Global) -> Stack
        ensures { result ≡ [] }
    {
        Stack {
            nodes: Vec::new(alloc),
        }
    }

    /// The node that was added last, if there is one.
    pub fn top(&self) -> Option<u32>
        ensures { MatchOption result (self.now ≡ []) (λ node. IsTop self.now node) }
    {
        self.nodes.last().copied()
    }

    /// Adds a node. A refused growth changes nothing.
    pub fn push(&mut self, node: u32) -> Result<(), OutOfMemory>
        ensures { OnOk result (self.new ≡ node ∷ self.old) }
    {
        self.nodes.push(node)?;
        Ok(())
    }

    /// Takes the node that was added last, if there is one.
    pub fn pop(&mut self) -> Option<u32>
        ensures { MatchOption result ((self.old ≡ []) × (self.new ≡ [])) (λ node. self.old ≡ node ∷ self.new) }
    {
        self.nodes.pop()
    }
}
