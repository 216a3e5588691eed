//! The order of expressions: by the variant, then by the parts from left to right.

ghost use Rattle.std.specs.Prelude.{◌≡◌, ◌<◌, length};
ghost use Rattle.ts_regex.specs.NormalForm.{shape_rank, shape_cmp};
ghost use Rattle.ts_forms.specs.Nodes.{form_at, shape_by};
ghost use Rattle.ts_forms.specs.Orders.{node_rank};
ghost use Rattle.ts_forms.specs.Tables.{shapes, IsTable};

use crate::forms::Forms;
use crate::node::Node;
use std::cmp::Ordering;

/// The place of a node's variant; those of the letters come in their order.
fn rank(node: Node) -> u8
    ensures { result ≡ node_rank node }
{
    match node {
        Node::Empty => 0,
        Node::Eps => 1,
        Node::Less => 2,
        Node::Equal => 3,
        Node::Greater => 4,
        Node::Cat(_, _) => 5,
        Node::Alt(_, _) => 6,
        Node::Star(_) => 7,
    }
}

impl Forms {
    /// How two expressions compare. Of two that differ, the first parts that differ tell it, so one path is gone down.
    pub(crate) fn compare(&self, i: usize, j: usize) -> Ordering
        requires table { IsTable self.now }
        requires first { i < length (shapes self.now) }
        requires second { j < length (shapes self.now) }
        ensures { result ≡ shape_cmp (form_at (shapes self.now) i) (form_at (shapes self.now) j) }
    {
        if i == j {
            return Ordering::Equal;
        }
        match (self.node(i), self.node(j)) {
            (Node::Cat(r, s), Node::Cat(t, u)) if r == t => self.compare(s, u),
            (Node::Alt(r, s), Node::Alt(t, u)) if r == t => self.compare(s, u),
            (Node::Cat(r, _), Node::Cat(t, _)) => self.compare(r, t),
            (Node::Alt(r, _), Node::Alt(t, _)) => self.compare(r, t),
            (Node::Star(r), Node::Star(t)) => self.compare(r, t),
            (first, second) => rank(first).cmp(&rank(second)),
        }
    }
}
