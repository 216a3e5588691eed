//! Expressions as trees, to numbers and back.

ghost use Rattle.std.specs.Prelude.{◌≡◌, ◌<◌, IfOk, length};
ghost use Rattle.ts_regex.specs.Shape.{shape_of};
ghost use Rattle.ts_forms.specs.Nodes.{form_at};
ghost use Rattle.ts_forms.specs.Tables.{shapes, IsTable, IsPut};

use crate::forms::Forms;
use crate::node::Node;
use std::alloc::Global;
use ts_base::{Letter, Memory};
use ts_regex::{Regex, alt, cat, star};

impl Forms {
    /// The number of the expression that a tree is. Where it wasn't there, it is added after its parts.
    pub fn add(&mut self, r: &Regex) -> Result<usize, Memory>
        requires { IsTable self.old }
        ensures { IfOk result (λ k. IsPut self.old self.new (shape_of r.now) k) }
    {
        match r {
            Regex::Empty => self.put(Node::Empty),
            Regex::Eps => self.put(Node::Eps),
            Regex::One(Letter::Less) => self.put(Node::Less),
            Regex::One(Letter::Equal) => self.put(Node::Equal),
            Regex::One(Letter::Greater) => self.put(Node::Greater),
            Regex::Cat(r, s) => {
                let first = self.add(r)?;
                let second = self.add(s)?;
                self.put(Node::Cat(first, second))
            }
            Regex::Alt(r, s) => {
                let first = self.add(r)?;
                let second = self.add(s)?;
                self.put(Node::Alt(first, second))
            }
            Regex::Star(r) => {
                let inner = self.add(r)?;
                self.put(Node::Star(inner))
            }
        }
    }

    /// Expression `i` as a tree.
    pub fn regex(&self, alloc: Global, i: usize) -> Result<Regex, Memory>
        requires table { IsTable self.now }
        requires there { i < length (shapes self.now) }
        ensures { IfOk result (λ r. shape_of r ≡ form_at (shapes self.now) i) }
    {
        match self.node(i) {
            Node::Empty => Ok(Regex::Empty),
            Node::Eps => Ok(Regex::Eps),
            Node::Less => Ok(Regex::One(Letter::Less)),
            Node::Equal => Ok(Regex::One(Letter::Equal)),
            Node::Greater => Ok(Regex::One(Letter::Greater)),
            Node::Cat(r, s) => cat(alloc, self.regex(alloc, r)?, self.regex(alloc, s)?),
            Node::Alt(r, s) => alt(alloc, self.regex(alloc, r)?, self.regex(alloc, s)?),
            Node::Star(r) => star(alloc, self.regex(alloc, r)?),
        }
    }
}
