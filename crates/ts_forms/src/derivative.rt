//! What a letter leaves, by numbers, each worked out once.

ghost use Rattle.std.specs.Prelude.{◌≡◌, ◌<◌, IfOk, length};
ghost use Rattle.ts_regex.specs.Shape.{Cat};
ghost use Rattle.ts_regex.specs.Derivative.{derivative};
ghost use Rattle.ts_regex.specs.NormalForm.{residual};
ghost use Rattle.ts_forms.specs.Nodes.{form_at};
ghost use Rattle.ts_forms.specs.Tables.{shapes, IsTable, IsPut, IsNumberOf};

use crate::forms::Forms;
use crate::node::Node;
use std::alloc::Global;
use ts_base::{Letter, Memory};

impl Forms {
    /// The number of the derivative of expression `i` by a letter: the words that begin with it, without it. It is
    /// worked out at the first call alone, and noted.
    #[cycle(derivative)]
    pub fn derive(&mut self, i: usize, letter: Letter) -> Result<usize, Memory>
        requires table { IsTable self.old }
        requires there { i < length (shapes self.old) }
        ensures { IfOk result (λ k. IsPut self.old self.new (derivative (form_at (shapes self.old) i) letter) k) }
    {
        match self.about(i).on(letter) {
            Some(k) => Ok(k),
            None => {
                let k = self.left_of(i, letter)?;
                self.note_left(i, letter, k);
                Ok(k)
            }
        }
    }

    /// The number of the derivative of expression `i` by a letter, worked out from those of its parts.
    #[cycle(derivative)]
    fn left_of(&mut self, i: usize, letter: Letter) -> Result<usize, Memory>
        requires table { IsTable self.old }
        requires there { i < length (shapes self.old) }
        ensures { IfOk result (λ k. IsPut self.old self.new (derivative (form_at (shapes self.old) i) letter) k) }
    {
        match (self.node(i), letter) {
            (Node::Less, Letter::Less)
            | (Node::Equal, Letter::Equal)
            | (Node::Greater, Letter::Greater) => self.put(Node::Eps),
            (Node::Cat(r, s), _) => self.left_of_cat(i, r, s, letter),
            (Node::Alt(r, s), _) => {
                let first = self.derive(r, letter)?;
                let second = self.derive(s, letter)?;
                self.put(Node::Alt(first, second))
            }
            (Node::Star(r), _) => {
                let first = self.derive(r, letter)?;
                self.put(Node::Cat(first, i))
            }
            _ => self.put(Node::Empty),
        }
    }

    /// The derivative of expression `i`, which is `r` followed by `s`.
    #[cycle(derivative)]
    fn left_of_cat(&mut self, i: usize, r: usize, s: usize, letter: Letter) -> Result<usize, Memory>
        requires table { IsTable self.old }
        requires there { i < length (shapes self.old) }
        requires parts { (r < i) × (s < i) }
        requires cat { form_at (shapes self.old) i ≡ Cat (form_at (shapes self.old) r) (form_at (shapes self.old) s) }
        ensures { IfOk result (λ k. IsPut self.old self.new (derivative (form_at (shapes self.old) i) letter) k) }
    {
        let left = self.derive(r, letter)?;
        let first = self.put(Node::Cat(left, s))?;
        if self.nullable(r) {
            let second = self.derive(s, letter)?;
            self.put(Node::Alt(first, second))
        } else {
            Ok(first)
        }
    }

    /// Notes the number of what a letter leaves of expression `i`.
    fn note_left(&mut self, i: usize, letter: Letter, k: usize)
        requires table { IsTable self.old }
        requires there { i < length (shapes self.old) }
        requires left { IsNumberOf (shapes self.old) (derivative (form_at (shapes self.old) i) letter) k }
        ensures table { IsTable self.new }
        ensures nodes { self.new.nodes ≡ self.old.nodes }
    {
        let known = self.known[i];
        self.known[i] = known.with(letter, k);
    }

    /// The number of the residual of expression `i` after a letter, which is the normal form of the derivative.
    pub fn residual(&mut self, alloc: Global, i: usize, letter: Letter) -> Result<usize, Memory>
        requires table { IsTable self.old }
        requires there { i < length (shapes self.old) }
        ensures { IfOk result (λ k. IsPut self.old self.new (residual (form_at (shapes self.old) i) letter) k) }
    {
        let left = self.derive(i, letter)?;
        self.normal(alloc, left)
    }
}
