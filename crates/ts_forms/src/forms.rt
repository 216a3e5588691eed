//! The table of expressions.

ghost use Rattle.std.specs.Prelude.{◌≡◌, ◌<◌, [], Some, IfOk, IfSome, length, slice_get};
ghost use Rattle.ts_regex.specs.Derivative.{nullable, has_word, has_longer};
ghost use Rattle.ts_forms.specs.Nodes.{form_at, shape_by, HasParts, words_of};
ghost use Rattle.ts_forms.specs.Tables.{shapes, IsTable, IsKnown, IsPut};

use crate::known::{Known, NO_WORD};
use crate::node::Node;
use indexmap::IndexSet;
use std::alloc::Global;
use ts_base::Memory;

/// Expressions, no two of them the same, each after its parts; their places by their nodes; and what is known of each.
#[derive(Drop)]
pub struct Forms {
    pub nodes: Vec<Node>,
    pub places: IndexSet<Node>,
    pub known: Vec<Known>,
}

impl Forms {
    /// A table with no expressions.
    #[tactic(auto, using(crate::proofs::Readings::table_none))]
    pub fn new(alloc: Global) -> Forms
        ensures table { IsTable result }
        ensures none { shapes result ≡ [] }
    {
        Forms {
            nodes: Vec::new(alloc),
            places: IndexSet::new(alloc),
            known: Vec::new(alloc),
        }
    }

    /// The node of expression `i`, which names its parts by their numbers, all of them smaller.
    #[tactic(auto, using(crate::proofs::Readings::node_there, crate::proofs::Readings::node_parts, crate::proofs::Readings::node_shape))]
    pub(crate) fn node(&self, i: usize) -> Node
        requires table { IsTable self.now }
        requires there { i < length (shapes self.now) }
        ensures parts { HasParts i result }
        ensures shape { form_at (shapes self.now) i ≡ shape_by (shapes self.now) result }
    {
        self.nodes[i]
    }

    /// What is known of expression `i`.
    #[tactic(auto, using(crate::proofs::Readings::known_there, crate::proofs::Readings::known_read))]
    pub(crate) fn about(&self, i: usize) -> Known
        requires table { IsTable self.now }
        requires there { i < length (shapes self.now) }
        ensures { IsKnown (shapes self.now) (form_at (shapes self.now) i) result }
    {
        self.known[i]
    }

    /// Which words the expression has that a node is, worked out from what is known of its parts.
    #[tactic(auto, using(crate::proofs::Readings::words_cat_are, crate::proofs::Readings::words_alt_are, crate::proofs::Readings::words_star_are))]
    fn words(&self, node: Node) -> Known
        requires table { IsTable self.now }
        requires parts { HasParts (length (shapes self.now)) node }
        ensures { result ≡ words_of (shape_by (shapes self.now) node) }
    {
        match node {
            Node::Empty => NO_WORD,
            Node::Eps => Known {
                nullable: true,
                some: true,
                ..NO_WORD
            },
            Node::Less | Node::Equal | Node::Greater => Known {
                some: true,
                longer: true,
                ..NO_WORD
            },
            Node::Cat(i, j) => self.about(i).followed_by(self.about(j)),
            Node::Alt(i, j) => self.about(i).or(self.about(j)),
            Node::Star(i) => self.about(i).any_times(),
        }
    }

    /// The number of the expression that a node is. Where no such expression was there, it comes last.
    pub(crate) fn put(&mut self, node: Node) -> Result<usize, Memory>
        requires table { IsTable self.old }
        requires parts { HasParts (length (shapes self.old)) node }
        ensures { IfOk result (λ j. IsPut self.old self.new (shape_by (shapes self.old) node) j) }
    {
        let words = self.words(node);
        let (place, is_new) = self.places.insert_full(node)?;
        if is_new {
            self.nodes.push(node)?;
            self.known.push(words)?;
        }
        Ok(place)
    }

    /// Whether expression `i` has a word.
    pub fn has_word(&self, i: usize) -> bool
        requires table { IsTable self.now }
        requires there { i < length (shapes self.now) }
        ensures { result ≡ has_word (form_at (shapes self.now) i) }
    {
        self.about(i).some
    }

    /// Whether the empty word is a word of expression `i`.
    pub fn nullable(&self, i: usize) -> bool
        requires table { IsTable self.now }
        requires there { i < length (shapes self.now) }
        ensures { result ≡ nullable (form_at (shapes self.now) i) }
    {
        self.about(i).nullable
    }

    /// Whether expression `i` has a word of at least one letter.
    pub fn has_longer(&self, i: usize) -> bool
        requires table { IsTable self.now }
        requires there { i < length (shapes self.now) }
        ensures { result ≡ has_longer (form_at (shapes self.now) i) }
    {
        self.about(i).longer
    }
}
