//! Normal forms by numbers, each worked out once.

ghost use Rattle.std.specs.Prelude.{◌≡◌, ◌<◌, [], ◌≤◌, IfOk, MatchResult, length, IfSome};
ghost use Rattle.std.specs.List.{insert};
ghost use Rattle.ts_regex.specs.Shape.{Empty, Eps, Cat, Alt, Star};
ghost use Rattle.ts_regex.specs.NormalForm.{chain, normal_cat, members, insert_member, insert_members, nest, normal_alt, normal_star, normal_form};
ghost use Rattle.ts_forms.specs.Nodes.{form_at};
ghost use Rattle.ts_forms.specs.Joins.{how_joined};
ghost use Rattle.ts_forms.specs.Tables.{shapes, IsTable, IsPut, IsNumberOf, AreThere, forms_at};

use crate::forms::Forms;
use crate::node::Node;
use std::alloc::Global;
use std::cmp::Ordering;
use ts_base::Memory;

/// What a chain of two normal forms is.
#[derive(Clone, Copy)]
pub enum Joined {
    First,
    Second,
    Both,
}

/// What a chain of two normal forms is: an empty word on either side is left out, and with no word there is none.
fn how_joined(first: Node, second: Node) -> Joined
    ensures { result ≡ how_joined first second }
{
    match (first, second) {
        (Node::Empty, _) => Joined::First,
        (Node::Eps, _) => Joined::Second,
        (_, Node::Empty) => Joined::Second,
        (_, Node::Eps) => Joined::First,
        _ => Joined::Both,
    }
}

impl Forms {
    /// The number of `i` followed by `j`, nested to the right.
    fn chain(&mut self, i: usize, j: usize) -> Result<usize, Memory>
        requires table { IsTable self.old }
        requires first { i < length (shapes self.old) }
        requires second { j < length (shapes self.old) }
        ensures { IfOk result (λ k. IsPut self.old self.new
            (chain (form_at (shapes self.old) i) (form_at (shapes self.old) j)) k) }
    {
        match self.node(i) {
            Node::Cat(first, rest) => {
                let rest = self.chain(rest, j)?;
                self.put(Node::Cat(first, rest))
            }
            _ => self.put(Node::Cat(i, j)),
        }
    }

    /// The normal form of `i` followed by `j`, which are normal forms.
    fn normal_cat(&mut self, i: usize, j: usize) -> Result<usize, Memory>
        requires table { IsTable self.old }
        requires first { i < length (shapes self.old) }
        requires second { j < length (shapes self.old) }
        ensures { IfOk result (λ k. IsPut self.old self.new
            (normal_cat (form_at (shapes self.old) i) (form_at (shapes self.old) j)) k) }
    {
        match how_joined(self.node(i), self.node(j)) {
            Joined::First => Ok(i),
            Joined::Second => Ok(j),
            Joined::Both => self.chain(i, j),
        }
    }

    /// Puts the members of an expression that are no `Alt` into their places.
    fn collect_members(&self, i: usize, found: &mut Vec<usize>) -> Result<(), Memory>
        requires table { IsTable self.now }
        requires there { i < length (shapes self.now) }
        requires found { AreThere (shapes self.now) found.old.items }
        ensures found { IfOk result (λ _. AreThere (shapes self.now) found.new.items) }
        ensures members { IfOk result (λ _. forms_at (shapes self.now) found.new.items
            ≡ insert_members (members (form_at (shapes self.now) i)) (forms_at (shapes self.now) found.old.items)) }
    {
        match self.node(i) {
            Node::Empty => Ok(()),
            Node::Alt(r, s) => {
                self.collect_members(s, found)?;
                self.collect_members(r, found)
            }
            _ => self.insert_member(i, found),
        }
    }

    /// Puts `i` into its place among sorted members, unless it stands there.
    fn insert_member(&self, i: usize, found: &mut Vec<usize>) -> Result<(), Memory>
        requires table { IsTable self.now }
        requires there { i < length (shapes self.now) }
        requires found { AreThere (shapes self.now) found.old.items }
        ensures found { IfOk result (λ _. AreThere (shapes self.now) found.new.items) }
        ensures members { IfOk result (λ _. forms_at (shapes self.now) found.new.items
            ≡ insert_member (form_at (shapes self.now) i) (forms_at (shapes self.now) found.old.items)) }
    {
        if let Err(place) = self.place_of(i, found) {
            found.insert(place, i)?;
        }
        Ok(())
    }

    /// Where `i` stands among sorted members, or else where it belongs.
    fn place_of(&self, i: usize, found: &[usize]) -> Result<usize, usize>
        requires table { IsTable self.now }
        requires there { i < length (shapes self.now) }
        requires found { AreThere (shapes self.now) found.now }
        ensures { MatchResult result
            (λ k. insert_member (form_at (shapes self.now) i) (forms_at (shapes self.now) found.now)
            ≡ forms_at (shapes self.now) found.now)
            (λ k. (k ≤ length found.now)
            × (insert_member (form_at (shapes self.now) i) (forms_at (shapes self.now) found.now)
            ≡ insert (forms_at (shapes self.now) found.now) k (form_at (shapes self.now) i))) }
    {
        for k in 0..found.len() {
            match self.compare(i, found[k]) {
                Ordering::Less => return Err(k),
                Ordering::Equal => return Ok(k),
                Ordering::Greater => {}
            }
        }
        Err(found.len())
    }

    /// The number of the `Alt` of the members, nested to the right.
    fn nest(&mut self, mut found: Vec<usize>) -> Result<usize, Memory>
        requires table { IsTable self.old }
        requires found { AreThere (shapes self.old) found.items }
        ensures { IfOk result (λ k. IsPut self.old self.new (nest (forms_at (shapes self.old) found.items)) k) }
    {
        let mut union = match found.pop() {
            None => return self.put(Node::Empty),
            Some(last) => last,
        };
        while let Some(member) = found.pop() {
            union = self.put(Node::Alt(member, union))?;
        }
        Ok(union)
    }

    /// The normal form of `i` or `j`, which are normal forms.
    fn normal_alt(&mut self, alloc: Global, i: usize, j: usize) -> Result<usize, Memory>
        requires table { IsTable self.old }
        requires first { i < length (shapes self.old) }
        requires second { j < length (shapes self.old) }
        ensures { IfOk result (λ k. IsPut self.old self.new
            (normal_alt (form_at (shapes self.old) i) (form_at (shapes self.old) j)) k) }
    {
        let mut found = Vec::new(alloc);
        self.collect_members(j, &mut found)?;
        self.collect_members(i, &mut found)?;
        self.nest(found)
    }

    /// The normal form of `i` any number of times, where `i` is a normal form.
    fn normal_star(&mut self, i: usize) -> Result<usize, Memory>
        requires table { IsTable self.old }
        requires there { i < length (shapes self.old) }
        ensures { IfOk result (λ k. IsPut self.old self.new (normal_star (form_at (shapes self.old) i)) k) }
    {
        match self.node(i) {
            Node::Empty | Node::Eps => self.put(Node::Eps),
            Node::Star(_) => Ok(i),
            _ => self.put(Node::Star(i)),
        }
    }

    /// The number of the normal form of expression `i`. It is worked out at the first call alone, and noted.
    #[cycle(normal)]
    pub fn normal(&mut self, alloc: Global, i: usize) -> Result<usize, Memory>
        requires table { IsTable self.old }
        requires there { i < length (shapes self.old) }
        ensures { IfOk result (λ k. IsPut self.old self.new (normal_form (form_at (shapes self.old) i)) k) }
    {
        match self.about(i).normal {
            Some(k) => Ok(k),
            None => {
                let k = self.simplified(alloc, i)?;
                self.note_normal(i, k);
                Ok(k)
            }
        }
    }

    /// The number of the normal form of expression `i`, worked out from those of its parts.
    #[cycle(normal)]
    fn simplified(&mut self, alloc: Global, i: usize) -> Result<usize, Memory>
        requires table { IsTable self.old }
        requires there { i < length (shapes self.old) }
        ensures { IfOk result (λ k. IsPut self.old self.new (normal_form (form_at (shapes self.old) i)) k) }
    {
        match self.node(i) {
            Node::Cat(r, s) => {
                let first = self.normal(alloc, r)?;
                let second = self.normal(alloc, s)?;
                self.normal_cat(first, second)
            }
            Node::Alt(r, s) => {
                let first = self.normal(alloc, r)?;
                let second = self.normal(alloc, s)?;
                self.normal_alt(alloc, first, second)
            }
            Node::Star(r) => {
                let inner = self.normal(alloc, r)?;
                self.normal_star(inner)
            }
            _ => Ok(i),
        }
    }

    /// Notes the number of the normal form of expression `i`.
    fn note_normal(&mut self, i: usize, k: usize)
        requires table { IsTable self.old }
        requires there { i < length (shapes self.old) }
        requires normal { IsNumberOf (shapes self.old) (normal_form (form_at (shapes self.old) i)) k }
        ensures table { IsTable self.new }
        ensures nodes { self.new.nodes ≡ self.old.nodes }
    {
        self.known[i].normal = Some(k);
    }
}
