//! Marked numbers in rising order, as a tree that is changed in place.
//!
//! A tree is a treap: the node above others has the greatest priority of them, which its number determines. So its
//! depth is logarithmic in practice, and one set of marks has one form. Where a mark goes in, its node was made before;
//! so no change here needs memory.

ghost use Rattle.std.specs.Prelude.{◌≡◌, ◌≢◌, true, false, ◌∷◌, [], ◌++◌, ◌<ℤ◌, ◌≤ℤ◌, neg_ℤ, IfOk};
ghost use Rattle.std.specs.Prelude.{filter, int_le, int_lt};
ghost use Rattle.std.specs.List.{AllByRecursion};
ghost use Rattle.ts_base.specs.Limits.{greatest_value};
ghost use Rattle.ts_domain.specs.Marks.{gain, gain_of, flip_mark, MarksFrom};

use std::alloc::Global;
use std::marker::Model;
use std::mem;
use ts_base::Memory;

mod reading;

/// A number at which a set differs from the one that it was made of: there it is gone, or there alone it is.
#[derive(Clone, Copy, PartialEq, Eq)]
pub(crate) struct Mark {
    pub(crate) value: i64,
    pub(crate) gone: bool,
}

/// Marks in rising order.
#[cycle(marks)]
#[derive(Drop)]
pub(crate) struct Marks {
    root: Root,
}

#[cycle(marks)]
#[derive(Drop)]
enum Root {
    Empty,
    Full(Box<Node>),
}

/// A mark, those before it and those after it, and how many numbers the set has more by all of them.
#[cycle(marks)]
#[derive(Drop)]
pub(crate) struct Node {
    before: Marks,
    mark: Mark,
    more: i64,
    behind: Marks,
}

/// Marks cut at a number: those before it, the one at it, and those after it.
#[derive(Drop)]
struct Cut {
    before: Marks,
    at: Marks,
    behind: Marks,
}

impl Model for Marks {
    ghost use Rattle.std.specs.Prelude.{List};
    ghost use Rattle.ts_domain.specs.declared.marks.Mark.{Mark};

    ghost Value = { List Mark };

    ghost use Rattle.ts_domain.specs.MarkTree.{marks_of, RootFits};

    ghost view = { λ a. marks_of a.root };

    ghost invariant = { λ a. RootFits a.root };

    ghost use Rattle.std.specs.Prelude.{length};

    ghost size = { length };

    ghost use Rattle.ts_domain.specs.MarkTreeFalls.{depth_le-length-marks};

    ghost size_decreases = { λ a h. depth_le-length-marks a.root };
}

impl Mark {
    /// How many numbers the set has more by it.
    fn more(self) -> i64
        ensures { result ≡ gain_of self }
    {
        if self.gone { -1 } else { 1 }
    }
}

impl Node {
    /// A node that a mark can go into.
    pub(crate) fn spare(alloc: Global) -> Result<Box<Node>, Memory> {
        let node = Node {
            before: Marks::new(),
            mark: Mark {
                value: 0,
                gone: false,
            },
            more: 0,
            behind: Marks::new(),
        };
        Ok(Box::new(alloc, node)?)
    }

    /// The marks before its own, and those after it; both are taken out.
    fn take_sides(&mut self) -> (Marks, Marks)
        ensures before { result.0 ≡ self.old.before }
        ensures behind { result.1 ≡ self.old.behind }
        ensures mark { self.new.mark ≡ self.old.mark }
    {
        let before = mem::replace(&mut self.before, Marks::new());
        let behind = mem::replace(&mut self.behind, Marks::new());
        (before, behind)
    }
}

impl Marks {
    /// No marks.
    pub(crate) fn new() -> Marks
        ensures { result ≡ [] }
    {
        Marks { root: Root::Empty }
    }

    /// Whether there is none.
    pub(crate) fn is_empty(&self) -> bool
        ensures yes { result ≡ true → self.now ≡ [] }
        ensures no { result ≡ false → self.now ≢ [] }
    {
        matches!(self.root, Root::Empty)
    }

    /// How many numbers the set has more by the marks.
    pub(crate) fn more(&self) -> i64
        ensures { result ≡ gain self.now }
    {
        match &self.root {
            Root::Empty => 0,
            Root::Full(node) => node.more,
        }
    }
}

impl Marks {
    /// The marks before a number, the one at it, and those after it.
    fn split(self, v: i64) -> Cut
        ensures all { self ≡ result.before ++ result.at ++ result.behind }
        ensures before { AllByRecursion (λ m. m.value <ℤ v) result.before }
        ensures at { AllByRecursion (λ m. m.value ≡ v) result.at }
        ensures behind { AllByRecursion (λ m. v <ℤ m.value) result.behind }
    {
        let mut node = match self.root {
            Root::Empty => return Cut::empty(),
            Root::Full(node) => node,
        };
        let (before, behind) = node.take_sides();
        let here = node.mark.value;
        if v < here {
            let cut = before.split(v);
            Cut {
                before: cut.before,
                at: cut.at,
                behind: joined_at(node, cut.behind, behind),
            }
        } else if here < v {
            let cut = behind.split(v);
            Cut {
                before: joined_at(node, before, cut.before),
                at: cut.at,
                behind: cut.behind,
            }
        } else {
            Cut {
                before,
                at: joined_at(node, Marks::new(), Marks::new()),
                behind,
            }
        }
    }

    /// The marks with this one, or without the one at its number; the node is for a mark that comes in.
    pub(crate) fn flipped(self, mark: Mark, mut spare: Box<Node>) -> Marks
        requires rising { MarksFrom (neg_ℤ greatest_value) self }
        requires from { neg_ℤ greatest_value ≤ℤ mark.value }
        requires to { mark.value ≤ℤ greatest_value }
        ensures { result ≡ flip_mark mark self }
    {
        let cut = self.split(mark.value);
        if !cut.at.is_empty() {
            return joined(cut.before, cut.behind);
        }
        spare.mark = mark;
        let one = joined_at(spare, Marks::new(), Marks::new());
        joined(cut.before, joined(one, cut.behind))
    }

    /// The marks up to a number.
    pub(crate) fn up_to(self, t: i64) -> Marks
        requires { MarksFrom (neg_ℤ greatest_value) self }
        ensures { result ≡ filter (λ m. int_le m.value t) self }
    {
        let cut = self.split(t);
        joined(cut.before, cut.at)
    }

    /// The marks above a number.
    pub(crate) fn above(self, t: i64) -> Marks
        ensures { result ≡ filter (λ m. int_lt t m.value) self }
    {
        self.split(t).behind
    }

    /// A copy of the marks, in a tree of the form that this one has.
    pub(crate) fn try_clone(&self, alloc: Global) -> Result<Marks, Memory>
        ensures { IfOk result (λ marks. marks ≡ self.now) }
    {
        match &self.root {
            Root::Empty => Ok(Marks::new()),
            Root::Full(node) => {
                let copy = Node {
                    before: node.before.try_clone(alloc)?,
                    mark: node.mark,
                    more: node.more,
                    behind: node.behind.try_clone(alloc)?,
                };
                Ok(Marks {
                    root: Root::Full(Box::new(alloc, copy)?),
                })
            }
        }
    }
}

impl Cut {
    fn empty() -> Cut
        ensures before { result.before ≡ [] }
        ensures at { result.at ≡ [] }
        ensures behind { result.behind ≡ [] }
    {
        Cut {
            before: Marks::new(),
            at: Marks::new(),
            behind: Marks::new(),
        }
    }
}

/// Two lists of marks, with the mark of the node between them.
fn joined_at(mut node: Box<Node>, before: Marks, behind: Marks) -> Marks
    requires { MarksFrom (neg_ℤ greatest_value) (before ++ node.value.mark ∷ behind) }
    ensures { result ≡ before ++ node.value.mark ∷ behind }
{
    let mark = node.mark;
    let more = before.more() + mark.more() + behind.more();
    *node = Node {
        before,
        mark,
        more,
        behind,
    };
    Marks {
        root: Root::Full(node),
    }
}

/// The first marks, and the others after them.
fn joined(before: Marks, behind: Marks) -> Marks
    requires { MarksFrom (neg_ℤ greatest_value) (before ++ behind) }
    ensures { result ≡ before ++ behind }
{
    if before.is_empty() {
        return behind;
    }
    if behind.priority() < before.priority() {
        match before.root {
            Root::Empty => behind,
            Root::Full(mut top) => {
                let (outer, inner) = top.take_sides();
                joined_at(top, outer, joined(inner, behind))
            }
        }
    } else {
        match behind.root {
            Root::Empty => before,
            Root::Full(mut top) => {
                let (inner, outer) = top.take_sides();
                joined_at(top, joined(before, inner), outer)
            }
        }
    }
}
