//! What stands for a term: automata that answer its value, over all cells or over a window.

ghost use Rattle.std.proofs.Props.{props};
ghost use Rattle.std.specs.Prelude.{◌≡◌, ◌<◌, ◌≤◌, IfSome, IsSome, IsTrue, None, Some, length, option_map};
ghost use Rattle.ts_automaton.specs.Typing.{is_automaton};
ghost use Rattle.ts_base.specs.Limits.{IsCellValue, most_cells};
ghost use Rattle.ts_base.specs.Windows.{LooksInside};
ghost use Rattle.ts_glue.specs.Glue.{glue_of};
ghost use Rattle.ts_glue.specs.Glued.{Local};
ghost use Rattle.ts_glue.specs.Pairs.{pair, table_view};
ghost use Rattle.ts_glue.specs.Rules.{keeps_rules};
ghost use Rattle.ts_glue.specs.Shapes.{AreShapes, expression};
ghost use Rattle.ts_glue.specs.declared.machine.Half.{Half};

use crate::gluing::Gluing;
use crate::shape::Shapes;
use crate::table::GlueTable;
use ts_automaton::Automaton;
use ts_base::Range;

/// A reverse automaton, and how its values are glued to those of the forward one.
#[derive(Drop)]
pub(crate) struct Half {
    pub(crate) reverse: Automaton,
    pub(crate) table: GlueTable,
    pub(crate) shapes: Shapes,
}

/// A forward automaton, and either nothing or a reverse automaton with a glue table: then it can be split at each cell,
/// and at every cell of every series of 1 to 512 cells from -1,000,000 to 1,000,000 the glued value of the two runs is
/// the forward automaton's answer. The series is that of all cells, or that of the cells of the machine's window.
#[derive(Drop)]
pub struct Machine {
    forward: Automaton,
    half: Option<Half>,
    window: Option<Range>,
    pub ghost inside: { LooksInside most_cells window } by { Prim.hlevel props },
    pub ghost rules: { (h : Half) → half ≡ Some h →
        IsTrue (keeps_rules (pair forward h.reverse (table_view h.table))) },
    pub ghost local: { (h : Half) → half ≡ Some h → Local (pair forward h.reverse (table_view h.table)) },
    pub ghost shapes: { (h : Half) → half ≡ Some h →
        AreShapes (pair forward h.reverse (table_view h.table)) h.shapes },
}

impl Machine {
    ghost use Rattle.ts_glue.specs.Machines.{forward_of, pair_of, reverse_of, table_of, window_of};

    /// The machine of a forward automaton alone. It can't be split.
    pub fn plain(forward: Automaton) -> Machine
        ensures forward { forward_of result ≡ forward }
        ensures plain { pair_of result ≡ None }
        ensures whole { window_of result ≡ None }
    {
        Machine {
            forward,
            half: None,
            window: None,
        }
    }

    /// The machine of a forward and a reverse automaton. They have to fit: `a` is 0 or 1; both are wide where the table
    /// folds a pair, and both narrow where it doesn't; both finish expressions are `o R C`, of wide automata
    /// `o R sub C E`, with one operator `o`, to which the reverse start constants of C and R are neutral, while that of
    /// E is 0; both states of each pair in the table exist, the second is never the reverse start state, and there the
    /// glued value is well typed; and the glued value is the same at all cells of a series, at the last one the forward
    /// answer.
    pub fn glued(forward: Automaton, reverse: Automaton, table: GlueTable) -> Machine
        requires rules { IsTrue (keeps_rules (pair forward reverse (table_view table))) }
        requires local { Local (pair forward reverse (table_view table)) }
        ensures pair { pair_of result ≡ Some (pair forward reverse (table_view table)) }
        ensures whole { window_of result ≡ None }
    {
        let shapes = Shapes::of(&forward, &reverse, &table);
        Machine {
            forward,
            half: Some(Half {
                reverse,
                table,
                shapes,
            }),
            window: None,
        }
    }

    /// This machine, over the cells from `first` to `last` alone, counted from 1. It has no window yet.
    pub fn over(self, first: u32, last: u32) -> Machine
        requires first { 1 ≤ first }
        requires order { first ≤ last }
        requires last { last ≤ most_cells }
        requires whole { window_of self ≡ None }
        ensures forward { forward_of result ≡ forward_of self }
        ensures pair { pair_of result ≡ pair_of self }
        ensures window { window_of result ≡ Some (record { first = first; last = last }) }
    {
        Machine {
            forward: self.forward,
            half: self.half,
            window: Some(Range { first, last }),
        }
    }

    /// How the runs are glued at a cell where the forward one stands in the state `left`, the reverse one in `right`.
    pub(crate) fn gluing(&self, left: u8, right: u8, cell: i64) -> Gluing
        requires split { IsSome (pair_of self.now) }
        requires left { left < length (forward_of self.now).states }
        requires right { IfSome (reverse_of self.now) (λ b. right < length b.states) }
        requires cell { IsCellValue cell }
        ensures value { IfSome (pair_of self.now) (λ p. expression result ≡ glue_of p left right cell) }
        ensures worth { IsCellValue result.worth }
        ensures forward_rules { IsTrue (is_automaton (forward_of self.now)) }
        ensures reverse_rules { IfSome (reverse_of self.now) (λ b. IsTrue (is_automaton b)) }
    {
        // both have few states
        self.forward.states();
        match &self.half {
            Some(half) => {
                half.reverse.states();
                half.shapes.gluing(left, right, cell)
            }
            None => unreachable!(),
        }
    }

    /// How its runs are glued, by the states in which they stand.
    pub fn shapes(&self) -> &Shapes
        requires split { IsSome (pair_of self.now) }
        ensures { IfSome (pair_of self.now) (λ p. AreShapes p result.now) }
    {
        match &self.half {
            Some(half) => &half.shapes,
            None => unreachable!(),
        }
    }

    /// Its forward automaton.
    pub fn forward(&self) -> &Automaton
        ensures { result.now ≡ forward_of self.now }
    {
        &self.forward
    }

    /// Its reverse automaton. None exactly where it was made by `plain`.
    pub fn reverse(&self) -> Option<&Automaton>
        ensures { option_map (λ b. b.now) result ≡ reverse_of self.now }
    {
        match &self.half {
            Some(half) => Some(&half.reverse),
            None => None,
        }
    }

    /// The cells that it looks at. None, which is all of them, exactly where it wasn't made by `over`.
    pub fn window(&self) -> Option<Range>
        ensures { result ≡ window_of self.now }
    {
        self.window
    }

    /// Its glue table. None exactly where it was made by `plain`.
    pub fn table(&self) -> Option<&GlueTable>
        ensures { option_map (λ t. table_view t.now) result ≡ table_of self.now }
    {
        match &self.half {
            Some(half) => Some(&half.table),
            None => None,
        }
    }
}
