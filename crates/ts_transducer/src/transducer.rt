//! A well typed table of rows.

ghost use Rattle.std.specs.Prelude.{◌≡◌, ◌↔◌, ◌<◌, ◌≤◌, IsTrue, IsSome, IfSome, length};
ghost use Rattle.std.specs.List.{list_all};
ghost use Rattle.ts_transducer.specs.Typing.{may_move, arrow_is_typed, row_is_typed, is_typed};

use crate::row::{Arrow, Phase, Row};
use arrayvec::ArrayVec;
use ts_base::Kind;

/// One to eight rows, the first of them the start; each move leads to a row and fits the kinds of both.
#[derive(Drop)]
pub struct Transducer {
    rows: ArrayVec<Row, 8>,
    pub ghost typed: { IsTrue (is_typed rows.items) },
}

impl Transducer {
    ghost use Rattle.ts_transducer.specs.Rows.{rows_of};

    /// The transducer of these rows. None exactly where there is no row, a move leads to no row, the first
    /// row isn't Idle, or a move doesn't fit the kinds of its states.
    pub fn new(rows: ArrayVec<Row, 8>) -> Option<Transducer>
        ensures exactly { IsSome result ↔ IsTrue (is_typed rows.items) }
        ensures same { IfSome result (λ t. rows_of t ≡ rows.items) }
    {
        if table_typed(rows.as_slice()) {
            Some(Transducer { rows })
        } else {
            None
        }
    }

    /// Its rows, one to eight; the first is the start.
    pub fn rows(&self) -> &[Row]
        ensures rows { result.now ≡ rows_of self.now }
        ensures some { 0 < length result.now }
        ensures few { length result.now ≤ 8 }
    {
        self.rows.as_slice()
    }
}

/// Whether a move with this letter may lead from a state of one kind to one of the other.
fn fits(from: Kind, phase: Phase, to: Kind) -> bool
    ensures { result ≡ may_move from phase to }
{
    match phase {
        Phase::Out => from == Kind::Idle && to != Kind::Held,
        Phase::OutR => from == Kind::Pending && to != Kind::Held,
        Phase::OutA => from == Kind::Held && to != Kind::Held,
        Phase::MaybeB => from != Kind::Held && to == Kind::Pending,
        Phase::Found => from != Kind::Held && to == Kind::Held,
        Phase::FoundE => from != Kind::Held && to != Kind::Held,
        Phase::MaybeA | Phase::Inside => from == Kind::Held && to == Kind::Held,
    }
}

/// Whether the move leads to a row, from a state of this kind, and fits both kinds.
fn arrow_typed(rows: &[Row], kind: Kind, arrow: Arrow) -> bool
    ensures { result ≡ arrow_is_typed rows.now kind arrow }
{
    match rows.get(arrow.next as usize) {
        Some(row) => fits(kind, arrow.phase, row.kind),
        None => false,
    }
}

/// Whether each move of the row does.
fn row_typed(rows: &[Row], row: &Row) -> bool
    ensures { result ≡ row_is_typed rows.now row.now }
{
    arrow_typed(rows, row.kind, row.less)
        && arrow_typed(rows, row.kind, row.equal)
        && arrow_typed(rows, row.kind, row.greater)
}

/// Whether each row's moves do.
fn each_typed(rows: &[Row]) -> bool
    ensures { result ≡ list_all (λ r. row_is_typed rows.now r) rows.now }
{
    rows.iter().all(|row| row_typed(rows, row))
}

/// Whether these are the rows of a transducer.
fn table_typed(rows: &[Row]) -> bool
    ensures { result ≡ is_typed rows.now }
{
    match rows {
        [start, ..] => start.kind == Kind::Idle && each_typed(rows),
        [] => false,
    }
}
