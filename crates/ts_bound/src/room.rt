//! Whether the rows of all machines may be kept from box to box.

ghost use Rattle.std.specs.List.{list_any};
ghost use Rattle.std.specs.Prelude.{◌≡◌, ◌≤◌, ◌+◌, ◌*◌, ◌↔◌, IsTrue, length, map, nat_eq};
ghost use Rattle.ts_bound.specs.Blocks.{back_states};
ghost use Rattle.ts_bound.specs.Looks.{is_looked};
ghost use Rattle.ts_bound.specs.TermSpans.{automata_of};
ghost use Rattle.ts_bound.specs.Room.{bytes_at, bytes_from, counted_at, hull_bytes, most_bytes, row_bytes};
ghost use Rattle.ts_bound.specs.Room.{saturated, values_from};
ghost use Rattle.ts_glue.specs.Machines.{forward_of, pair_of};

use crate::looks::is_looked;
use ts_base::Range;
use ts_domain::Domain;
use ts_glue::Machine;

/// What a packed hull of a row takes, in bytes, and one of a wide automaton.
const NARROW_HULL: u64 = 48;

const WIDE_HULL: u64 = 80;

/// What a value of a cell takes in the lists of values that are kept with rows, one list per direction.
const LISTED: u64 = 16;

/// How many bytes the rows of all machines may take, except for one spare row per direction with the values of its cell
/// and of the cell before. Each row may have memory for twice its hulls and values.
const MOST: u64 = 200_000_000;

/// For how many values each row may have memory, however few it holds: so a cell whose values come and go has its rows
/// made in the same memory.
pub(crate) const SMALL_ROW: usize = 16;

/// Whether the rows of the machines at the places `named`, counted from 0, take no more than `MOST`, for boxes with at
/// most these values in their cells. A machine with a window has rows of the window's cells alone.
pub fn has_room(machines: &[Machine], named: &[u32], cells: &[Domain]) -> bool
    ensures { IsTrue result ↔ (bytes_from named.now 0 (map automata_of machines.now) cells.now ≤ most_bytes) }
{
    let mut bytes = 0;
    for place in 0..machines.len() {
        bytes = sum(bytes, bytes_at(named, place, &machines[place], cells));
    }
    bytes <= MOST / 2
}

/// How many bytes the rows of the machine at this place take, if the place is named.
fn bytes_at(named: &[u32], place: usize, m: &Machine, cells: &[Domain]) -> u64
    ensures { result ≡ saturated (bytes_at named.now place (automata_of m.now) cells.now) }
{
    if is_named(named, place) {
        bytes_of(m, cells)
    } else {
        0
    }
}

/// Whether the place is named.
fn is_named(named: &[u32], place: usize) -> bool
    ensures { result ≡ list_any (λ at. nat_eq at place) named.now }
{
    named.iter().any(|at| *at as usize == place)
}

/// How many bytes the rows of a machine take, of a box with these cells.
fn bytes_of(m: &Machine, cells: &[Domain]) -> u64
    ensures { result ≡ saturated (row_bytes (automata_of m.now) cells.now) }
{
    let each = sum(product(states_of(m), hull_of(m)), LISTED);
    product(values_of(m.window(), cells), each)
}

/// The sum of two numbers, or the greatest number.
fn sum(a: u64, b: u64) -> u64
    ensures { result ≡ saturated (a + b) }
{
    a.saturating_add(b)
}

/// The product of two numbers, or the greatest number.
fn product(a: u64, b: u64) -> u64
    ensures { result ≡ saturated (a * b) }
{
    a.saturating_mul(b)
}

/// How many values the cells have together that are looked at. A cell counts for half of `SMALL_ROW` at least.
fn values_of(window: Option<Range>, cells: &[Domain]) -> u64
    ensures { result ≡ saturated (values_from window 1 cells.now) }
{
    let mut values = 0;
    for i in 0..cells.len() {
        values = sum(values, counted(window, i, &cells[i]));
    }
    values
}

/// What the cell at place `i`, counted from 0, counts for, if it is looked at.
fn counted(window: Option<Range>, i: usize, domain: &Domain) -> u64
    ensures { result ≡ counted_at window (i + 1) domain.now }
{
    if is_inside(window, i) {
        domain.size().max(SMALL_ROW as u64 / 2)
    } else {
        0
    }
}

/// Whether the cell at place `i`, counted from 0, is looked at. No window reaches beyond the numbers of 32 bits.
fn is_inside(window: Option<Range>, i: usize) -> bool
    ensures { result ≡ is_looked window (i + 1) }
{
    match u32::try_from(i.saturating_add(1)) {
        Ok(k) => is_looked(window, k),
        Err(_) => window.is_none(),
    }
}

/// What a hull of the machine takes: both automata have one width.
fn hull_of(m: &Machine) -> u64
    ensures { result ≡ hull_bytes (forward_of m.now) }
{
    if m.forward().wide() {
        WIDE_HULL
    } else {
        NARROW_HULL
    }
}

/// How many states the automata of the machine have, the forward and the reverse one.
fn states_of(m: &Machine) -> u64
    ensures { result ≡ length (forward_of m.now).states + back_states (pair_of m.now) }
{
    let reverse = match m.reverse() {
        Some(a) => a.states(),
        None => 0,
    };
    m.forward().states() as u64 + reverse as u64
}
