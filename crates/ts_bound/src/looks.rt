//! The cells that a machine looks at: the one place where a window becomes numbers.

ghost use Rattle.std.specs.Prelude.{◌≡◌};
ghost use Rattle.ts_base.specs.Windows.{LooksInside};
ghost use Rattle.ts_bound.specs.Looks.{count_looked, first_looked, is_looked, last_looked, read_at};

use ts_base::Range;

/// The first and the last of `n` cells that are looked at.
pub fn ends(window: Option<Range>, n: u32) -> (u32, u32)
    ensures first { result.0 ≡ first_looked window }
    ensures last { result.1 ≡ last_looked window n }
{
    match window {
        None => (1, n),
        Some(window) => (window.first, window.last),
    }
}

/// How many of `n` cells are looked at.
pub fn looked_count(window: Option<Range>, n: u32) -> u32
    requires { LooksInside n window }
    ensures { result ≡ count_looked window n }
{
    let (first, last) = ends(window, n);
    last - (first - 1)
}

/// Whether cell `k` is looked at.
pub fn is_looked(window: Option<Range>, k: u32) -> bool
    ensures { result ≡ is_looked window k }
{
    match window {
        None => true,
        Some(window) => window.first <= k && k <= window.last,
    }
}

/// The cell whose rows show what is asked of cell `k`: itself, or for a cell outside the window the window's last one.
pub fn read_at(window: Option<Range>, k: u32) -> u32
    ensures { result ≡ read_at window k }
{
    match window {
        Some(Range { last, .. }) if !is_looked(window, k) => last,
        _ => k,
    }
}
