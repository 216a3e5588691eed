//! Where values stand among others.

ghost use Rattle.std.specs.Prelude.{◌≡◌, ◌+◌, ◌<◌, ◌≤◌, IfSome, length};
ghost use Rattle.std.specs.List.{slice_range};

/// The place from which on these values stand side by side among others; none where they don't, or where there are
/// none.
pub(crate) fn place_in(values: &[i64], now: &[i64]) -> Option<usize>
    ensures within { IfSome result (λ from. from + length now.now ≤ length values.now) }
    ensures some { IfSome result (λ from. 0 < length values.now) }
    ensures same { IfSome result (λ from. now.now ≡ slice_range values.now from (from + length now.now)) }
{
    if now.is_empty() {
        return None;
    }
    let from = first_place(values, now[0]);
    if values.len() - from < now.len() {
        return None;
    }
    let to = from + now.len();
    if values[from..to] != now[..] {
        return None;
    }
    Some(from)
}

/// The first place of a value, or the one after all values.
fn first_place(values: &[i64], v: i64) -> usize
    ensures { result ≤ length values.now }
{
    for i in 0..values.len() {
        if values[i] == v {
            return i;
        }
    }
    values.len()
}
