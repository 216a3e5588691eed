//! The least configuration that is reached and fails a check.

ghost use Rattle.std.specs.Prelude.{◌≡◌, ◌<◌, length};
ghost use Rattle.ts_validate.specs.Failures.{failure_at, IsFirstFailure};

use crate::arrival::Tour;
use ts_base::Letter;

/// A configuration, the place of its arrival, and the first letter on which a check fails.
#[derive(Clone, Copy)]
pub struct Failure {
    pub configuration: usize,
    pub place: usize,
    pub letter: Letter,
}

/// The failure of configuration `i`, if it was reached and fails.
fn failure_at(tour: &Tour, i: usize) -> Option<Failure>
    requires { i < length tour.now.places.items }
    ensures { result ≡ failure_at tour.now i }
{
    let place = tour.place(i)?;
    let letter = (*tour.failing.get(place)?)?;
    Some(Failure {
        configuration: i,
        place,
        letter,
    })
}

/// The failure at the least configuration that has one.
pub fn first_failure(tour: &Tour) -> Option<Failure>
    ensures { IsFirstFailure tour.now result }
{
    for i in 0..tour.places.len() {
        if let Some(failure) = failure_at(tour, i) {
            return Some(failure);
        }
    }
    None
}
