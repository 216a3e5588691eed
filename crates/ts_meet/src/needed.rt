//! What is needed of the ends of a span: both, or one of them alone.

ghost use Rattle.std.specs.Prelude.{◌≡◌};
ghost use Rattle.ts_meet.specs.Ends.{needed_ends};

use crate::lane::End;
use ts_sweep::packed::Ends;

/// Ends that are to be reached, in lanes: both, or one alone.
#[derive(Clone, Copy)]
pub(crate) enum Needed {
    Both(Ends),
    One(End, i64),
}

impl Needed {
    /// What is needed where these ends are enough. The least number in a lane says that any end is enough there.
    #[inline(always)]
    pub(crate) fn of(enough: Ends) -> Needed
        ensures { needed_ends result ≡ enough }
    {
        if enough.below == i64::MIN {
            Needed::One(End::Above, enough.above)
        } else if enough.above == i64::MIN {
            Needed::One(End::Below, enough.below)
        } else {
            Needed::Both(enough)
        }
    }

    /// The ends in lanes.
    #[inline(always)]
    pub(crate) fn ends(self) -> Ends
        ensures { result ≡ needed_ends self }
    {
        match self {
            Needed::Both(e) => e,
            Needed::One(End::Below, x) => Ends {
                below: x,
                above: i64::MIN,
            },
            Needed::One(End::Above, x) => Ends {
                below: i64::MIN,
                above: x,
            },
        }
    }
}
