//! Plans that are built: of peak, of a table that is wrong in one move, and at the limit of 512 configurations.

use super::expressions::{letters, regex};
use super::validated::{State, configurations, transducer};
use std::alloc::Global;
use ts_base::{Kind, Memory};
use ts_pattern::{Configuration, Pattern, Plan};
use ts_transducer::Phase;
use ts_user::{BuildStop, build_plan};

/// What there is of a transducer and a pattern.
#[derive(Clone, Copy)]
enum Answer {
    /// A plan with this many residuals and with these configurations, as `validated` writes them.
    Listed(usize, &'static str),
    /// A check fails at the end of this signature.
    Refused(&'static str),
    /// More than 512 configurations are reached.
    TooMany,
}

struct Built {
    /// The expression, with `.` for a chain, `|` for a union and `*` for a star after their parts.
    pattern: &'static str,
    /// The trims before and after.
    b: u8,
    a: u8,
    rows: &'static [State],
    answer: Answer,
}

const PEAK: &str = "<=<|*>=|*>...";

/// A rise, eight signs, and another rise.
const FAR_APART: &str = "<<=|>|<=|>|<=|>|<=|>|<=|>|<=|>|<=|>|<=|>|<.........";

const IDLE: State = (
    Kind::Idle,
    (Phase::Out, 0),
    (Phase::Out, 0),
    (Phase::Out, 0),
);

const RISING: State = (
    Kind::Idle,
    (Phase::Out, 1),
    (Phase::Out, 0),
    (Phase::Out, 0),
);

/// A state that goes to the second state on every sign.
const LEAVING: State = (
    Kind::Idle,
    (Phase::Out, 1),
    (Phase::Out, 1),
    (Phase::Out, 1),
);

const PENDING: State = (
    Kind::Pending,
    (Phase::MaybeB, 1),
    (Phase::MaybeB, 1),
    (Phase::Found, 2),
);

/// The catalogue's table of peak, with its plan; the same where a rise after a peak is taken for no rise; and two
/// patterns under transducers that find nothing. There a configuration says at which of the last signs a match may
/// have begun: with eight signs between two `<` there are 512 when the first match ends, one more where the first
/// state is another one than the state of all others, and with nine signs there are still more.
const BUILT: [Built; 5] = [
    Built {
        pattern: PEAK,
        b: 1,
        a: 1,
        rows: &[
            RISING,
            PENDING,
            (
                Kind::Held,
                (Phase::OutA, 1),
                (Phase::MaybeA, 2),
                (Phase::Inside, 2),
            ),
        ],
        answer: Answer::Listed(5, "0 11u 11d 12d 23c 24c"),
    },
    Built {
        pattern: PEAK,
        b: 1,
        a: 1,
        rows: &[
            RISING,
            PENDING,
            (
                Kind::Held,
                (Phase::OutA, 0),
                (Phase::MaybeA, 2),
                (Phase::Inside, 2),
            ),
        ],
        answer: Answer::Refused("<><>"),
    },
    Built {
        pattern: FAR_APART,
        b: 0,
        a: 0,
        rows: &[IDLE],
        answer: Answer::Refused("<<<<<<<<<<"),
    },
    Built {
        pattern: FAR_APART,
        b: 0,
        a: 0,
        rows: &[LEAVING, LEAVING],
        answer: Answer::TooMany,
    },
    Built {
        pattern: "<<>|<>|<>|<>|<>|<>|<>|<>|<>|<..........",
        b: 0,
        a: 0,
        rows: &[IDLE],
        answer: Answer::TooMany,
    },
];

fn are_same(found: &[Configuration], wanted: &[Configuration]) -> bool {
    if found.len() != wanted.len() {
        return false;
    }
    for k in 0..wanted.len() {
        let same = found[k].live.as_slice() == wanted[k].live.as_slice();
        if !same || found[k].state != wanted[k].state {
            return false;
        }
    }
    true
}

fn is_answer(
    alloc: Global,
    found: Result<Plan, BuildStop>,
    answer: Answer,
) -> Result<bool, Memory> {
    match (found, answer) {
        (Ok(plan), Answer::Listed(residuals, written)) => {
            let wanted = configurations(alloc, written)?;
            Ok(plan.residuals.len() == residuals && are_same(&plan.configurations, &wanted))
        }
        (Err(BuildStop::Refused { signature }), Answer::Refused(signs)) => {
            Ok(signature.as_slice() == letters(alloc, signs.as_bytes())?.as_slice())
        }
        (Err(BuildStop::TooMany), Answer::TooMany) => Ok(true),
        _ => Ok(false),
    }
}

fn built_holds(alloc: Global, built: &Built) -> Result<bool, Memory> {
    let pattern = Pattern {
        regex: regex(alloc, built.pattern.as_bytes())?,
        b: built.b,
        a: built.a,
    };
    match transducer(built.rows) {
        Some(t) => is_answer(alloc, build_plan(alloc, &t, &pattern), built.answer),
        None => Ok(false),
    }
}

#[test]
fn plans_are_as_worked_out(rt: HostRuntime) {
    for built in &BUILT {
        assert!(rt;
            built_holds(rt.alloc(), built) == Ok(true),
            "{}",
            built.pattern
        );
    }
}
