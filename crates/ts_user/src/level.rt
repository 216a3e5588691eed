//! A bracket level of an expression that is read from its end.

ghost use Rattle.std.specs.Prelude.{◌≡◌, List, option_map, IfOk};
ghost use Rattle.ts_user.specs.FromTheEnd.{Within, blank_level, with_atom, repeated, closed, repeat_read, or_read};
ghost use Rattle.ts_user.specs.Expressions.{part_of, within_of, at_level};

use crate::part::Part;
use crate::symbol::Repeat;
use std::alloc::Global;
use ts_base::Memory;

/// What has been read of a bracket level: the sign that repeats the atom to come, the sequence after it up to the next
/// `|`, and the choices after that.
#[derive(Drop)]
pub(crate) struct Level {
    pub repeat: Option<Repeat>,
    pub sequence: Option<Part>,
    pub choices: Option<Part>,
}

/// The part as often as the sign says.
fn repeated(alloc: Global, most: usize, repeat: Option<Repeat>, part: Part) -> Result<Part, Memory>
    ensures { IfOk result (λ p. part_of p ≡ repeated most repeat (part_of part)) }
{
    match repeat {
        None => Ok(part),
        Some(Repeat::AnyTimes) => part.any_times(alloc, most),
        Some(Repeat::OnceOrMore) => part.once_or_more(alloc, most),
    }
}

impl Level {
    /// Nothing has been read.
    pub(crate) fn new() -> Level
        ensures { within_of result ≡ blank_level }
    {
        Level {
            repeat: None,
            sequence: None,
            choices: None,
        }
    }

    /// An atom was read.
    pub(crate) fn with_atom(self, alloc: Global, most: usize, atom: Part) -> Result<Level, Memory>
        ensures { IfOk result (λ x. within_of x ≡ with_atom most (part_of atom) (within_of self)) }
    {
        let Level {
            repeat,
            sequence,
            choices,
        } = self;
        let part = repeated(alloc, most, repeat, atom)?;
        let sequence = match sequence {
            None => part,
            Some(behind) => part.followed_by(alloc, most, behind)?,
        };
        Ok(Level {
            repeat: None,
            sequence: Some(sequence),
            choices,
        })
    }

    /// A repeat sign was read, which no other may follow.
    pub(crate) fn with_repeat(self, repeat: Repeat) -> Option<Level>
        ensures { (outer : List Within) →
            option_map (at_level outer) result ≡ repeat_read repeat self.repeat (at_level outer self) }
    {
        if self.repeat.is_some() {
            return None;
        }
        let Level {
            sequence,
            choices,
            ..
        } = self;
        Some(Level {
            repeat: Some(repeat),
            sequence,
            choices,
        })
    }

    /// `|` was read, at which a sequence is complete.
    pub(crate) fn with_or(self, alloc: Global, most: usize) -> Result<Option<Level>, Memory>
        ensures { IfOk result (λ x. (outer : List Within) →
            option_map (at_level outer) x ≡ or_read (closed most (within_of self)) outer) }
    {
        match self.closed(alloc, most)? {
            None => Ok(None),
            Some(choices) => Ok(Some(Level {
                repeat: None,
                sequence: None,
                choices: Some(choices),
            })),
        }
    }

    /// The expression of the level, of which all is read; None where nothing stands before a `|` or a repeat sign.
    pub(crate) fn closed(self, alloc: Global, most: usize) -> Result<Option<Part>, Memory>
        ensures { IfOk result (λ p. option_map part_of p ≡ closed most (within_of self)) }
    {
        let Level {
            repeat,
            sequence,
            choices,
        } = self;
        match (repeat, sequence, choices) {
            (None, Some(part), None) => Ok(Some(part)),
            (None, Some(part), Some(choices)) => Ok(Some(part.or(alloc, most, choices)?)),
            _ => Ok(None),
        }
    }
}
