//! What is known of an expression.

ghost use Rattle.std.specs.Prelude.{◌≡◌};
ghost use Rattle.ts_forms.specs.Nodes.{left_on, left_with, words_cat, words_alt, words_star};

use ts_base::Letter;

/// Which words an expression has, and the numbers of its normal form and of what a letter leaves, as far as they were
/// asked for.
#[derive(Clone, Copy, Debug, PartialEq, Eq)]
pub struct Known {
    /// The empty word is a word.
    pub nullable: bool,
    /// There is a word.
    pub some: bool,
    /// There is a word of at least one letter.
    pub longer: bool,
    pub normal: Option<usize>,
    pub less: Option<usize>,
    pub equal: Option<usize>,
    pub greater: Option<usize>,
}

/// No word, and nothing was asked for.
pub(crate) const NO_WORD: Known = Known {
    nullable: false,
    some: false,
    longer: false,
    normal: None,
    less: None,
    equal: None,
    greater: None,
};

impl Known {
    /// The number of what the letter leaves, if it was asked for.
    pub(crate) fn on(&self, letter: Letter) -> Option<usize>
        ensures { result ≡ left_on letter self.now }
    {
        match letter {
            Letter::Less => self.less,
            Letter::Equal => self.equal,
            Letter::Greater => self.greater,
        }
    }

    /// This, with the number of what the letter leaves.
    pub(crate) fn with(self, letter: Letter, left: usize) -> Known
        ensures { result ≡ left_with self letter left }
    {
        match letter {
            Letter::Less => Known {
                less: Some(left),
                ..self
            },
            Letter::Equal => Known {
                equal: Some(left),
                ..self
            },
            Letter::Greater => Known {
                greater: Some(left),
                ..self
            },
        }
    }

    /// Which words one has that is this followed by another.
    pub(crate) fn followed_by(self, other: Known) -> Known
        ensures { result ≡ words_cat self other }
    {
        Known {
            nullable: self.nullable && other.nullable,
            some: self.some && other.some,
            longer: (self.longer && other.some) || (self.some && other.longer),
            ..NO_WORD
        }
    }

    /// Which words one has that is this or another.
    pub(crate) fn or(self, other: Known) -> Known
        ensures { result ≡ words_alt self other }
    {
        Known {
            nullable: self.nullable || other.nullable,
            some: self.some || other.some,
            longer: self.longer || other.longer,
            ..NO_WORD
        }
    }

    /// Which words one has that is this any number of times.
    pub(crate) fn any_times(self) -> Known
        ensures { result ≡ words_star self }
    {
        Known {
            nullable: true,
            some: true,
            longer: self.longer,
            ..NO_WORD
        }
    }
}
