//! What holds of the definitions of pattern texts, for every text.

ghost use Rattle.std.specs.Prelude.{◌≡◌, ◌≤◌, ◌↔◌, ℕ, List, true, Option, Some, Result};
ghost use Rattle.ts_regex.specs.Shape.{Shape};
ghost use Rattle.ts_token.specs.Text.{Cut};
ghost use Rattle.ts_user.specs.declared.user_stop.UserKind.{UserKind};
ghost use Rattle.ts_user.specs.Grammar.{Whole, Means};
ghost use Rattle.ts_user.specs.FromTheEnd.{expression_of, IsExpression};
ghost use Rattle.ts_user.specs.Shortest.{has_short_word, HasShortWord};
ghost use Rattle.ts_user.specs.Stated.{Described};
ghost use Rattle.ts_user.specs.PatternReading.{IsReading, pattern_in};

/// What is read from the end of a word is an expression of the grammar exactly where the word is one.
pub fn expression_is_of_the_grammar()
    ensures { (word : List ℕ) (p : Option Shape) → (expression_of word ≡ Some p) ↔ IsExpression word p }
{}

/// A word is one expression at most.
pub fn one_expression()
    ensures { (word : List ℕ) (r s : Shape) → Means Whole word r → Means Whole word s → r ≡ s }
{}

/// Whether there is a short word is answered exactly, for trims in their ranges.
pub fn short_words_are_found()
    ensures { (p : Shape) (b a : ℕ) → b ≤ 2 → a ≤ 1 → (has_short_word p b a ≡ true) ↔ HasShortWord p b a }
{}

/// The reading is the pattern that the lines state, or the first bad line with the first kind that holds of it.
pub fn reading_is_first()
    ensures { (c : Cut) → IsReading c (pattern_in c) }
{}

/// A text has one reading.
pub fn one_reading()
    ensures { (c : Cut) (r s : Result Described (ℕ × UserKind)) → IsReading c r → IsReading c s → r ≡ s }
{}
