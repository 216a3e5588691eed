//! Hulls as a sweep sees them: what can be joined.

ghost use Rattle.std.specs.Prelude.{◌≡◌};

/// What a sweep joins. The join is associative, commutative and idempotent; a running hull begins with nothing.
pub trait Hull: Copy {
    /// The join.
    ghost both: { Self → Self → Self };

    /// Nothing.
    ghost none: { Self };

    /// The hull that changes no other one.
    fn nothing() -> Self
        ensures { result ≡ none };

    /// The join of both hulls.
    fn joined(self, other: Self) -> Self
        ensures { result ≡ both self other };

    ghost associative: { (a b c : Self) → both (both a b) c ≡ both a (both b c) };

    ghost commutative: { (a b : Self) → both a b ≡ both b a };

    ghost idempotent: { (a : Self) → both a a ≡ a };
}
