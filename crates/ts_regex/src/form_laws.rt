//! The law of normal forms that no call carries.

ghost use Rattle.ts_regex.specs.Shape.{Shape};
ghost use Rattle.ts_regex.specs.NormalForm.{members, normal_form};
ghost use Rattle.ts_regex.specs.Rising.{AreRising};

/// The members of a normal form come in strictly rising order: each comes before the next.
#[tactic(auto, using(crate::proofs::Rising::form_rising))]
pub fn members_rise()
    ensures { (r : Shape) → AreRising (members (normal_form r)) }
{}
