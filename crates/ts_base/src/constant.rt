//! The constants with which a fold of numbers begins.

ghost use Rattle.std.specs.Prelude.{◌≡◌};
ghost use Rattle.ts_base.specs.Operators.{constant_value};

use crate::ext::Ext;

/// 0, 1 or an infinity.
#[derive(Clone, Copy, Debug, PartialEq, Eq)]
pub enum Constant {
    Zero,
    Unit,
    NegInf,
    PosInf,
}

impl Constant {
    /// Its value.
    pub fn value(self) -> Ext
        ensures { result ≡ constant_value self }
    {
        match self {
            Constant::Zero => Ext::Int(0),
            Constant::Unit => Ext::Int(1),
            Constant::NegInf => Ext::NegInf,
            Constant::PosInf => Ext::PosInf,
        }
    }
}
