//! What the verdict of a checker and the end of a verifier mean, as laws of the definitions.

ghost use Rattle.ts_checker.specs.Laws.{AcceptedIsTrue, NoneChecked, OneEnd, OneFailed, OneVerdict};

/// What is accepted is true of the model: of every certificate, whoever wrote it.
pub fn accepted_is_true()
    ensures { AcceptedIsTrue }
{}

/// A certificate of fewer than 2^62 lines has one verdict.
pub fn one_verdict()
    ensures { OneVerdict }
{}

/// The end of an input of fewer than 2^62 bytes is determined by its bytes: the definition leaves nothing open.
pub fn one_end()
    ensures { OneEnd }
{}

/// The first failing line of an input of fewer than 2^62 bytes, or that none has failed, is determined by its bytes.
pub fn one_failed()
    ensures { OneFailed }
{}

/// A checker that was fed no line has checked none.
pub fn none_checked()
    ensures { NoneChecked }
{}
