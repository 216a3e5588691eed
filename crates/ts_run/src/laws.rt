//! What holds of the replies, for every input.

ghost use Rattle.ts_run.specs.AnswerTexts.{DoneIsAccepted, DoneIsMeets};
ghost use Rattle.ts_run.specs.AnswerTexts.{OneBestReply, OneCheckReply, OneCompileReply, OneListReply, OneVerifyReply};
ghost use Rattle.ts_run.specs.FirstBad.{ReadingsEndAtFirstBad};
ghost use Rattle.ts_run.specs.MarkReply.{OneMarkReply};
ghost use Rattle.ts_run.specs.Sample.{FewCellsAreDone, OneSampleReply};

/// `check` has one reply to an input.
pub fn one_check_reply()
    ensures { OneCheckReply }
{}

/// `compile` has one reply to an input.
pub fn one_compile_reply()
    ensures { OneCompileReply }
{}

/// Of a model and a series, the reply of `check` is `meets` exactly where the series meets the model.
pub fn done_is_meets()
    ensures { DoneIsMeets }
{}

/// `verify` has one reply to an input.
pub fn one_verify_reply()
    ensures { OneVerifyReply }
{}

/// Of a model and a certificate, the reply of `verify` is `accepted` exactly where the certificate is accepted.
pub fn done_is_accepted()
    ensures { DoneIsAccepted }
{}

/// `maximise` and `minimise` have one reply to an input.
pub fn one_best_reply()
    ensures { OneBestReply }
{}

/// `generate` has one reply to an input.
pub fn one_list_reply()
    ensures { OneListReply }
{}

/// `sample` has one reply, whatever the search does, since its tree leaves no line to choose.
pub fn one_sample_reply()
    ensures { OneSampleReply }
{}

/// `sample` of up to 6 cells never runs out of lines.
pub fn few_cells_are_done()
    ensures { FewCellsAreDone }
{}

/// `mark` has one reply to an input.
pub fn one_mark_reply()
    ensures { OneMarkReply }
{}

/// The line that `watch` refuses is the first bad one of all lines, and the readings are those of the lines before it.
pub fn readings_end_at_first_bad()
    ensures { ReadingsEndAtFirstBad }
{}
