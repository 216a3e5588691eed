//! Texts both ways and their size, as laws of the definitions.

ghost use Rattle.ts_certificate.specs.Laws.{LineIsRead, ReadingIsFirst, FirstIsHeld, EndIsMissed, StopStays};
ghost use Rattle.ts_certificate.specs.Laws.{WrittenIsRead, ReadIsWritten, OneCertificate, TextIsShort, TextFits};

/// What the reader makes of a line is what the line is: the text of a line that may come there, an end line with
/// another count, or neither.
pub fn line_is_read()
    ensures { LineIsRead }
{}

/// The reader takes lines as long as they are lines of a certificate. The first that isn't one is the stop, which
/// stays; an end line that is missing counts as the line after the last.
pub fn reading_is_first()
    ensures reading { ReadingIsFirst }
    ensures first { FirstIsHeld }
    ensures missing { EndIsMissed }
    ensures stays { StopStays }
{}

/// What is written for a certificate is read as that certificate.
pub fn written_is_read()
    ensures { WrittenIsRead }
{}

/// A text that is read to its end is the text of a certificate, and is read as it.
pub fn read_is_written()
    ensures { ReadIsWritten }
{}

/// Two certificates with one text are one.
pub fn one_certificate()
    ensures { OneCertificate }
{}

/// Each certificate that a solving command can write fits, after its model, what `verify` reads.
pub fn text_fits()
    ensures short { TextIsShort }
    ensures fits { TextFits }
{}
