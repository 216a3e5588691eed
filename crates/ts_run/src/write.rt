//! The one place where a whole reply is written.

ghost use Rattle.std.specs.Prelude.{◌≡◌, ◌≢◌};
ghost use Rattle.ts_run.specs.Reply.{Ends, EndsWritten};
ghost use Rattle.ts_run.specs.Well.{WritesWell};

use crate::status::Status;
use ts_base::{Sink, write_all};

/// Writes the whole text and finishes once: the call then ends with `status`, or with a fault where one was counted.
/// After a write that failed nothing more is asked of the sink.
pub fn write_reply<K: Sink>(sink: &mut K, text: &[u8], status: Status) -> Status
    requires { EndsWritten status }
    ensures ends { Ends (record { text = text.now; status = status }) (K.taken sink.old) (K.taken sink.new) result }
    ensures written { EndsWritten result → result ≡ status }
    ensures writes { WritesWell K.sink_faults K.sink_broken K.finished K.finishes sink.old sink.new result }
    ensures some { result ≢ Status.Memory }
{
    if write_all(sink, text).is_err() {
        return Status::WriteFault;
    }
    if sink.finish().is_err() {
        return Status::WriteFault;
    }
    status
}
