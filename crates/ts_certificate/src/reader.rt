//! The reader of a certificate, line by line.

ghost use Rattle.std.specs.Prelude.{◌≡◌, ◌≢◌, ◌≤◌, Ok, Err, MatchResult, Some, None};
ghost use Rattle.ts_base.specs.Limits.{too_many};
ghost use Rattle.ts_certificate.specs.declared.stop.CertStop.{CertStop};
ghost use Rattle.ts_certificate.specs.Reading.{WantsSeries, fresh, reading_with, answer_to, end_stop};
ghost use Rattle.ts_certificate.specs.Seen.{line_seen, Tells};

use crate::certificate::Parsed;
use crate::line::line_of;
use crate::state::{State, next_state};
use crate::stop::{CertStop, LineStop, stop_at};
use std::alloc::Global;
use std::marker::Model;

/// Reads a certificate line by line, each line once, and keeps none. Contracts see where the certificate stands, the
/// number of the next line, and the stop, once there is one.
#[derive(Drop)]
pub struct LineReader {
    state: State,
    next: u32,
    stop: Option<CertStop>,
}

impl Model for LineReader {
    ghost use Rattle.std.specs.Prelude.{◌≢◌, ◌<◌, Some};
    ghost use Rattle.ts_certificate.specs.declared.stop.CertStop.TheVariants.{Memory as NoMemory};
    ghost use Rattle.ts_certificate.specs.Reading.{Reading, tree_lines};

    ghost Value = { Reading };

    ghost view = { λ r. record { state = r.state; next = r.next; stop = r.stop } };

    ghost invariant = { λ r. (tree_lines r.state < r.next) × (r.stop ≢ Some NoMemory) };
}

impl LineReader {
    /// Before the first line.
    pub fn new() -> LineReader
        ensures { result ≡ fresh }
    {
        LineReader {
            state: State::Start,
            next: 1,
            stop: None,
        }
    }

    /// The number of the next line, counted from 1; after a stop, that of the line that was refused.
    pub fn next_line(&self) -> u32
        ensures { result ≡ self.now.next }
    {
        self.next
    }

    /// The stop, once a line was refused.
    pub fn stop(&self) -> Option<CertStop>
        ensures { result ≡ self.now.stop }
    {
        self.stop
    }

    /// Reads the next line, given with its LF, where fewer than 4,000,000,000 were read so far. The first line against
    /// the grammar is `Text`, an end line with other counts `CountDiffers`; each further line gets the same stop.
    /// `Memory` comes only where a series line is to come, and the reader is then as before.
    pub fn line(&mut self, alloc: Global, text: &[u8]) -> Result<Parsed, CertStop>
        requires { self.old.next ≤ too_many }
        ensures answer { Tells line_seen result (answer_to self.old text.now) }
        ensures reading { result ≢ Err CertStop.Memory → self.new ≡ reading_with self.old text.now }
        ensures kept { result ≡ Err CertStop.Memory → self.new ≡ self.old }
        ensures want { result ≡ Err CertStop.Memory → (WantsSeries self.old.state × (self.old.stop ≡ None)) }
    {
        if let Some(stop) = self.stop {
            return Err(stop);
        }
        match line_of(alloc, self.state, text) {
            Ok(parsed) => {
                self.state = next_state(self.state, &parsed);
                self.next += 1;
                Ok(parsed)
            }
            Err(LineStop::Memory) => Err(CertStop::Memory),
            Err(stop) => {
                let stop = stop_at(self.next, stop);
                self.stop = Some(stop);
                Err(stop)
            }
        }
    }

    /// The end of the text: the stop, if there was one, or `Text` with the number of its lines plus 1 where the end
    /// line is missing. Never `Memory`.
    pub fn finish(&self) -> Result<(), CertStop>
        ensures stop { MatchResult result (λ _. end_stop self.now ≡ None) (λ stop. end_stop self.now ≡ Some stop) }
        ensures calm { result ≢ Err CertStop.Memory }
    {
        if let Some(stop) = self.stop {
            return Err(stop);
        }
        match self.state {
            State::AfterEnd => Ok(()),
            _ => Err(CertStop::Text { line: self.next }),
        }
    }
}
