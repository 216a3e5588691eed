//! The words of the command line, given to `run`, and the exit status.

ghost use Rattle.std.specs.IoError.{error_kind};
ghost use Rattle.std.specs.Prelude.{◌≡◌, ◌≢◌, ◌↔◌, Ok, Err, drop, IfOk, IsErr, MatchResult};
ghost use Rattle.std.specs.Vec.Iter.{into_iter_items};
ghost use Rattle.ts_cli.specs.Ends.{no_words_code};
ghost use Rattle.ts_run.specs.Commands.{command_of, words_in};
ghost use Rattle.ts_run.specs.Endings.{RunEnds, sink_tells, source_tells};
ghost use Rattle.ts_run.specs.Reply.{status_code};
ghost use Rattle.ts_run.specs.declared.status.Status.{Status};

use std::alloc::Global;
use std::env::Args;
use std::io::{self, ErrorKind};
use ts_base::{Sink, Source};
use ts_run::run;

/// Why there are no words to go by.
#[derive(Clone, Copy, Debug, PartialEq, Eq)]
pub enum NoWords {
    Memory,
    Unreadable,
}

impl NoWords {
    /// The exit status: 6 as without memory in `run`, or 7, which `run` never ends with.
    fn code(self) -> u8
        ensures { result ≡ no_words_code self }
    {
        match self {
            NoWords::Memory => 6,
            NoWords::Unreadable => 7,
        }
    }
}

/// The words of the command line without the program's name. `Unreadable` comes exactly where the runtime gives an
/// error in their place that isn't lack of memory.
pub fn words_of(alloc: Global, args: io::Result<Args>) -> Result<Vec<String>, NoWords>
    ensures words { IfOk result (λ words.
        MatchResult args (λ given. words.items ≡ drop 1 (into_iter_items given)) (λ _. ⊥)) }
    ensures unreadable { (result ≡ Err NoWords.Unreadable)
        ↔ MatchResult args (λ _. ⊥) (λ e. error_kind e ≢ ErrorKind.OutOfMemory) }
{
    match args {
        Ok(args) => without_name(alloc, args),
        Err(error) if error.kind() == ErrorKind::OutOfMemory => Err(NoWords::Memory),
        Err(_) => Err(NoWords::Unreadable),
    }
}

/// The words after the first, which is the program's name.
fn without_name(alloc: Global, args: Args) -> Result<Vec<String>, NoWords>
    ensures words { IfOk result (λ words. words.items ≡ drop 1 (into_iter_items args)) }
    ensures memory { result ≢ Err NoWords.Unreadable }
{
    match args.skip(1).collect(alloc) {
        Ok(words) => Ok(words),
        Err(_) => Err(NoWords::Memory),
    }
}

/// Does what the words ask for by `run`, and gives the exit status: that of the call, which ends as `run` promises, or
/// without words 6 or 7, with nothing read and nothing written.
pub fn respond<S: Source, K: Sink>(
    alloc: Global,
    words: Result<Vec<String>, NoWords>,
    source: &mut S,
    sink: &mut K,
) -> u8
    ensures answer { MatchResult words
        (λ given. (status : Status) × (result ≡ status_code status)
        × RunEnds (source_tells S.left S.source_faults S.source_broken S.source_ends)
        (sink_tells K.taken K.sink_faults K.sink_broken K.finished K.finishes)
        (command_of (words_in given.items)) source.old source.new sink.old sink.new status)
        (λ none. result ≡ no_words_code none) }
    ensures silent { IsErr words → (source.new ≡ source.old) × (sink.new ≡ sink.old) }
{
    match words {
        Ok(words) => run(alloc, &words, source, sink).code(),
        Err(none) => none.code(),
    }
}
