//! The top of the program: from the words of a command and the bytes of its input to a text and a status.
//!
//! `run` reads its input through a `Source`, makes the whole reply in memory, and writes it through a `Sink`; `watch`
//! alone writes as it reads. What is replied is a definition over the bytes; a fault is reported only where one was
//! counted.
//!
//! ```text
//! let status = run(alloc, &words, &mut StdIn::new(reader), &mut StdOut::new(writer));
//! status.code()   // 0 to 6
//! ```
//!
//! A command says how it takes its input. One that takes the whole is a function from bytes to a reply, as `check`
//! and `maximise` are, and knows of no source and no sink: a new one is a word, a relation between bytes and reply, and
//! that function. The bytes go in pieces to an intake, which keeps them for these commands. That of `verify` checks
//! them as they come and keeps none of its lines. One that answers a stream is a `Live`: of each piece of its input it
//! says what is owed, and one loop writes that before it reads on.
//!
//! A number among the words of a command is a `Budget`, a `Count` or a number of `Cells`: each keeps its range, and is
//! read from a word exactly where the word writes a number within it.
#![tactic(auto)]

mod best;
mod call;
mod certified;
mod check;
mod command;
mod compile;
mod generate;
mod intake;
mod laws;
mod live;
mod mark;
mod parts;
mod quantity;
mod readings;
mod refusal;
mod reply;
mod reply_to;
mod sample;
mod sampling;
mod status;
mod stream;
mod verdict;
mod verify;
mod watch;
mod write;

pub use call::{run, run_over_never};
pub use laws::{
    done_is_accepted, done_is_meets, few_cells_are_done, one_best_reply, one_check_reply,
    one_compile_reply, one_list_reply, one_mark_reply, one_sample_reply, one_verify_reply,
    readings_end_at_first_bad,
};
pub use quantity::{Budget, Cells, Count};
pub use sampling::sample_model;
pub use status::Status;
