//! The words of a text, borrowed from it.
//!
//! `cut_tokens` cuts a text into lines and words, and `cut_parts` cuts it at the line `%%`; both lend slices
//! of the text and copy no byte. `number` and `ext_of` read a word. What stands above reads words and never bytes: it
//! knows of each word its bytes, its column and the number of its line, and which line first isn't text.
//!
//! A text that comes in pieces is read line by line: a `ShortLine` keeps those bytes of a line that tell what it holds,
//! `line_content` tells it, and `next_word` gives its words one by one, so that a long line takes no memory.
//!
//! ```text
//! let parts = cut_parts(b"cells 4\r\n%%\nseries 1 2 3 4\n");
//! let tokens = cut_tokens(alloc, parts.model)?;
//! number(tokens.lines[0].words[1].text) // Some(4)
//! ```
#![tactic(auto)]

mod content;
mod lines;
mod numbers;
mod parts;
mod short;
mod single;
mod tokens;
mod words;

pub use content::{Content, line_content};
pub use numbers::{ext_of, number};
pub use parts::{Parts, cut_parts};
pub use short::ShortLine;
pub use single::{Single, single_word};
pub use tokens::{Line, Tokens, cut_tokens};
pub use words::{NextWord, Word, count_words, first_words, is_word, next_word};
