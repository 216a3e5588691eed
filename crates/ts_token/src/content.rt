//! What a single line holds.

ghost use Rattle.std.specs.Prelude.{◌≡◌, ◌<◌, length};
ghost use Rattle.ts_base.specs.Limits.{too_many};
ghost use Rattle.ts_token.specs.Gist.{without_end};
ghost use Rattle.ts_token.specs.Text.{is_plain, is_text};
ghost use Rattle.ts_token.specs.Contents.{Holds};

use crate::lines::first_line;
use crate::words::next_word;

/// A line that isn't text, one that is skipped, or the bytes of another one without its end.
#[derive(Clone, Copy, Debug)]
pub enum Content<'a> {
    NotText,
    Skipped,
    Words(&'a [u8]),
}

/// All bytes are from ` ` to `~`, or tabs.
pub(crate) fn is_text(line: &[u8]) -> bool
    ensures { result ≡ is_text line.now }
{
    line.iter().all(|b| is_plain(*b))
}

/// From ` ` to `~`, or a tab.
#[tactic(auto, unfolding(crate::specs::Text::is_plain))]
pub(crate) fn is_plain(b: u8) -> bool
    ensures { result ≡ is_plain b }
{
    b >= b' ' && b <= b'~' || b == b'\t'
}

/// What a line without its end holds.
pub(crate) fn content_of<'a>(line: &'a [u8]) -> Content<'a>
    requires { length line.now < too_many }
    ensures { Holds result line.now }
{
    if !is_text(line) {
        return Content::NotText;
    }
    let Some(first) = next_word(line, 1) else {
        return Content::Skipped;
    };
    if first.word.text.first() == Some(&b'#') {
        return Content::Skipped;
    }
    Content::Words(line)
}

/// What a line of fewer than 4,000,000,000 bytes holds; it is given with its LF, which a last line may lack. Nothing is
/// allocated.
pub fn line_content<'a>(line: &'a [u8]) -> Content<'a>
    requires { length line.now < too_many }
    ensures { Holds result (without_end line.now) }
{
    if line.is_empty() {
        return Content::Skipped;
    }
    let (bare, _) = first_line(line);
    content_of(bare)
}
