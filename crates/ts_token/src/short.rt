//! A line without the bytes that its reader can't ask for.

ghost use Rattle.std.specs.Prelude.{ℕ, ◌≡◌, ◌<◌, ◌≤◌, List, [], ◌∷◌, true, false, length, OnErr, OnOk};
ghost use Rattle.ts_base.specs.Limits.{too_many};
ghost use Rattle.ts_token.specs.Gist.{StandsFor};
ghost use Rattle.ts_token.specs.Halves.{is_separator};
ghost use Rattle.ts_token.specs.Places.{blank_place, solid_place, text_place, place_after};
ghost use Rattle.ts_token.specs.Short.{IsShort, TakesFirst, TakesIn, most_of};

use crate::content::is_plain;
use crate::parts;
use crate::words::is_blank;
use std::alloc::Global;
use ts_base::Memory;

/// No more bytes of a word are kept.
const MOST_KEPT: usize = 64;

/// Where the bytes of a line have led.
#[derive(Clone, Copy)]
pub(crate) enum Place {
    /// Before the first byte.
    Start,
    /// After blanks alone.
    Margin,
    /// After a blank that follows a word.
    Blank,
    /// In a word, of which so many bytes are kept.
    Word(usize),
    /// In a comment.
    Comment,
    /// After a CR, which is text only right before the LF.
    Return,
    /// After a byte that isn't text.
    NotText,
    /// After the LF.
    Ended,
}

/// The place after a blank; None where the blank adds nothing.
fn blank_place(place: Place) -> Option<Place>
    ensures { result ≡ blank_place place }
{
    match place {
        Place::Start => Some(Place::Margin),
        Place::Word(_) => Some(Place::Blank),
        _ => None,
    }
}

/// The place after another byte of text; None where the byte adds nothing.
fn solid_place(place: Place, byte: u8) -> Option<Place>
    ensures { result ≡ solid_place place byte }
{
    match place {
        Place::Start | Place::Margin => {
            if byte == b'#' {
                Some(Place::Comment)
            } else {
                Some(Place::Word(1))
            }
        }
        Place::Blank => Some(Place::Word(1)),
        Place::Word(count) => {
            if count < MOST_KEPT {
                Some(Place::Word(count + 1))
            } else {
                None
            }
        }
        _ => None,
    }
}

/// The place of a line that was text so far after a byte that is no LF; None where the byte adds nothing.
fn text_place(place: Place, byte: u8) -> Option<Place>
    ensures { result ≡ text_place place byte }
{
    if byte == b'\r' {
        return Some(Place::Return);
    }
    if !is_plain(byte) {
        return Some(Place::NotText);
    }
    if is_blank(byte) {
        blank_place(place)
    } else {
        solid_place(place, byte)
    }
}

/// The place after one more byte; None where the byte adds nothing.
fn place_after(place: Place, byte: u8) -> Option<Place>
    ensures { result ≡ place_after place byte }
{
    if byte == b'\n' {
        return Some(Place::Ended);
    }
    match place {
        Place::Ended => Some(Place::Ended),
        Place::NotText => None,
        Place::Return => Some(Place::NotText),
        _ => text_place(place, byte),
    }
}

/// A line as far as its bytes came. Of blanks that follow one another the first is kept, of a word the first 64 bytes,
/// of a comment its `#`, and nothing between a byte that isn't text and the LF. What is kept stands for the whole line.
/// Long words, comments and blanks so take little memory, but a line of many words is kept nearly whole: a reader may
/// ask for each of them.
#[derive(Drop)]
pub struct ShortLine {
    kept: Vec<u8>,
    place: Place,
}

impl ShortLine {
    /// Before the first byte.
    pub fn new(alloc: Global) -> ShortLine
        ensures { IsShort [] result }
    {
        ShortLine {
            kept: Vec::new(alloc),
            place: Place::Start,
        }
    }

    /// Takes more bytes of the line, whose LF may be the last of them. After `Memory` some first bytes of these have
    /// come, and the line can be cleared.
    pub fn feed(&mut self, bytes: &[u8]) -> Result<(), Memory>
        ensures taken { OnOk result (TakesIn self.old bytes.now self.new) }
        ensures first { OnErr result (TakesFirst self.old bytes.now self.new) }
    {
        for byte in bytes {
            self.take(*byte)?;
        }
        Ok(())
    }

    /// What is kept, with the end of the line where that came.
    pub fn bytes(&self) -> &[u8]
        ensures stands { (line : List ℕ) → IsShort line self.now → StandsFor result.now line }
        ensures few { (line : List ℕ) → IsShort line self.now → length result.now ≤ most_of line }
        ensures short { (line : List ℕ) → IsShort line self.now → length result.now ≤ length line }
    {
        &self.kept
    }

    /// No byte came.
    pub fn is_empty(&self) -> bool
        ensures none { result ≡ true → (line : List ℕ) → IsShort line self.now → line ≡ [] }
        ensures some { result ≡ false → (line : List ℕ) → IsShort line self.now → 0 < length line }
    {
        self.kept.is_empty()
    }

    /// Whether `%%` is the only word of the line, which has fewer than 4,000,000,000 bytes.
    pub fn is_separator(&self) -> bool
        requires { (line : List ℕ) × IsShort line self.now × (length line < too_many) }
        ensures { (line : List ℕ) → IsShort line self.now → result ≡ is_separator line }
    {
        if self.kept.is_empty() {
            return false;
        }
        parts::is_separator(&self.kept)
    }

    /// Forgets the line.
    pub fn clear(&mut self)
        ensures { IsShort [] self.new }
    {
        self.kept.clear();
        self.place = Place::Start;
    }

    /// Takes one more byte.
    fn take(&mut self, byte: u8) -> Result<(), Memory>
        ensures taken { OnOk result (TakesIn self.old (byte ∷ []) self.new) }
        ensures none { OnErr result (TakesIn self.old [] self.new) }
    {
        match place_after(self.place, byte) {
            None => Ok(()),
            Some(place) => {
                self.kept.push(byte)?;
                self.place = place;
                Ok(())
            }
        }
    }
}
