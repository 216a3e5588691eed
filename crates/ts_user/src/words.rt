//! Single words of a pattern text: first words, states' letters, kinds, signs, phases, trims.

ghost use Rattle.std.specs.Prelude.{◌≡◌, ◌<◌, ◌≤◌, length, IfSome};
ghost use Rattle.ts_user.specs.Words.{form_of, kind_of, sign_of, phase_of, letter_name, trim_of};
ghost use Rattle.ts_user.specs.Statement.{word_at};
ghost use Rattle.ts_user.specs.Views.{texts};

use ts_base::{Kind, Letter};
use ts_token::{Word, is_word, number};
use ts_transducer::Phase;

/// The form of a line, by its first word.
#[derive(Clone, Copy)]
pub(crate) enum Form {
    Catalogue,
    Pattern,
    Trim,
    State,
    Move,
}

/// The form of a line that begins with this word.
#[tactic(auto, unfolding(crate::specs::Words::form_of))]
pub(crate) fn form_of(word: &[u8]) -> Option<Form>
    ensures { result ≡ form_of word.now }
{
    if is_word(word, b"catalogue") {
        Some(Form::Catalogue)
    } else if is_word(word, b"pattern") {
        Some(Form::Pattern)
    } else if is_word(word, b"trim") {
        Some(Form::Trim)
    } else if is_word(word, b"state") {
        Some(Form::State)
    } else if is_word(word, b"move") {
        Some(Form::Move)
    } else {
        None
    }
}

/// The kind of states that the word is.
#[tactic(auto, unfolding(crate::specs::Words::kind_of))]
pub(crate) fn kind_of(word: &[u8]) -> Option<Kind>
    ensures { result ≡ kind_of word.now }
{
    if is_word(word, b"idle") {
        Some(Kind::Idle)
    } else if is_word(word, b"pending") {
        Some(Kind::Pending)
    } else if is_word(word, b"held") {
        Some(Kind::Held)
    } else {
        None
    }
}

/// The sign that the word is.
#[tactic(auto, unfolding(crate::specs::Words::sign_of))]
pub(crate) fn sign_of(word: &[u8]) -> Option<Letter>
    ensures { result ≡ sign_of word.now }
{
    if is_word(word, b"<") {
        Some(Letter::Less)
    } else if is_word(word, b"=") {
        Some(Letter::Equal)
    } else if is_word(word, b">") {
        Some(Letter::Greater)
    } else {
        None
    }
}

/// The phase letter with this name.
#[tactic(auto, unfolding(crate::specs::Words::phase_of))]
pub(crate) fn phase_of(word: &[u8]) -> Option<Phase>
    ensures { result ≡ phase_of word.now }
{
    if is_word(word, b"out") {
        Some(Phase::Out)
    } else if is_word(word, b"out_r") {
        Some(Phase::OutR)
    } else if is_word(word, b"out_a") {
        Some(Phase::OutA)
    } else if is_word(word, b"maybe_b") {
        Some(Phase::MaybeB)
    } else if is_word(word, b"maybe_a") {
        Some(Phase::MaybeA)
    } else if is_word(word, b"found") {
        Some(Phase::Found)
    } else if is_word(word, b"found_e") {
        Some(Phase::FoundE)
    } else if is_word(word, b"in") {
        Some(Phase::Inside)
    } else {
        None
    }
}

/// The one letter that the word is, a to z.
#[tactic(auto, unfolding(crate::specs::Words::letter_name))]
pub(crate) fn letter_name(word: &[u8]) -> Option<u8>
    ensures { result ≡ letter_name word.now }
{
    match word {
        [letter] if *letter >= b'a' && *letter <= b'z' => Some(*letter),
        _ => None,
    }
}

/// The number that the word is, from 0 to `most`.
#[tactic(auto, unfolding(crate::specs::Words::trim_of))]
pub(crate) fn trim_of(most: u8, word: &[u8]) -> Option<u8>
    ensures exact { result ≡ trim_of most word.now }
    ensures most { IfSome result (λ n. n ≤ most) }
{
    let trim = number(word)?;
    if trim < 0 || trim > i64::from(most) {
        return None;
    }
    Some(trim as u8)
}

/// The bytes of the word at a place.
pub(crate) fn text_at<'a>(words: &[Word<'a>], k: usize) -> &'a [u8]
    requires { k < length (texts words.now) }
    ensures { result.now ≡ word_at (texts words.now) k }
{
    words[k].text
}
