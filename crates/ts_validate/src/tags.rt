//! The tags of live entries, before and after a step.

ghost use Rattle.std.specs.Prelude.{◌≡◌, ◌&&◌, ◌||◌, not};
ghost use Rattle.std.specs.List.{list_all};
ghost use Rattle.ts_pattern.specs.Closed.{is_due, is_ind, is_inc, first_tag, younger, due_after, ind_after, inc_after, tag_after, same_tag};

use ts_pattern::{Live, Tag};
use ts_transducer::Phase;

/// The tag of a start at the sign now read.
#[tactic(auto, using(crate::proofs::Younger::first_young))]
pub fn first_tag(b: u8) -> Tag
    ensures { result ≡ first_tag b }
{
    if b == 0 { Tag::Due } else { Tag::Young(b) }
}

/// The tag with one sign fewer to come.
#[tactic(auto, using(crate::proofs::Younger::younger_is))]
fn younger(m: u8) -> Tag
    ensures { result ≡ younger m }
{
    if m < 2 { Tag::Due } else { Tag::Young(m - 1) }
}

/// The tag after Due.
fn due_after(phase: Phase, free: bool) -> Tag
    ensures { result ≡ due_after phase free }
{
    if free { ind_after(phase) } else { Tag::Loose }
}

/// The tag after InD.
fn ind_after(phase: Phase) -> Tag
    ensures { result ≡ ind_after phase }
{
    match phase {
        Phase::MaybeB => Tag::InD,
        Phase::Found => Tag::InC,
        _ => Tag::Loose,
    }
}

/// The tag after InC.
fn inc_after(phase: Phase) -> Tag
    ensures { result ≡ inc_after phase }
{
    match phase {
        Phase::OutA => Tag::Loose,
        _ => Tag::InC,
    }
}

/// The tag after a sign with this phase letter; `free` says that no entry had InD before it.
pub fn tag_after(phase: Phase, free: bool, tag: Tag) -> Tag
    ensures { result ≡ tag_after phase free tag }
{
    match tag {
        Tag::Young(m) => younger(m),
        Tag::Due => due_after(phase, free),
        Tag::InD => ind_after(phase),
        Tag::InC => inc_after(phase),
        Tag::Loose => Tag::Loose,
    }
}

/// Whether a start with this tag may be the start of a find.
pub fn starts(free: bool, tag: Tag) -> bool
    ensures { result ≡ (is_ind tag || (is_due tag && free)) }
{
    tag == Tag::InD || (tag == Tag::Due && free)
}

/// Whether the decoder keeps the start.
pub fn is_ind(tag: Tag) -> bool
    ensures { result ≡ is_ind tag }
{
    tag == Tag::InD
}

/// Whether the held range begins with the start.
pub fn is_inc(tag: Tag) -> bool
    ensures { result ≡ is_inc tag }
{
    tag == Tag::InC
}

/// Whether two tags are the same.
pub fn same_tag(x: Tag, y: Tag) -> bool
    ensures { result ≡ same_tag x y }
{
    x == y
}

/// Whether no entry has InD.
pub fn none_kept(live: &[Live]) -> bool
    ensures { result ≡ list_all (λ e. not (is_ind e.tag)) live.now }
{
    live.iter().all(|e| !is_ind(e.tag))
}
