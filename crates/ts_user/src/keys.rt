//! Lists of numbers that stand for configurations, and are found by their hashes.

ghost use Rattle.std.specs.Prelude.{◌≡◌, [], IfOk};
ghost use Rattle.ts_user.specs.Keys.{key_lists, tag_number, configuration_key, IsPlaced};

use indexmap::IndexSet;
use std::alloc::Global;
use ts_base::Memory;
use ts_pattern::{Configuration, Tag};

/// Keys, each once, in the order in which they came.
#[derive(Drop)]
pub struct Keys {
    pub lists: IndexSet<Vec<u32>>,
}

impl Keys {
    /// No key.
    pub(crate) fn new(alloc: Global) -> Keys
        ensures { key_lists result ≡ [] }
    {
        Keys {
            lists: IndexSet::new(alloc),
        }
    }

    /// The place of a key that came before; None where it is new, and is the last now.
    pub(crate) fn place(&mut self, key: Vec<u32>) -> Result<Option<usize>, Memory>
        ensures { IfOk result (λ o. IsPlaced (key_lists self.old) (key_lists self.new) key.items o) }
    {
        let (place, is_new) = self.lists.insert_full(key)?;
        if is_new { Ok(None) } else { Ok(Some(place)) }
    }
}

fn tag_number(tag: Tag) -> u32
    ensures { result ≡ tag_number tag }
{
    match tag {
        Tag::Due => 0,
        Tag::InD => 1,
        Tag::InC => 2,
        Tag::Loose => 3,
        Tag::Young(signs) => u32::from(signs) + 4,
    }
}

/// The key of a configuration: its state, and the residual and the tag of each entry.
pub(crate) fn configuration_key(alloc: Global, x: &Configuration) -> Result<Vec<u32>, Memory>
    ensures { IfOk result (λ key. key.items ≡ configuration_key x.now) }
{
    let mut key = Vec::new(alloc);
    key.push(u32::from(x.state))?;
    for entry in x.live.as_slice() {
        key.push(entry.residual)?;
        key.push(tag_number(entry.tag))?;
    }
    Ok(key)
}
