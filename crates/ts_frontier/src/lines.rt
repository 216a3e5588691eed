//! What a line of a branch tree does to the waiting boxes.

ghost use Rattle.std.specs.Prelude.{◌≡◌, ◌++◌, IsTrue, OnOk, OnErr};
ghost use Rattle.ts_filter.specs.Steps.{made_by};
ghost use Rattle.ts_frontier.specs.Follow.{MakesBoxes, makes_some};
ghost use Rattle.ts_frontier.specs.Waiting.{first, rest};

use crate::frontier::Frontier;
use ts_base::Memory;
use ts_certificate::TreeLine;

/// The present box gives way to the boxes that the line makes of it: two by a split, one by a removal, else none.
/// Both sides of a split have to have values; a removal has to take a value and leave one. After `Memory` nothing has
/// changed.
pub fn follow(frontier: &mut Frontier, line: &TreeLine) -> Result<(), Memory>
    requires ready { IsTrue frontier.old.ready }
    requires fits { MakesBoxes line.now (first frontier.old.boxes) }
    ensures ok { OnOk result (frontier.new.boxes
        ≡ made_by line.now (first frontier.old.boxes) ++ rest frontier.old.boxes) }
    ensures ready { OnOk result (frontier.new.ready ≡ makes_some line.now) }
    ensures err { OnErr result (frontier.new ≡ frontier.old) }
{
    match *line {
        TreeLine::Split { k, t } => frontier.split(k, t),
        TreeLine::Remove { k, v, .. } => frontier.remove(k, v),
        _ => {
            frontier.close();
            Ok(())
        }
    }
}
