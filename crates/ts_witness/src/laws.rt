//! What a witness shows. Each is a statement of `specs/Laws` that the checker has proved.

ghost use Rattle.ts_witness.specs.Laws.{ChangedIsKept, MetIsAlive};

/// Where a series of the box meets a requirement, it is refuted at no cell.
pub fn met_is_alive()
    ensures { MetIsAlive }
{}

/// Where a series of the box, with the value v at cell k in place of its own, meets a requirement, v isn't dropped by
/// it there.
pub fn changed_is_kept()
    ensures { ChangedIsKept }
{}
