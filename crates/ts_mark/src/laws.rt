//! What holds of the words of cells, for all ranges.

ghost use Rattle.std.specs.Prelude.{ℕ, List};
ghost use Rattle.ts_base.specs.declared.range.Range.{Range};
ghost use Rattle.ts_mark.specs.Holders.{AreHolders};
ghost use Rattle.ts_mark.specs.MarkText.{holding};

/// The numbers in the word of a cell are those of the ranges that hold it, and no others.
pub fn words_name_holders()
    ensures { (cell : ℕ) (ranges : List Range) → AreHolders cell ranges (holding cell 1 ranges) }
{}
