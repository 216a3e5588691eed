//! Laws of the definitions: functions that do nothing, each with what it proves as its clause.

ghost use Rattle.ts_search.specs.Laws.{BudgetIsEnough, ListBudgetIsEnough, OneListed, OneSolved};
ghost use Rattle.ts_search.specs.Laws.{DiveEnds, DiveEndsEarly, DiveMeets, DropsEnd, NextDropFits};
ghost use Rattle.ts_search.specs.Laws.{FirstNoFits, KeptFits, ListedOpensFew, SolvedOpensFew};
ghost use Rattle.ts_search.specs.Laws.{SearchLists, SearchSolves};

/// The certificate of a search names the first best series, or that none meets, or what a spent budget leaves.
pub fn search_solves()
    ensures { SearchSolves }
{}

/// The certificate of a listing has the first series that meet.
pub fn search_lists()
    ensures { SearchLists }
{}

/// A model, a goal and a budget have one solved certificate: its tree leaves no line to choose.
pub fn one_solved()
    ensures { OneSolved }
{}

/// A model, a count and a budget have one listed certificate.
pub fn one_listed()
    ensures { OneListed }
{}

/// Of a model with S series, no budget of 2·S - 1 lines or more is spent.
pub fn budget_is_enough()
    ensures best { BudgetIsEnough }
    ensures list { ListBudgetIsEnough }
{}

/// No more lines are `open` than the domains have values together.
pub fn few_open()
    ensures best { SolvedOpensFew }
    ensures list { ListedOpensFew }
{}

/// The next drop is the first that may be made, and none only where none may be made; after all drops none is left.
pub fn drops_end()
    ensures next { NextDropFits }
    ensures end { DropsEnd }
{}

/// Each cell keeps the value that leaves the best end of the objective's span open, the least of several. The dive ends
/// at one series; where it meets, that is the dive's series, with its value. Where a requirement is refuted on the way,
/// the dive has none.
pub fn dive_ends()
    ensures kept { KeptFits }
    ensures alone { DiveEnds }
    ensures meets { DiveMeets }
    ensures early { DiveEndsEarly }
{}

/// `no J P` below the last cell names the least requirement, and then the least cell.
pub fn first_no_fits()
    ensures { FirstNoFits }
{}
