//! What the machines of all terms answer, and what is glued of the two runs of those that can be split.

ghost use Rattle.std.specs.Prelude.{◌≡◌, ℤ, Some};
ghost use Rattle.ts_automaton.specs.AutomatonRun.{HoldsMark};
ghost use Rattle.ts_base.specs.declared.ext.Ext.TheVariants.{Int};
ghost use Rattle.ts_compile.specs.Compiled.{AnswersTerm, GluesTerm, machine_body, pair_with};
ghost use Rattle.ts_compile.specs.Seeds.{SeedsAreValidated};
ghost use Rattle.ts_compile.specs.TermPairs.{ForPartners, glue_table_of, pair_by};
ghost use Rattle.ts_decorate.specs.Answers.{longest};
ghost use Rattle.ts_glue.specs.Glue.{fold_op, worth};
ghost use Rattle.ts_glue.specs.Glued.{LocalUpTo};
ghost use Rattle.ts_glue.specs.Rules.{IsGluing};
ghost use Rattle.ts_pattern.specs.Arithmetic.{cell_op, cell_value};
ghost use Rattle.ts_pattern.specs.declared.name.Feature.{Feature};
ghost use Rattle.ts_pattern.specs.declared.name.PatternId.{PatternId};
ghost use Rattle.ts_pattern.specs.declared.term.Term.{Term};
ghost use Rattle.ts_seed.specs.SeedTable.{seed_table};

/// The body that the tables give a term answers its value, and keeps its mark.
pub fn compiled_value()
    ensures answer { (t : Term) → AnswersTerm (machine_body t) t }
    ensures marked { (t : Term) → HoldsMark (machine_body t) }
{}

/// A term's glue table joins cells by the operator of its feature, and takes a cell for what it is worth in it.
pub fn tables_count_as_features()
    ensures op { (id : PatternId) (f : Feature) → fold_op (glue_table_of id f).op ≡ cell_op f }
    ensures worth { (id : PatternId) (f : Feature) (x : ℤ) →
        Int (worth (glue_table_of id f).unit x) ≡ cell_value f x }
{}

/// The pair of the term's automaton and of the automaton by its partner's rows, with its glue table, keeps every rule
/// of a machine that can be split, and the local law.
pub fn terms_glue()
    ensures { ForPartners (λ id partner g f. IsGluing (pair_by id partner g f)) }
{}

/// The local law holds on series of up to 100,000 cells: the glued value at the last cell is the forward answer, and
/// at each other cell that at the next one.
pub fn terms_are_local()
    ensures { ForPartners (λ id partner g f. LocalUpTo longest (pair_by id partner g f)) }
{}

/// Where the pattern has a partner, the glued value at every cell of a series of up to 100,000 cells is the value of the
/// term.
pub fn glued_value()
    ensures { (t : Term) (partner : PatternId) → (seed_table t.pattern).partner ≡ Some partner →
        GluesTerm (pair_with t partner) t }
{}

/// `validate` refuses no seed: given a seed, its own plan and the pattern's expression and trim, it answers the
/// transducer or lack of memory. So a machine may be made of a seed that isn't validated again.
pub fn seeds_are_validated()
    ensures { SeedsAreValidated }
{}
