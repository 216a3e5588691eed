//! A certificate checked line by line.

ghost use Rattle.std.specs.Prelude.{ℕ, ◌≡◌, ◌≤◌, ◌+◌, List, [], IfOk, IsTrue, OnErr, OnOk, false, length};
ghost use Rattle.ts_base.specs.Limits.{too_many};
ghost use Rattle.ts_certificate.specs.Reading.{end_stop};
ghost use Rattle.ts_certificate.specs.Seen.{line_seen};
ghost use Rattle.ts_compile.specs.Programs.{IsProgramOf};
ghost use Rattle.ts_model.specs.Promise.{IsWhole, KeepsLimits};
ghost use Rattle.ts_model.specs.Views.{model_parts};
ghost use Rattle.ts_model.specs.declared.model.Need.TheVariants.{List as Listed};
ghost use Rattle.ts_checker.specs.Checking.{Checks, HasChecked, Takes, TakesOn, first_checking};
ghost use Rattle.ts_checker.specs.Laws.{WaitsByLines};
ghost use Rattle.ts_spans.specs.Machines.{spans_in};
ghost use Rattle.ts_checker.specs.Standings.{AreValues};
ghost use Rattle.ts_checker.specs.Verdicts.{IsTrueOf, IsVerdict, refused_line, verdict_by};

use crate::lines::keeps_line;
use crate::standing::Standing;
use crate::verdict::Verdict;
use std::alloc::Global;
use ts_base::Memory;
use ts_certificate::{CertStop, LineReader, Parsed};
use ts_compile::Program;
use ts_domain::Boxed;
use ts_filter::AllTables;
use ts_model::Model;

/// Checks a certificate against a model, line by line, and keeps no line. Contracts see the model, where the reader
/// stands, what the lines so far say and leave, and the first of them that breaks its rule.
#[derive(Drop)]
pub struct Checker {
    alloc: Global,
    model: Model,
    tables: AllTables<'static>,
    reader: LineReader,
    standing: Standing,
    failed: Option<u32>,
    missing: bool,
}

impl std::marker::Model for Checker {
    ghost use Rattle.ts_domain.specs.BoxSeries.{IsBox};
    ghost use Rattle.ts_model.specs.Promise.{IsWhole};
    ghost use Rattle.ts_model.specs.Views.{model_parts};
    ghost use Rattle.ts_checker.specs.Checking.{Checking};
    ghost use Rattle.ts_checker.specs.Standings.{stand_of};
    ghost use Rattle.ts_checker.specs.Subjects.{AreSized, AreTables};

    ghost Value = { Checking };

    ghost view = { λ c. record {
      model = model_parts c.model;
      reading = c.reader;
      stand = stand_of c.standing;
      failed = c.failed;
      missing = c.missing;
    } };

    ghost invariant = { λ c.
        AreTables (model_parts c.model) c.tables.machines × IsBox (model_parts c.model).cells
        × AreSized (model_parts c.model) c.standing.frontier.boxes };
}

impl Checker {
    /// The checker of certificates for a model, which has been fed no line. `p` is the program of `m`, and all domains
    /// of `m` together have at most 65,536 values.
    pub fn new(alloc: Global, m: Model, p: Program) -> Result<Checker, Memory>
        requires program { IsProgramOf p m }
        requires whole { IsWhole (model_parts m) }
        requires limits { KeepsLimits Listed (model_parts m) }
        ensures unfed { IfOk result (λ c. c ≡ first_checking (model_parts m)) }
        ensures checked { IfOk result (λ c. HasChecked [] c) }
    {
        let root = Boxed::new(alloc, &m.cells)?;
        let machines = p.into_machines();
        let tables = AllTables::owning(alloc, machines, &m.requirements, m.objective, &m.cells)?;
        Ok(Checker {
            alloc,
            model: m,
            tables,
            reader: LineReader::new(),
            standing: Standing::new(alloc, root),
            failed: None,
            missing: false,
        })
    }

    /// The number of the next line, counted from 1; after a refusal, that of the line that was refused.
    pub fn next_line(&self) -> u32
        ensures { result ≡ self.now.reading.next }
    {
        self.reader.next_line()
    }

    /// Takes the next line, given with its LF; fewer than 4,000,000,000 were fed so far. After `Memory` each further
    /// line is answered `Memory`, and `broken_line` answers as before.
    pub fn feed_line(&mut self, line: &[u8]) -> Result<(), Memory>
        requires { self.old.reading.next ≤ too_many }
        ensures checked { OnOk result (Checks self.old line.now self.new) }
        ensures takes { OnOk result (Takes self.old line.now self.new) }
        ensures next { OnOk result (self.new.reading.next ≤ self.old.reading.next + 1) }
        ensures model { self.new.model ≡ self.old.model }
        ensures failed { OnErr result (self.new.failed ≡ self.old.failed) }
        ensures wanted { OnErr result (IsTrue self.new.missing) }
        ensures calm { OnOk result ((self.old.missing ≡ false) × (self.new.missing ≡ false)) }
    {
        if self.missing {
            return Err(Memory);
        }
        match self.step(line) {
            Ok(()) => Ok(()),
            Err(Memory) => {
                self.missing = true;
                Err(Memory)
            }
        }
    }

    /// How many boxes still wait for their line: 1 and one for each `split`, less one for each `no`, `worse`, `yes` and
    /// `open`; from the first line on that is refused or breaks its rule, none. There are never more than the values of
    /// the model's domains together, less its cells, plus 1.
    pub fn waiting(&self) -> u64
        requires { self.now.missing ≡ false }
        ensures waiting { result ≡ length self.now.stand.waiting }
        ensures by_lines { (texts : List (List ℕ)) → HasChecked texts self.now → WaitsByLines texts self.now result }
    {
        self.standing.frontier.waiting()
    }

    /// The first line so far that was against the grammar, or an end line with other counts.
    pub(crate) fn refused_line(&self) -> Option<u32>
        ensures { result ≡ refused_line self.now.reading }
    {
        match self.reader.stop() {
            Some(_) => Some(self.reader.next_line()),
            None => None,
        }
    }

    /// The first line so far that broke its rule, where none was refused before it; a line that is refused later leaves
    /// it as it was.
    pub fn broken_line(&self) -> Option<u32>
        ensures { result ≡ self.now.failed }
    {
        self.failed
    }

    /// The verdict on the lines that were fed; no line was answered `Memory`. What is accepted is true of the model.
    pub fn finish(self) -> Verdict
        requires { self.missing ≡ false }
        ensures verdict { (texts : List (List ℕ)) → HasChecked texts self → IsVerdict self.model texts result }
        ensures holds { (texts : List (List ℕ)) → HasChecked texts self → result ≡ Verdict.Accepted →
            IsTrueOf self.model texts }
    {
        self.verdict()
    }
}

impl Checker {
    /// The verdict, by where the reading stops and by the first line that breaks its rule.
    fn verdict(&self) -> Verdict
        ensures { result ≡ verdict_by self.now.reading.next (end_stop self.now.reading) self.now.failed }
    {
        match (self.reader.finish(), self.failed) {
            (Err(_), _) => Verdict::Refused(self.reader.next_line()),
            (Ok(()), Some(line)) => Verdict::Rejected(line),
            (Ok(()), None) => Verdict::Accepted,
        }
    }

    /// The next line: what the reader makes of it is judged, and nothing waits once the reader stops.
    fn step(&mut self, line: &[u8]) -> Result<(), Memory>
        requires { self.old.reading.next ≤ too_many }
        ensures takes { OnOk result (Takes self.old line.now self.new) }
        ensures model { self.new.model ≡ self.old.model }
        ensures failed { OnErr result (self.new.failed ≡ self.old.failed) }
    {
        let number = self.reader.next_line();
        match self.reader.line(self.alloc, line) {
            Ok(parsed) => self.judge(number, parsed),
            Err(CertStop::Memory) => Err(Memory),
            Err(CertStop::Text { .. } | CertStop::CountDiffers { .. }) => {
                self.standing.clear();
                Ok(())
            }
        }
    }

    /// Line `number` by its rule: it leads on, or it is the first that breaks its rule.
    fn judge(&mut self, number: u32, line: Parsed) -> Result<(), Memory>
        requires { AreValues line }
        ensures takes { OnOk result (TakesOn self.old.model (spans_in self.old.model) self.old.stand self.old.failed
            number (line_seen line) self.new.stand self.new.failed) }
        ensures model { self.new.model ≡ self.old.model }
        ensures failed { OnErr result (self.new.failed ≡ self.old.failed) }
        ensures reading { self.new.reading ≡ self.old.reading }
        ensures calm { self.new.missing ≡ self.old.missing }
    {
        if self.failed.is_some() {
            return Ok(());
        }
        if keeps_line(
            self.alloc,
            &self.model,
            &mut self.tables,
            &mut self.standing,
            &line,
        )? {
            return self.standing.take(line);
        }
        self.standing.clear();
        self.failed = Some(number);
        Ok(())
    }
}
