//! The commands: their words, and how each takes its input.

ghost use Rattle.std.specs.Prelude.{◌≡◌, ◌∷◌, option_map};
ghost use Rattle.ts_run.specs.declared.command.Command.TheVariants.{Best as BestOf};
ghost use Rattle.ts_run.specs.Commands.{IsShort, if_alone, budget_of, command_of, generate_of, input_of, sample_of};
ghost use Rattle.ts_run.specs.Commands.{words_in};

use crate::quantity::{Budget, Cells, Count};
use ts_base::Goal;
use ts_base::limits::{CHECK_BYTES, MODEL_BYTES, VERIFY_BYTES};

/// What the program is asked to do.
#[derive(Clone, Copy, Debug, PartialEq, Eq)]
pub enum Command {
    Check,
    Compile,
    Verify,
    /// The first best series under the goal, `maximise` and `minimise`.
    Best { goal: Goal, budget: Budget },
    /// The first `count` series, `generate`.
    Generate { count: Count, budget: Budget },
    /// A model with this many cells that is made, minimised and checked.
    Sample { cells: Cells },
    /// The occurrences of a pattern in a series.
    Mark,
    /// The values of a model's terms after each reading.
    Watch,
}

/// How a command takes its input.
#[derive(Clone, Copy, Debug, PartialEq, Eq)]
pub enum Input {
    /// The whole, of at most `limit` bytes, before anything is written.
    Whole { limit: usize },
    /// As a stream of at most `limit` bytes: what a piece of it owes is written before the next is read.
    Live { limit: usize },
    /// Nothing is read.
    Nothing,
}

impl Command {
    /// The command that these words are; None if they aren't a command.
    pub fn of(words: &Vec<String>) -> Option<Command>
        ensures { result ≡ command_of (words_in words.now.items) }
    {
        match words.as_slice() {
            [word, rest @ ..] => named(word.as_str(), rest),
            [] => None,
        }
    }

    /// How the command takes its input.
    pub fn input(&self) -> Input
        ensures input { result ≡ input_of self.now }
        ensures short { IsShort result }
    {
        match self {
            Command::Check | Command::Mark => Input::Whole { limit: CHECK_BYTES },
            Command::Verify => Input::Whole {
                limit: VERIFY_BYTES,
            },
            Command::Compile | Command::Best { .. } | Command::Generate { .. } => {
                Input::Whole { limit: MODEL_BYTES }
            }
            Command::Sample { .. } => Input::Nothing,
            Command::Watch => Input::Live { limit: CHECK_BYTES },
        }
    }
}

/// The command with this name and these words after it.
fn named(name: &str, rest: &[String]) -> Option<Command>
    ensures { result ≡ command_of (name.now ∷ words_in rest.now) }
{
    if name == "check" {
        alone(Command::Check, rest)
    } else if name == "compile" {
        alone(Command::Compile, rest)
    } else if name == "maximise" {
        best(Goal::Maximise, rest)
    } else if name == "minimise" {
        best(Goal::Minimise, rest)
    } else if name == "generate" {
        generate(rest)
    } else if name == "verify" {
        alone(Command::Verify, rest)
    } else if name == "sample" {
        sample(rest)
    } else if name == "mark" {
        alone(Command::Mark, rest)
    } else if name == "watch" {
        alone(Command::Watch, rest)
    } else {
        None
    }
}

/// The command, where no words follow its name.
fn alone(command: Command, rest: &[String]) -> Option<Command>
    ensures { result ≡ if_alone command (words_in rest.now) }
{
    match rest {
        [] => Some(command),
        _ => None,
    }
}

/// The search for the best series with the budget in these words.
fn best(goal: Goal, rest: &[String]) -> Option<Command>
    ensures { result ≡ option_map (λ lines. BestOf goal lines) (budget_of (words_in rest.now)) }
{
    let budget = budget_in(rest)?;
    Some(Command::Best { goal, budget })
}

/// The listing with the number of series and the budget in these words.
fn generate(rest: &[String]) -> Option<Command>
    ensures { result ≡ generate_of (words_in rest.now) }
{
    match rest {
        [number, rest @ ..] => {
            let count = Count::of(number.as_bytes())?;
            let budget = budget_in(rest)?;
            Some(Command::Generate { count, budget })
        }
        [] => None,
    }
}

/// The sample with the number of cells in these words.
fn sample(rest: &[String]) -> Option<Command>
    ensures { result ≡ sample_of (words_in rest.now) }
{
    match rest {
        [number] => {
            let cells = Cells::of(number.as_bytes())?;
            Some(Command::Sample { cells })
        }
        _ => None,
    }
}

/// The budget in these words, the usual one where there are none.
fn budget_in(words: &[String]) -> Option<Budget>
    ensures { result ≡ budget_of (words_in words.now) }
{
    match words {
        [] => Some(Budget::default()),
        [word, rest @ ..] => budget_behind(word.as_str(), rest),
    }
}

/// The budget in the words after this one, which has to be `--budget`.
fn budget_behind(word: &str, rest: &[String]) -> Option<Budget>
    ensures { result ≡ budget_of (word.now ∷ words_in rest.now) }
{
    match rest {
        [number] => {
            if word == "--budget" {
                Budget::of(number.as_bytes())
            } else {
                None
            }
        }
        _ => None,
    }
}
