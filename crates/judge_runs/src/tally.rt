//! The verdicts of runs, and the text at the end.
ghost use Rattle.judge_runs.specs.Runs as runs;
ghost use Rattle.judge_runs.specs.Tallies.{counts_line, field_text, indented};
ghost use Rattle.judge_runs.specs.Views.{conclusion_view, verdict_view};
ghost use Rattle.std.specs.Prelude.{◌≡◌, ◌++◌, ℕ, Bool, List, OnOk, filter, flat_map, length, map};

use super::conclusion::Conclusion;
use super::line::line_of;
use super::outcome::Outcome;
use super::verdict::Verdict;
use super::wish::Wish;
use pd_report::{push_bytes, push_number};
use std::alloc::{AllocError, Global};

/// How many runs that don't pass are named again at the end.
const FIRST_LIMIT: usize = 5;

/// How many runs there are, and how many of them have each verdict.
#[derive(Clone, Copy)]
pub struct Counts {
    /// How many there are.
    pub all: u64,
    /// How many pass.
    pub pass: u64,
    /// How many fail.
    pub fail: u64,
    /// How many aren't judged.
    pub not_judged: u64,
}

/// How many runs there are, and how many of them pass, fail and aren't judged, by their verdicts.
fn counts_of(verdicts: &[Verdict]) -> Counts
    ensures all { result.all ≡ length (map verdict_view verdicts.now) }
    ensures pass { result.pass ≡ runs.count_of runs.Pass (map verdict_view verdicts.now) }
    ensures fail { result.fail ≡ runs.count_of runs.Fail (map verdict_view verdicts.now) }
    ensures not_judged { result.not_judged ≡ runs.count_of runs.NotJudged (map verdict_view verdicts.now) }
{
    let mut counts = Counts {
        all: 0,
        pass: 0,
        fail: 0,
        not_judged: 0,
    };
    for verdict in verdicts {
        counts.all += 1;
        match *verdict {
            Verdict::Pass => counts.pass += 1,
            Verdict::Fail => counts.fail += 1,
            Verdict::NotJudged => counts.not_judged += 1,
        }
    }
    counts
}

/// Appends a word and a number.
#[tactic(auto, unfolding(crate::specs::Tallies::field_text))]
fn push_field(out: &mut Vec<u8>, word: &str, number: u64) -> Result<(), AllocError>
    ensures { OnOk result (out.new.items ≡ out.old.items ++ field_text word.now number) }
{
    push_bytes(out, word.as_bytes())?;
    push_number(out, number)
}

/// Appends the line that counts runs.
fn push_counts(out: &mut Vec<u8>, counts: Counts) -> Result<(), AllocError>
    ensures { OnOk result (out.new.items
        ≡ out.old.items ++ counts_line counts.all counts.pass counts.fail counts.not_judged) }
{
    push_field(out, "runs: ", counts.all)?;
    push_field(out, ", pass: ", counts.pass)?;
    push_field(out, ", fail: ", counts.fail)?;
    push_field(out, ", not judged: ", counts.not_judged)?;
    push_bytes(out, b"\n")?;
    Ok(())
}

/// Appends lines once more, each after two blanks.
fn push_lines(out: &mut Vec<u8>, lines: &[Vec<u8>]) -> Result<(), AllocError>
    ensures { OnOk result (out.new.items ≡ out.old.items ++ indented (map (λ line. line.items) lines.now)) }
{
    for line in lines {
        push_bytes(out, b"  ")?;
        push_bytes(out, line)?;
    }
    Ok(())
}

/// The verdicts of the runs so far, and the first lines of those that don't pass.
#[derive(Drop)]
pub struct Tally {
    verdicts: Vec<Verdict>,
    first: Vec<Vec<u8>>,
}

impl Tally {
    ghost use Rattle.judge_runs.specs.Runs as runs;
    ghost use Rattle.judge_runs.specs.Tallies.{AreCounts, Stands, summary_text};
    ghost use Rattle.judge_runs.specs.Views.{conclusion_view, outcome_view, wishes_view};
    ghost use Rattle.judge_runs.specs.Wishes.{Condition};
    ghost use Rattle.std.specs.Prelude.{◌≡◌, ◌++◌, ◌∷◌, [], IfOk, List, OnOk};

    /// Of no run.
    pub fn new(alloc: Global) -> Tally
        ensures { (wishes : List Condition) → Stands wishes [] result }
    {
        Tally {
            verdicts: Vec::new(alloc),
            first: Vec::new(alloc),
        }
    }

    /// Adds the run in this folder, and gives its line, with its LF.
    ///
    /// # Errors
    /// Out of memory.
    pub fn add(
        &mut self,
        alloc: Global,
        wishes: &[Wish<'_>],
        folder: &str,
        outcome: &Outcome,
    ) -> Result<Vec<u8>, AllocError>
        ensures line { IfOk result (λ line. line.items ≡ runs.line_of (wishes_view wishes.now)
            (record { folder = folder.now; outcome = outcome_view outcome.now })) }
        ensures tally { OnOk result ((before : List runs.Run) → Stands (wishes_view wishes.now) before self.old
            → Stands (wishes_view wishes.now) (before ++ record {
              folder = folder.now;
              outcome = outcome_view outcome.now;
            } ∷ []) self.new) }
    {
        let (line, verdict) = line_of(alloc, wishes, folder, outcome)?;
        self.verdicts.push(verdict)?;
        if !verdict.is_pass() && self.first.len() < FIRST_LIMIT {
            self.first.push(Vec::from_slice(alloc, &line)?)?;
        }
        Ok(line)
    }

    /// The numbers of runs, and the first lines of those that don't pass once more.
    ///
    /// # Errors
    /// Out of memory.
    pub fn summary(&self, alloc: Global) -> Result<Vec<u8>, AllocError>
        ensures { IfOk result (λ text. (wishes : List Condition) (all : List runs.Run) → Stands wishes all self.now
            → text.items ≡ summary_text wishes all) }
    {
        let mut text = Vec::new(alloc);
        push_counts(&mut text, counts_of(&self.verdicts))?;
        push_lines(&mut text, &self.first)?;
        Ok(text)
    }

    /// How many runs there are, and how many of them have each verdict.
    pub fn counts(&self) -> Counts
        ensures { (wishes : List Condition) (all : List runs.Run) → Stands wishes all self.now
            → AreCounts wishes all result }
    {
        counts_of(&self.verdicts)
    }

    /// What the runs come to together.
    pub fn conclusion(&self) -> Conclusion
        ensures { (wishes : List Condition) (all : List runs.Run) → Stands wishes all self.now
            → conclusion_view result ≡ runs.conclusion wishes all }
    {
        let counts = self.counts();
        if counts.fail > 0 {
            return Conclusion::SomeFails;
        }
        if counts.not_judged > 0 {
            return Conclusion::SomeNotJudged;
        }
        Conclusion::AllPass
    }
}
