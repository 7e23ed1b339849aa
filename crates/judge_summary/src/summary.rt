//! A summary, to which lines are added.
ghost use Rattle.def_format.specs.Lines.{all_lines, is_blank};
ghost use Rattle.judge_summary.specs.Counts.{fits};
ghost use Rattle.judge_summary.specs.Conclusions.{conclusion_of};
ghost use Rattle.judge_summary.specs.Summaries.{after_change, after_line, merged, no_summary, summary_data, summary_line, summary_text, unless_over};
ghost use Rattle.judge_summary.specs.Summaries as summaries;
ghost use Rattle.judge_summary.specs.Views.{IsDue, change_view};
ghost use Rattle.judge_summary.specs.declared.fault.LineFault.TheVariants as faults;
ghost use Rattle.serde_json.specs.View.{view};
ghost use Rattle.std.specs.Prelude.{◌≡◌, ◌++◌, ◌∷◌, [], Err, IfOk, List, ℕ, Some, option_map, true};

use super::change::{Change, line_change};
use super::conclusion::Conclusion;
use super::counts::Counts;
use super::fault::LineFault;
use serde_json::{Value, json};
use std::alloc::{AllocError, Global};
use std::marker::Model;

/// How often each answer and each exit status was given, and how often each id stands at a run that failed.
#[derive(Drop)]
pub struct Summary {
    counts: Counts,
    failing: Counts,
}

impl Model for Summary {
    ghost use Rattle.judge_summary.specs.Summaries as summaries;

    ghost Value = { summaries.Summary };

    ghost view = { λ s. record { counts = s.counts; failing = s.failing } };
}

/// Whether there is nothing but spaces, tabs and CRs.
fn is_blank(bytes: &[u8]) -> bool
    ensures { result ≡ is_blank bytes.now }
{
    bytes
        .iter()
        .all(|byte| *byte == b' ' || *byte == b'\t' || *byte == b'\r')
}

impl Summary {
    /// A summary of no line.
    pub fn new(alloc: Global) -> Summary
        ensures { result ≡ no_summary }
    {
        Summary {
            counts: Counts::new(alloc),
            failing: Counts::new(alloc),
        }
    }

    /// Adds what a line adds.
    fn add_change(&mut self, alloc: Global, change: &Change) -> Result<(), LineFault>
        ensures { IsDue (after_change self.old (Some (change_view change.now))) self.new result }
    {
        self.counts.add_all(alloc, &change.counts)?;
        self.failing.add_all(alloc, &change.failing)
    }

    /// Adds what a line adds, which stands without its LF. A blank line adds nothing.
    ///
    /// # Errors
    /// `Shape`, if the line is no answer, no error and no summary: the summary stays as it was then. `Overflow`, if a
    /// sum is over 18,446,744,073,709,551,615, and `Memory`: the summary isn't used again then.
    pub fn add_line(&mut self, alloc: Global, line: &[u8]) -> Result<(), LineFault>
        ensures due { IsDue (after_line self.old line.now) self.new result }
        ensures kept { result ≡ Err faults.Shape → self.new ≡ self.old }
    {
        if is_blank(line) {
            return Ok(());
        }
        match line_change(alloc, line)? {
            Some(change) => self.add_change(alloc, &change),
            None => Err(LineFault::Shape),
        }
    }

    /// The summary as a JSON value.
    fn value(&self, alloc: Global) -> Result<Value, AllocError>
        ensures data { IfOk result (λ value. view value ≡ summary_data self.now) }
        ensures fits { IfOk result (λ _. (fits self.now.counts ≡ true) × (fits self.now.failing ≡ true)) }
    {
        let counts = self.counts.copy()?;
        let failing = self.failing.copy()?;
        json!(in alloc; {"counts": counts, "failing": failing})
    }

    /// The summary's text: one JSON object without spaces, in one line that is ended by an LF. Added to another summary
    /// as a line, it merges the two.
    ///
    /// # Errors
    /// If memory runs out.
    pub fn text(&self, alloc: Global) -> Result<Vec<u8>, AllocError>
        ensures text { IfOk result (λ text. text.items ≡ summary_text self.now) }
        ensures one_line { IfOk result (λ text. all_lines text.items ≡ summary_line self.now ∷ []) }
        ensures merges { IfOk result (λ text. (other : summaries.Summary)
            → after_line other (summary_line self.now) ≡ unless_over (merged other self.now)) }
    {
        let value = self.value(alloc)?;
        let mut text = value.to_vec(alloc)?;
        text.push(b'\n')?;
        Ok(text)
    }

    /// What comes of the runs: some fails, if a status 5 is counted; else some isn't judged, if a status 1 or an error
    /// is.
    pub fn conclusion(&self) -> Conclusion
        ensures { result ≡ conclusion_of self.now }
    {
        if self.counts.get("status 5") > 0 {
            return Conclusion::SomeFails;
        }
        if self.counts.get("status 1") > 0 || self.counts.get("errors") > 0 {
            return Conclusion::SomeNotJudged;
        }
        Conclusion::AllPass
    }
}
