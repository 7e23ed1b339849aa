//! Counts of texts.
ghost use Rattle.judge_summary.specs.Counts.{add, add_all, count_limit, count_of, fits, members_of};
ghost use Rattle.judge_summary.specs.Views.{numbered_view};
ghost use Rattle.judge_summary.specs.declared.fault.LineFault.TheVariants as faults;
ghost use Rattle.serde_json.specs.View.{members_view};
ghost use Rattle.std.specs.Prelude.{◌≡◌, ◌<◌, ◌+◌, [], Err, IfOk, OnOk, false, true};

use super::fault::LineFault;
use pd_spec::value_at;
use serde_json::{Map, Value, put};
use std::alloc::{AllocError, Global};
use std::marker::Model;

/// How often texts are counted.
#[derive(Drop)]
pub(crate) struct Counts {
    members: Map<String, Value>,
}

impl Model for Counts {
    ghost use Rattle.judge_summary.specs.Counts.{Counts as TextCounts};
    ghost use Rattle.judge_summary.specs.Views.{IsKept, numbers_view};
    ghost use Rattle.serde_json.specs.View.{members_view};

    ghost Value = { TextCounts };

    ghost view = { λ c. numbers_view (members_view c.members.entries) };

    ghost invariant = { λ c. IsKept (members_view c.members.entries) };
}

impl Counts {
    /// Nothing is counted.
    pub(crate) fn new(alloc: Global) -> Counts
        ensures { result ≡ [] }
    {
        Counts {
            members: Map::new(alloc),
        }
    }

    /// How often this text is counted.
    pub(crate) fn get(&self, text: &str) -> u64
        ensures { result ≡ count_of text.now self.now }
    {
        match value_at(&self.members, text) {
            Some(value) => value.as_u64().unwrap_or(0),
            None => 0,
        }
    }

    /// The members again, as an object's.
    ///
    /// # Errors
    /// If memory runs out.
    pub(crate) fn copy(&self) -> Result<Map<String, Value>, AllocError>
        ensures members { IfOk result (λ members. members_view members.entries ≡ members_of self.now) }
        ensures fits { fits self.now ≡ true }
    {
        self.members.clone()
    }

    /// Counts this text so many times more.
    ///
    /// # Errors
    /// `Overflow`, if it is counted too often then, and `Memory`.
    fn add(&mut self, alloc: Global, text: &str, count: u64) -> Result<(), LineFault>
        ensures ok { OnOk result (self.new ≡ add text.now count self.old) }
        ensures fits { OnOk result (fits self.new ≡ true) }
        ensures over { result ≡ Err faults.Overflow → count_limit < count_of text.now self.old + count }
        ensures shape { result ≡ Err faults.Shape → ⊥ }
    {
        let _ = &self.members;
        if count == 0 {
            return Ok(());
        }
        match self.get(text).checked_add(count) {
            Some(sum) => {
                put(&mut self.members, alloc, text, Value::from(sum))?;
                Ok(())
            }
            None => Err(LineFault::Overflow),
        }
    }

    /// Counts each of these texts as often as its number says.
    ///
    /// # Errors
    /// `Overflow`, if one is counted too often then, and `Memory`. Some are counted then, others not.
    pub(crate) fn add_all(
        &mut self,
        alloc: Global,
        texts: &[(String, u64)],
    ) -> Result<(), LineFault>
        ensures ok { OnOk result (self.new ≡ add_all (numbered_view texts.now) self.old) }
        ensures fits { OnOk result (fits (add_all (numbered_view texts.now) self.old) ≡ true) }
        ensures over { result ≡ Err faults.Overflow → fits (add_all (numbered_view texts.now) self.old) ≡ false }
        ensures shape { result ≡ Err faults.Shape → ⊥ }
    {
        let _ = &self.members;
        for (text, count) in texts {
            self.add(alloc, text, *count)?;
        }
        Ok(())
    }
}
