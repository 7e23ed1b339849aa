//! A whole level.
ghost use Rattle.def_format.specs.Limits.{process_limit};
ghost use Rattle.walk_keys.specs.Keys.{AreDigits, key_of};
ghost use Rattle.walk_keys.specs.Neighbors.{cut_at};
ghost use Rattle.walk_runs.specs.Kept.{KeyedRun, births_view, cuts_of};
ghost use Rattle.walk_runs.specs.Levels.{AreInOrder, IsKeptLevel, IsWholeLevel, cut_count, keys_of, runs_view, whole_view};
ghost use Rattle.walk_runs.specs.WholeLevels.{Run, rest_at};
ghost use Rattle.std.specs.Prelude.{◌≡◌, ◌+◌, ◌<◌, ◌≤◌, ◌==◌, ◌↔◌, ℕ, Contains, IfOk, IfSome, IsTrue, length, slice_get, slice_index};

use super::Steps;
use super::advance::{push_born, push_moved};
use super::birth::add_births;
use super::births::Births;
use super::kept::KeptRun;
use super::kept_birth::KeptBirth;
use super::point::Point;
use std::alloc::{AllocError, Global};
use std::marker::Model;
use walk_keys::Key;

/// A whole level: its number, its cuts as runs, and the cuts with which the prefixes of the next level are born. These
/// are sorted when the next level is made: the last level has most of them, and nothing is made of it.
#[derive(Drop)]
pub struct Whole<K: Key> {
    processes: usize,
    number: u64,
    cuts: u64,
    runs: Vec<KeptRun<K>>,
    born: Births<K>,
}

impl<K: Key> Model for Whole<K> {
    ghost use Rattle.walk_runs.specs.Kept.{cuts_of};
    ghost use Rattle.walk_runs.specs.Levels.{IsKeptLevel, WholeLevel, cut_count, runs_view, whole_view};
    ghost use Rattle.std.specs.Prelude.{◌≡◌, ◌-◌};

    ghost Value = { WholeLevel };

    ghost view = { λ w. whole_view w.processes w.number w.runs.items w.born };

    ghost invariant = { λ w.
        IsKeptLevel K.room w.processes w.number w.runs.items (cuts_of w.born)
        × (w.cuts ≡ cut_count (runs_view (w.processes - 2) w.runs.items))
        × K.fits w.processes };
}

/// How many cuts the runs have, or the greatest `u64` if they are more.
fn cuts_in<K: Key>(runs: &[KeptRun<K>]) -> u64
    requires { (run : KeyedRun) → Contains runs.now run → run.lo ≤ run.hi }
    ensures { (n : ℕ) → result ≡ cut_count (runs_view n runs.now) }
{
    let mut cuts: u64 = 0;
    for i in 0..runs.len() {
        let run = &runs[i];
        cuts = cuts.saturating_add(u64::from(run.hi - run.lo) + 1);
    }
    cuts
}

/// Whether there is a run with this index, and the key of its prefix is below this one.
fn is_run_below<K: Key>(runs: &[KeptRun<K>], i: usize, prefix: K) -> bool
    ensures { IsTrue result ↔ ((i < length runs.now) × (slice_index (keys_of runs.now) i < K.number prefix)) }
{
    if i >= runs.len() {
        return false;
    }
    let run = &runs[i];
    run.key.is_below(prefix)
}

/// Whether the key of a prefix is below that of the run with this index, if there is one.
fn is_below_run<K: Key>(prefix: K, runs: &[KeptRun<K>], i: usize) -> bool
    ensures { IsTrue result ↔ (i < length runs.now → K.number prefix < slice_index (keys_of runs.now) i) }
{
    if i >= runs.len() {
        return true;
    }
    let run = &runs[i];
    prefix.is_below(run.key)
}

/// Whether the key of a prefix is above the last one, if there is one.
fn is_above<K: Key>(prefix: K, last: Option<K>) -> bool
    ensures { IsTrue result ↔ IfSome last (λ key. K.number key < K.number prefix) }
{
    match last {
        Some(key) => key.is_below(prefix),
        None => true,
    }
}

/// A place as a hint. Beyond what has room in it, it hints at nothing.
fn hint(place: usize) -> u32 {
    u32::try_from(place).unwrap_or(u32::MAX)
}

/// The level after the one of these runs and births, which are sorted. Each run moves, and beside them stand the births
/// whose prefix has no run yet: each prefix is born with the first of its births.
fn next_level<K: Key>(
    alloc: Global,
    steps: &Steps<'_, '_>,
    number: u64,
    olds: &[KeptRun<K>],
    births: &[KeptBirth<K>],
) -> Result<Whole<K>, AllocError>
    requires room { number < 18446744073709551615 }
    requires fits { K.fits (length steps.now) }
    requires kept { IsKeptLevel K.room (length steps.now) number olds.now (cuts_of (births_view K.number births.now)) }
    requires sorted { AreInOrder (cuts_of (births_view K.number births.now)) }
    requires level { IsWholeLevel steps.now
        (whole_view (length steps.now) number olds.now (births_view K.number births.now)) }
    ensures level { IfOk result (IsWholeLevel steps.now) }
    ensures number { IfOk result (λ next. next.number ≡ number + 1) }
{
    steps.limits();
    let others = steps.prefix();
    let mut runs = Vec::with_capacity(alloc, olds.len().saturating_add(births.len()))?;
    let mut born = Births::new(alloc, others);
    let mut last = None;
    let mut i = 0;
    for j in 0..births.len() {
        let prefix = births[j].cut.without_two();
        while is_run_below(olds, i, prefix) {
            push_moved(steps, &olds[i], hint(i), &mut runs, &mut born)?;
            i += 1;
        }
        if is_above(prefix, last) && is_below_run(prefix, olds, i) {
            push_born(steps, births[j], hint(i), &mut runs, &mut born)?;
            last = Some(prefix);
        }
    }
    while i < olds.len() {
        push_moved(steps, &olds[i], hint(i), &mut runs, &mut born)?;
        i += 1;
    }
    Ok(Whole {
        processes: others + 2,
        number: number + 1,
        cuts: cuts_in(&runs),
        runs,
        born,
    })
}

impl<K: Key> Whole<K> {
    /// Level 0, which has the empty cut alone.
    ///
    /// # Errors
    /// An allocation was refused.
    pub fn first(alloc: Global, steps: &Steps<'_, '_>) -> Result<Whole<K>, AllocError>
        requires { K.fits (length steps.now) }
        ensures level { IfOk result (IsWholeLevel steps.now) }
        ensures number { IfOk result (λ level. level.number ≡ 0) }
    {
        steps.limits();
        let others = steps.prefix();
        let mut runs = Vec::with_capacity(alloc, 1)?;
        let mut born = Births::new(alloc, others);
        runs.push(KeptRun {
            key: K::none(),
            lo: 0,
            hi: 0,
            rest: 0,
            from: 0,
        })?;
        let empty = Point {
            key: K::none(),
            x: 0,
            y: 0,
        };
        add_births(steps, &empty, None, 0, &mut born)?;
        Ok(Whole {
            processes: others + 2,
            number: 0,
            cuts: 1,
            runs,
            born,
        })
    }

    /// The next level, of one event more.
    ///
    /// # Errors
    /// An allocation was refused.
    pub fn next(
        alloc: Global,
        steps: &Steps<'_, '_>,
        level: &Whole<K>,
    ) -> Result<Whole<K>, AllocError>
        requires room { level.now.number < 18446744073709551615 }
        requires level { IsWholeLevel steps.now level.now }
        ensures level { IfOk result (IsWholeLevel steps.now) }
        ensures number { IfOk result (λ next. next.number ≡ level.now.number + 1) }
    {
        let births = level.born.sorted()?;
        next_level(alloc, steps, level.number, &level.runs, &births)
    }

    /// The number of the level, from 0: how many events each of its cuts has.
    pub fn number(&self) -> u64
        ensures { result ≡ self.now.number }
    {
        self.number
    }

    /// How many cuts there are, or the greatest `u64` if they are more.
    pub fn cuts(&self) -> u64
        ensures { result ≡ cut_count self.now.runs }
    {
        self.cuts
    }

    /// How many runs there are.
    pub fn len(&self) -> usize
        ensures { result ≡ length self.now.runs }
    {
        self.runs.len()
    }

    /// Whether there is no run, and so no cut.
    pub fn is_empty(&self) -> bool
        ensures { result ≡ (length self.now.runs == 0) }
    {
        self.runs.is_empty()
    }

    /// The counts of the prefix of run `i`, from 0, as the digits of a number: 16 bits each, the count of process 0
    /// highest. The two lowest digits are 0.
    pub fn key(&self, i: usize) -> K
        requires { i < length self.now.runs }
        ensures { IfSome (slice_get self.now.runs i) (λ run. K.number result ≡ key_of (cut_at run.prefix 0 0)) }
    {
        let run = &self.runs[i];
        run.key.with_two(0, 0)
    }

    /// The least count of the last process but one in run `i`, from 0.
    pub fn lo(&self, i: usize) -> u64
        requires { i < length self.now.runs }
        ensures { IfSome (slice_get self.now.runs i) (λ run. result ≡ run.lo) }
    {
        let run = &self.runs[i];
        u64::from(run.lo)
    }

    /// The greatest count of the last process but one in run `i`, from 0.
    pub fn hi(&self, i: usize) -> u64
        requires { i < length self.now.runs }
        ensures { IfSome (slice_get self.now.runs i) (λ run. result ≡ run.hi) }
    {
        let run = &self.runs[i];
        u64::from(run.hi)
    }

    /// The sum of the last two counts of each cut of run `i`, from 0.
    pub fn rest(&self, i: usize) -> u64
        requires { i < length self.now.runs }
        ensures { IfSome (slice_get self.now.runs i) (λ run. result ≡ rest_at self.now.number run) }
    {
        let run = &self.runs[i];
        u64::from(run.rest)
    }

    /// The count of process `p` of the prefix of run `i`, both from 0.
    pub fn count(&self, i: usize, p: usize) -> u64
        requires run { i < length self.now.runs }
        requires prefix { p + 2 < self.now.processes }
        ensures { IfSome (slice_get self.now.runs i) (λ run. result ≡ slice_index run.prefix p) }
    {
        let run = &self.runs[i];
        run.key.digit(self.processes - 2, p)
    }

    /// Writes the counts of the prefix of run `i`, from 0, into a row that has a place for each.
    pub fn write_prefix(&self, i: usize, counts: &mut [u64])
        requires run { i < length self.now.runs }
        requires places { length counts.old + 2 ≡ self.now.processes }
        ensures { IfSome (slice_get self.now.runs i) (λ run. counts.new ≡ run.prefix) }
    {
        let run = &self.runs[i];
        run.key.write(counts);
    }

    /// Whether run `i` has the prefix of run `j` of another level, both from 0, if that has as many processes. Keys are
    /// compared, and no count is read.
    pub fn has_prefix_of(&self, i: usize, other: &Whole<K>, j: usize) -> bool
        requires run { i < length self.now.runs }
        requires other { j < length other.now.runs }
        ensures { IfSome (slice_get self.now.runs i) (λ run. IfSome (slice_get other.now.runs j) (λ same.
            self.now.processes ≡ other.now.processes → IsTrue result ↔ (run.prefix ≡ same.prefix))) }
    {
        let run = &self.runs[i];
        let same = &other.runs[j];
        run.key.is_same(same.key)
    }

    /// A hint at the place of the run with the prefix of run `i` in the level before, if that has it: the key there has
    /// to be compared.
    pub fn from(&self, i: usize) -> usize
        requires { i < length self.now.runs }
    {
        let run = &self.runs[i];
        run.from as usize
    }

    /// How many processes there are.
    pub fn processes(&self) -> usize
        ensures { result ≡ self.now.processes }
    {
        self.processes
    }

    /// What holds of each level. It has no code: a caller's proof has these facts by calling it.
    pub fn limits(&self)
        ensures two { 2 ≤ self.now.processes }
        ensures few { self.now.processes ≤ K.room }
        ensures rows { self.now.processes ≤ process_limit }
        ensures fits { K.fits self.now.processes }
        ensures digits { (run : Run) → Contains self.now.runs run → AreDigits run.prefix }
    {
        let _processes = self.processes;
    }
}
