//! The births that are collected for the next level.
ghost use Rattle.walk_runs.specs.Collected.{HasOneMore, IsSortedOf, births_in};
ghost use Rattle.walk_runs.specs.Kept.{birth_view, births_view};
ghost use Rattle.std.specs.Prelude.{◌≡◌, ◌<◌, ◌≤◌, [], IfOk, IsTrue, length};

use super::kept_birth::{KeptBirth, order};
use std::alloc::{AllocError, Global};
use std::marker::Model;
use walk_keys::Key;

/// How many births stand in one list, in order, before each process has a list.
const FEW: usize = 8;

/// Births of the next level. The first few stand in one list whose cuts ascend, so a level with few births allocates no
/// other. The others stand in a list for each process that has one event more in them. If cuts are met in ascending
/// order, each of these ascends, so few long runs are merged when all births are sorted. The list of the greatest
/// process is the first one, and among the few a birth comes before those of the same cut that were found earlier: so a
/// prefix is born by the greatest process that makes its cut, except that the first few come before all others.
#[derive(Drop)]
pub(crate) struct Births<K: Key> {
    alloc: Global,
    processes: usize,
    few: Vec<KeptBirth<K>>,
    lists: Vec<Vec<KeptBirth<K>>>,
}

impl<K: Key> Model for Births<K> {
    ghost use Rattle.walk_runs.specs.Collected.{births_in};
    ghost use Rattle.walk_runs.specs.Kept.{KeyedBirth, birth_view, births_view};
    ghost use Rattle.std.specs.Prelude.{◌++◌, List};

    ghost Value = { List KeyedBirth };

    ghost view = { λ b. births_view K.number b.few.items ++ births_in (birth_view K.number) b.lists.items };
}

/// Whether a birth stands before place `at`, and its cut isn't below this one.
fn is_not_below<K: Key>(few: &[KeptBirth<K>], at: usize, cut: K) -> bool
    requires { at ≤ length few.now }
    ensures { IsTrue result → 0 < at }
{
    if at == 0 {
        return false;
    }
    let before = few[at - 1];
    !before.cut.is_below(cut)
}

/// The place of a birth with this cut among these: after the last one whose cut is below it, or first.
fn place<K: Key>(few: &[KeptBirth<K>], cut: K) -> usize
    ensures { result ≤ length few.now }
{
    let mut at = few.len();
    while is_not_below(few, at, cut) {
        at -= 1;
    }
    at
}

/// An empty list for each of this many processes, and at least one.
fn empty_lists<K: Key>(
    alloc: Global,
    processes: usize,
) -> Result<Vec<Vec<KeptBirth<K>>>, AllocError>
    ensures none { IfOk result (λ lists. births_in (birth_view K.number) lists.items ≡ []) }
    ensures some { IfOk result (λ lists. 0 < length lists.items) }
{
    let count = processes.max(1);
    let mut lists = Vec::with_capacity(alloc, count)?;
    for _ in 0..count {
        lists.push(Vec::new(alloc))?;
    }
    Ok(lists)
}

/// Makes the lists, if there is none yet. They are empty.
fn make_lists<K: Key>(
    alloc: Global,
    processes: usize,
    lists: &mut Vec<Vec<KeptBirth<K>>>,
) -> Result<(), AllocError>
    ensures same { IfOk result (λ _. births_in (birth_view K.number) lists.new.items
        ≡ births_in (birth_view K.number) lists.old.items) }
    ensures some { IfOk result (λ _. 0 < length lists.new.items) }
{
    if lists.is_empty() {
        *lists = empty_lists(alloc, processes)?;
    }
    Ok(())
}

/// Adds a birth to the list of its process. A process without a list of its own shares that of the greatest one.
fn push_to<K: Key>(
    lists: &mut Vec<Vec<KeptBirth<K>>>,
    birth: KeptBirth<K>,
) -> Result<(), AllocError>
    requires { 0 < length lists.old.items }
    ensures { IfOk result (λ _. HasOneMore (births_in (birth_view K.number) lists.old.items) (birth_view K.number birth)
        (births_in (birth_view K.number) lists.new.items)) }
{
    let last = lists.len() - 1;
    let place = last - birth.by.min(last);
    lists[place].push(birth)?;
    Ok(())
}

impl<K: Key> Births<K> {
    /// No birth yet, of this many processes. It takes no memory.
    pub(crate) fn new(alloc: Global, processes: usize) -> Births<K>
        ensures { result ≡ [] }
    {
        Births {
            alloc,
            processes,
            few: Vec::new(alloc),
            lists: Vec::new(alloc),
        }
    }

    /// Adds a birth.
    ///
    /// # Errors
    /// An allocation was refused.
    pub(crate) fn push(&mut self, birth: KeptBirth<K>) -> Result<(), AllocError>
        ensures { IfOk result (λ _. HasOneMore self.old (birth_view K.number birth) self.new) }
    {
        if self.few.len() < FEW {
            let at = place(&self.few, birth.cut);
            self.few.insert(at, birth)?;
            return Ok(());
        }
        make_lists(self.alloc, self.processes, &mut self.lists)?;
        push_to(&mut self.lists, birth)?;
        Ok(())
    }

    /// All of them, their cuts ascending.
    ///
    /// # Errors
    /// An allocation was refused.
    pub(crate) fn sorted(&self) -> Result<Vec<KeptBirth<K>>, AllocError>
        ensures { IfOk result (λ all. IsSortedOf self.now (births_view K.number all.items)) }
    {
        let mut count = self.few.len();
        for k in 0..self.lists.len() {
            count = count.saturating_add(self.lists[k].len());
        }
        let mut all = Vec::with_capacity(self.alloc, count)?;
        all.extend_from_slice(&self.few)?;
        for i in 0..self.lists.len() {
            all.extend_from_slice(&self.lists[i])?;
        }
        all.sort_by(|a, b| order(a, b))?;
        Ok(all)
    }
}
