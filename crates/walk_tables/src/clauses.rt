//! A conjunction of clauses, each an `or` of truths that depend on the count of one process.
ghost use Rattle.walk_keys.specs.Words.{has_bit};
ghost use Rattle.walk_tables.specs.Rows.{clause_holds, row_has};
ghost use Rattle.std.specs.Prelude.{◌≡◌, ℕ, ◌<◌, ◌≤◌, ◌||◌, List, false, true};

use super::bits::{has_lowest, put};
use super::clause_column::{ClauseColumn, columns_with};
use super::linear::count_of;
use super::row::ClauseRow;
use std::alloc::{AllocError, Global};

/// How many clauses a conjunction has at most.
pub(crate) const CLAUSE_LIMIT: u64 = 64;

/// Up to 64 clauses. Each is true at a cut if one of the processes makes it true with its count. The first processes
/// have a column only if a clause speaks of them.
#[derive(Drop)]
pub(crate) struct Clauses {
    count: u64,
    columns: Vec<ClauseColumn>,
    across: ClauseRow,
    down: ClauseRow,
    reach: u64,
    ghost few: { count ≤ 64 },
    ghost clear: { (prefix : List ℕ) (x y j : ℕ) → count ≤ j → j < 64
        → clause_holds columns.items across down prefix x y j ≡ false },
    ghost reached: { (x y j : ℕ) → (row_has across x j || row_has down y j) ≡ true → has_bit reach j ≡ true },
}

impl Clauses {
    ghost use Rattle.walk_keys.specs.Words.{has_bit};
    ghost use Rattle.def_format.specs.Limits.{event_limit};
    ghost use Rattle.walk_tables.specs.Clauses.{can_join, clauses_hold};
    ghost use Rattle.walk_tables.specs.Rows.{all_below, clause_holds, columns_have, moved};
    ghost use Rattle.walk_tables.specs.Zero.{joined};
    ghost use Rattle.std.specs.Prelude.{◌≡◌, ℕ, ◌+◌, ◌-◌, ◌<◌, ◌≤◌, ◌||◌, IfOk, IsTrue, List, false, length};

    /// The clauses, with what the last two processes can make true.
    fn new(count: u64, columns: Vec<ClauseColumn>, across: ClauseRow, down: ClauseRow) -> Clauses
        requires few { count ≤ 64 }
        requires clear { (prefix : List ℕ) (x y j : ℕ) → count ≤ j → j < 64
            → clause_holds columns.items across down prefix x y j ≡ false }
        ensures { (prefix : List ℕ) (x y : ℕ)
            → clauses_hold result prefix x y ≡ all_below count (clause_holds columns.items across down prefix x y) }
    {
        let reach = walk_keys::bits::either(across.any(), down.any());
        Clauses {
            count,
            columns,
            across,
            down,
            reach,
        }
    }

    /// One clause, with what makes it true.
    pub(crate) fn one(columns: Vec<ClauseColumn>, across: ClauseRow, down: ClauseRow) -> Clauses
        requires { (prefix : List ℕ) (x y j : ℕ) → 1 ≤ j → clause_holds columns.items across down prefix x y j ≡ false }
        ensures { (prefix : List ℕ) (x y : ℕ)
            → clauses_hold result prefix x y ≡ clause_holds columns.items across down prefix x y 0 }
    {
        Clauses::new(1, columns, across, down)
    }

    /// Both conjunctions as one, with the bits of the second moved up.
    fn united(
        alloc: Global,
        first: Clauses,
        second: Clauses,
        by: u64,
        count: u64,
    ) -> Result<Clauses, AllocError>
        requires by { by < 64 }
        requires few { count ≤ 64 }
        requires first { first.count ≤ count }
        requires second { by + second.count ≤ count }
        ensures { IfOk result (λ clauses. (prefix : List ℕ) (x y : ℕ)
            → clauses_hold clauses prefix x y ≡ all_below count (λ j.
            clause_holds first.columns.items first.across first.down prefix x y j
            || moved by (clause_holds second.columns.items second.across second.down prefix x y) j)) }
    {
        let columns = columns_with(alloc, first.columns, second.columns, by)?;
        let across = first.across.either(second.across.moved_up(by));
        let down = first.down.either(second.down.moved_up(by));
        Ok(Clauses::new(count, columns, across, down))
    }

    /// Whether both conjunctions, or one of them, are one conjunction of few enough clauses.
    pub(crate) fn can_join(&self, is_and: bool, other: &Clauses) -> bool
        ensures { result ≡ can_join is_and self.now.count other.now.count }
    {
        if is_and {
            self.count < CLAUSE_LIMIT && self.count + other.count <= CLAUSE_LIMIT
        } else {
            self.count == 1 && other.count == 1
        }
    }

    /// Both conjunctions, or one of them.
    ///
    /// # Errors
    /// An allocation was refused.
    pub(crate) fn join(
        alloc: Global,
        is_and: bool,
        first: Clauses,
        second: Clauses,
    ) -> Result<Clauses, AllocError>
        requires { IsTrue (can_join is_and first.count second.count) }
        ensures { IfOk result (λ clauses. (prefix : List ℕ) (x y : ℕ) → clauses_hold clauses prefix x y
            ≡ joined is_and (clauses_hold first prefix x y) (clauses_hold second prefix x y)) }
    {
        if is_and {
            let by = first.count;
            let count = by + second.count;
            Ok(Clauses::united(alloc, first, second, by, count)?)
        } else {
            Ok(Clauses::united(alloc, first, second, 0, 1)?)
        }
    }

    /// The bits that the first processes have.
    fn base(&self, prefix: &[u64]) -> u64
        ensures { (j : ℕ) → has_bit result j ≡ columns_have self.now.columns.items prefix.now j }
    {
        let mut word = walk_keys::bits::lowest(0);
        for column in &self.columns {
            word = walk_keys::bits::either(word, column.row.at(count_of(prefix, column.process)));
        }
        word
    }

    /// Whether all clauses are true at the cut with these counts of the last two processes, where the first processes
    /// have the bits of `base`.
    fn holds(&self, base: u64, x: u64, y: u64) -> bool
        ensures { (prefix : List ℕ) → ((j : ℕ) → has_bit base j ≡ columns_have self.now.columns.items prefix j)
            → result ≡ clauses_hold self.now prefix x y }
    {
        let first = walk_keys::bits::either(base, self.across.at(x));
        has_lowest(walk_keys::bits::either(first, self.down.at(y)), self.count)
    }

    /// Whether all clauses may be true at some cut where the first processes have the bits of `base`.
    fn may_hold(&self, base: u64) -> bool
        ensures { result ≡ false → (prefix : List ℕ) (x y : ℕ)
            → ((j : ℕ) → has_bit base j ≡ columns_have self.now.columns.items prefix j)
            → clauses_hold self.now prefix x y ≡ false }
    {
        has_lowest(walk_keys::bits::either(base, self.reach), self.count)
    }

    /// `holds` where the counts of the last two processes have words of their own.
    fn holds_within(&self, base: u64, x: u64, y: u64) -> bool
        requires x { x < length self.now.across.words.items }
        requires y { y < length self.now.down.words.items }
        ensures { (prefix : List ℕ) → ((j : ℕ) → has_bit base j ≡ columns_have self.now.columns.items prefix j)
            → result ≡ clauses_hold self.now prefix x y }
    {
        let first = walk_keys::bits::either(base, self.across.word(x));
        has_lowest(
            walk_keys::bits::either(first, self.down.word(y)),
            self.count,
        )
    }

    /// `mask` where the first processes have the bits of `base`.
    fn mask_after(&self, base: u64, x: u64, y: u64, n: u64) -> u64
        requires few { n ≤ 64 }
        requires low { x ≤ event_limit }
        requires down { n ≤ y + 1 }
        ensures within { (prefix : List ℕ)
            → ((j : ℕ) → has_bit base j ≡ columns_have self.now.columns.items prefix j)
            → (j : ℕ) → j < n → has_bit result j ≡ clauses_hold self.now prefix (x + j) (y - j) }
        ensures beyond { (j : ℕ) → n ≤ j → has_bit result j ≡ false }
    {
        let mut mask = walk_keys::bits::lowest(0);
        for j in 0..n {
            let truth = self.holds(base, x + j, y - j);
            mask = put(mask, j, truth);
        }
        mask
    }

    /// `mask_after` where the counts of the last two processes have words of their own.
    fn mask_within(&self, base: u64, x: u64, y: u64, n: u64) -> u64
        requires few { n ≤ 64 }
        requires low { x ≤ event_limit }
        requires down { n ≤ y + 1 }
        requires across { x + n ≤ length self.now.across.words.items }
        requires high { y + 1 ≤ length self.now.down.words.items }
        ensures within { (prefix : List ℕ)
            → ((j : ℕ) → has_bit base j ≡ columns_have self.now.columns.items prefix j)
            → (j : ℕ) → j < n → has_bit result j ≡ clauses_hold self.now prefix (x + j) (y - j) }
        ensures beyond { (j : ℕ) → n ≤ j → has_bit result j ≡ false }
    {
        let mut mask = walk_keys::bits::lowest(0);
        for j in 0..n {
            let truth = self.holds_within(base, x + j, y - j);
            mask = put(mask, j, truth);
        }
        mask
    }

    /// Of which of `n` neighboring cuts all clauses are true: bit `j` is that of the cut with `x + j` and `y - j`.
    pub(crate) fn mask(&self, prefix: &[u64], x: u64, y: u64, n: u64) -> u64
        requires few { n ≤ 64 }
        requires low { x ≤ event_limit }
        requires down { n ≤ y + 1 }
        ensures within { (j : ℕ) → j < n → has_bit result j ≡ clauses_hold self.now prefix.now (x + j) (y - j) }
        ensures beyond { (j : ℕ) → n ≤ j → has_bit result j ≡ false }
    {
        let base = self.base(prefix);
        if has_lowest(base, self.count) {
            return walk_keys::bits::lowest(n);
        }
        if !self.may_hold(base) {
            return walk_keys::bits::lowest(0);
        }
        if self.across.has_words(x + n) && y < u64::MAX && self.down.has_words(y + 1) {
            self.mask_within(base, x, y, n)
        } else {
            self.mask_after(base, x, y, n)
        }
    }

    /// Whether all clauses may be true at some cut with this prefix.
    pub(crate) fn may(&self, prefix: &[u64]) -> bool
        ensures { result ≡ false → (x y : ℕ) → clauses_hold self.now prefix.now x y ≡ false }
    {
        self.may_hold(self.base(prefix))
    }

    /// Whether it is sure that all clauses are true at each cut with this prefix.
    pub(crate) fn must(&self, prefix: &[u64]) -> bool
        ensures { result ≡ true → (x y : ℕ) → clauses_hold self.now prefix.now x y ≡ true }
    {
        has_lowest(self.base(prefix), self.count)
    }
}
