//! What is read of the run at a place in a whole level.
ghost use Rattle.walk_marks.specs.RunPlaces.{key_of_run, run_at};
ghost use Rattle.walk_runs.specs.WholeLevels.{rest_at};
ghost use Rattle.std.specs.Prelude.{◌≡◌, ◌+◌, ◌-◌, ◌<◌, ◌≤◌, ◌↔◌, IsTrue, length, take};

use walk_keys::Key;
use walk_runs::Whole;

/// The number whose digits are the counts of the prefix, and zeros for the last two processes.
pub(crate) fn key<K: Key>(level: &Whole<K>, i: usize) -> K
    requires { i < length level.now.runs }
    ensures { K.number result ≡ key_of_run (run_at level.now.runs i) }
{
    level.key(i)
}

/// The least count of the last process but one.
pub(crate) fn lo<K: Key>(level: &Whole<K>, i: usize) -> u64
    requires { i < length level.now.runs }
    ensures { result ≡ (run_at level.now.runs i).lo }
{
    level.lo(i)
}

/// The greatest count of the last process but one.
pub(crate) fn hi<K: Key>(level: &Whole<K>, i: usize) -> u64
    requires { i < length level.now.runs }
    ensures { result ≡ (run_at level.now.runs i).hi }
{
    level.hi(i)
}

/// The sum of the last two counts of each of its cuts.
pub(crate) fn rest<K: Key>(level: &Whole<K>, i: usize) -> u64
    requires { i < length level.now.runs }
    ensures { result ≡ rest_at level.now.number (run_at level.now.runs i) }
{
    level.rest(i)
}

/// Whether run `i` has the prefix of run `j` of another level, if that has as many processes.
pub(crate) fn has_prefix_of<K: Key>(level: &Whole<K>, i: usize, other: &Whole<K>, j: usize) -> bool
    requires within { i < length level.now.runs }
    requires other { j < length other.now.runs }
    ensures { level.now.processes ≡ other.now.processes → IsTrue result
        ↔ ((run_at level.now.runs i).prefix ≡ (run_at other.now.runs j).prefix) }
{
    level.has_prefix_of(i, other, j)
}

/// Writes the counts of the prefix into a row with a place for each.
pub(crate) fn write_prefix<K: Key>(level: &Whole<K>, i: usize, counts: &mut [u64])
    requires within { i < length level.now.runs }
    requires places { length counts.old + 2 ≡ level.now.processes }
    ensures { counts.new ≡ (run_at level.now.runs i).prefix }
{
    level.write_prefix(i, counts);
}

/// Writes the counts of the prefix into the first places of a row.
pub(crate) fn read_prefix<K: Key>(level: &Whole<K>, i: usize, counts: &mut [u64])
    requires within { i < length level.now.runs }
    requires processes { length (run_at level.now.runs i).prefix + 2 ≡ level.now.processes }
    requires room { level.now.processes ≤ length counts.old }
    ensures { take (level.now.processes - 2) counts.new ≡ (run_at level.now.runs i).prefix }
{
    let (prefix, _others) = counts.split_at_mut(level.processes() - 2);
    write_prefix(level, i, prefix);
}
