//! Some of the keys of a list, by their marks.
ghost use Rattle.pd_level.specs.Levels.{kept_by};
ghost use Rattle.std.specs.Prelude.{◌≡◌, length};

use super::list::KeyList;
use walk_keys::Key;

/// Keeps the keys whose mark is the one that is wanted, in their order. There is one mark for each key.
pub(crate) fn keep_marked<K: Key>(keys: &mut KeyList<K>, marks: &[bool], wanted: bool)
    requires { length marks.now ≡ length keys.old }
    ensures { keys.new ≡ kept_by wanted marks.now keys.old }
{
    let mut kept = 0;
    for i in 0..marks.len() {
        if marks[i] == wanted {
            keys.copy_within(i, kept);
            kept += 1;
        }
    }
    keys.truncate(kept);
}
