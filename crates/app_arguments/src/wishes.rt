//! What is wished of the predicates of recorded runs, by their names.
ghost use Rattle.app_arguments.specs.Views.{names_view};
ghost use Rattle.judge_runs.specs.Views.{wish_kind_view, wishes_view};
ghost use Rattle.app_arguments.specs.Wishes.{or_none_ever, wishes_for};
ghost use Rattle.judge_runs.specs.Wishes.{DefinitelyYes, PossiblyNo, PossiblyYes};
ghost use Rattle.std.specs.Prelude.{◌≡◌, ◌++◌, IfOk, OnOk};

use judge_runs::{Wish, WishKind};
use std::alloc::{AllocError, Global};

/// Adds a wish of this kind for the predicate of each of these names.
fn push_wishes<'a>(
    wishes: &mut Vec<Wish<'a>>,
    kind: WishKind,
    names: &[&'a str],
) -> Result<(), AllocError>
    ensures { OnOk result (wishes_view wishes.new.items
        ≡ wishes_view wishes.old.items ++ wishes_for (wish_kind_view kind) (names_view names.now)) }
{
    for name in names {
        wishes.push(Wish {
            name: Some(*name),
            kind,
        })?;
    }
    Ok(())
}

/// These wishes, or that no predicate ever holds, if there are none.
///
/// # Errors
/// An allocation was refused.
pub(crate) fn or_none_ever<'a>(wishes: Vec<Wish<'a>>) -> Result<Vec<Wish<'a>>, AllocError>
    ensures { IfOk result (λ all. wishes_view all.items ≡ or_none_ever (wishes_view wishes.entry.items)) }
{
    let mut all = wishes;
    if all.is_empty() {
        all.push(Wish {
            name: None,
            kind: WishKind::Never,
        })?;
    }
    Ok(all)
}

/// What is wished by the names of the predicates that are never to hold, of those that always are and of those that
/// sometimes are.
///
/// # Errors
/// An allocation was refused.
pub(crate) fn named_wishes<'a>(
    alloc: Global,
    never: &[&'a str],
    always: &[&'a str],
    sometimes: &[&'a str],
) -> Result<Vec<Wish<'a>>, AllocError>
    ensures { IfOk result (λ wishes. wishes_view wishes.items
        ≡ wishes_for PossiblyNo (names_view never.now) ++ wishes_for DefinitelyYes (names_view always.now)
        ++ wishes_for PossiblyYes (names_view sometimes.now)) }
{
    let mut wishes = Vec::new(alloc);
    push_wishes(&mut wishes, WishKind::Never, never)?;
    push_wishes(&mut wishes, WishKind::Always, always)?;
    push_wishes(&mut wishes, WishKind::Sometimes, sometimes)?;
    Ok(wishes)
}
