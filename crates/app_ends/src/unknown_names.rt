//! Says which predicate that is named isn't there.
use app_arguments::FailOn;
use app_explain::explain_no_predicate;
use app_text::Text;
use judge_runs::{Wish, WishKind, has_name};
use pd_spec::Spec;
use std::alloc::Global;
use std::str;

/// Says which predicate the conditions name that the document doesn't have, if there is one.
pub fn put_unknown_condition(out: &mut Text, alloc: Global, spec: &Spec, fail_on: &FailOn<'_>) {
    let predicates = spec.predicates();
    let Some(name) = fail_on.unknown_name(predicates) else {
        return;
    };
    match str::from_utf8(name) {
        Ok(name) => explain_no_predicate(out, alloc, predicates, "--fail-on", name),
        Err(_) => (),
    }
}

/// The option by which this is wished.
fn option_of(kind: WishKind) -> &'static str {
    match kind {
        WishKind::Never => "--never",
        WishKind::Always => "--always",
        WishKind::Sometimes => "--sometimes",
    }
}

/// Says which predicate the wishes name that the document doesn't have, if there is one.
pub(crate) fn put_unknown_wish(out: &mut Text, alloc: Global, spec: &Spec, wishes: &[Wish<'_>]) {
    let predicates = spec.predicates();
    for wish in wishes {
        if let Some(name) = wish.name {
            if !has_name(predicates, name.as_bytes()) {
                explain_no_predicate(out, alloc, predicates, option_of(wish.kind), name);
                return;
            }
        }
    }
}
