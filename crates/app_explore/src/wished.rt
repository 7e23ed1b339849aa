//! Looks up the predicates that conditions and wishes name.
ghost use Rattle.app_arguments.specs.ConditionViews.{fail_on_view};
ghost use Rattle.app_arguments.specs.Statuses.{HasNamed, LacksNamed};
ghost use Rattle.judge_runs.specs.Views.{wishes_view};
ghost use Rattle.judge_session.specs.Inquiries.{inquiry_view};
ghost use Rattle.app_explore.specs.Explorations.{all_named, named_by};
ghost use Rattle.std.specs.Prelude.{◌≡◌, IfErr, IfOk, false, map, true};

use app_arguments::FailOn;
use app_host::{has_named, is_out_of_memory};
use def_judgement::one_document;
use judge_runs::{Wish, first_unnamed};
use judge_session::EngineFault;
use pd_engine::Inquiry;
use pd_spec::Spec;
use std::alloc::Global;

/// Whether the document, with what is asked, has each predicate that these wishes name; one that is refused has none to
/// look up. The document is read for it, unless there are no wishes.
///
/// # Errors
/// `Memory`.
fn has_wished(
    alloc: Global,
    inquiry: Inquiry<'_, '_, '_>,
    wishes: &[Wish<'_>],
) -> Result<bool, EngineFault>
    ensures yes { IfOk result (λ has. has ≡ true
        → HasNamed (map named_by (wishes_view wishes.now)) (inquiry_view inquiry.entry)) }
    ensures no { IfOk result (λ has. has ≡ false
        → LacksNamed (map named_by (wishes_view wishes.now)) (inquiry_view inquiry.entry)) }
    ensures err { IfErr result (λ fault. fault ≡ EngineFault.Memory) }
{
    one_document();
    if wishes.is_empty() {
        return Ok(true);
    }
    match Spec::read_with_options(alloc, inquiry.document, inquiry.options) {
        Ok(spec) => Ok(first_unnamed(wishes, spec.predicates()).is_none()),
        Err(fault) => {
            if is_out_of_memory(&fault) {
                return Err(EngineFault::Memory);
            }
            Ok(true)
        }
    }
}

/// The same of each predicate that conditions or wishes name.
///
/// # Errors
/// `Memory`.
pub(crate) fn has_all_named(
    alloc: Global,
    inquiry: Inquiry<'_, '_, '_>,
    fail_on: &FailOn<'_>,
    wishes: &[Wish<'_>],
) -> Result<bool, EngineFault>
    ensures yes { IfOk result (λ has. has ≡ true
        → HasNamed (all_named (fail_on_view fail_on.now) (wishes_view wishes.now)) (inquiry_view inquiry.entry)) }
    ensures no { IfOk result (λ has. has ≡ false
        → LacksNamed (all_named (fail_on_view fail_on.now) (wishes_view wishes.now)) (inquiry_view inquiry.entry)) }
    ensures err { IfErr result (λ fault. fault ≡ EngineFault.Memory) }
{
    if !has_named(alloc, inquiry, fail_on)? {
        return Ok(false);
    }
    has_wished(alloc, inquiry, wishes)
}
