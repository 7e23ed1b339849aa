//! Looks up the predicates that conditions name.
ghost use Rattle.app_arguments.specs.ConditionViews.{fail_on_view};
ghost use Rattle.app_arguments.specs.Statuses.{HasNamed, LacksNamed};
ghost use Rattle.app_host.specs.Faults.{is_out_of_memory};
ghost use Rattle.judge_session.specs.Inquiries.{inquiry_view};
ghost use Rattle.std.specs.Prelude.{◌≡◌, IfErr, IfOk, false, true};

use app_arguments::FailOn;
use def_judgement::one_document;
use judge_session::EngineFault;
use pd_engine::Inquiry;
use pd_spec::{Spec, SpecFault};
use std::alloc::Global;

/// Whether a document's fault is that memory ran out. If not, the document is refused.
pub fn is_out_of_memory(fault: &SpecFault) -> bool
    ensures { result ≡ is_out_of_memory fault.now }
{
    match fault {
        SpecFault::Memory => true,
        SpecFault::Long
        | SpecFault::Json
        | SpecFault::Shape
        | SpecFault::Processes
        | SpecFault::Name
        | SpecFault::NameTwice
        | SpecFault::Vars
        | SpecFault::Predicates
        | SpecFault::Width
        | SpecFault::Predicate(_, _)
        | SpecFault::Version => false,
    }
}

/// Whether the document, with what is asked, has each predicate that is named; one that is refused has none to look up.
/// The document is read for it, unless no predicate is named.
///
/// # Errors
/// `Memory`.
pub fn has_named(
    alloc: Global,
    inquiry: Inquiry<'_, '_, '_>,
    fail_on: &FailOn<'_>,
) -> Result<bool, EngineFault>
    ensures yes { IfOk result (λ has. has ≡ true → HasNamed (fail_on_view fail_on.now)
        (inquiry_view inquiry.entry)) }
    ensures no { IfOk result (λ has. has ≡ false → LacksNamed (fail_on_view fail_on.now)
        (inquiry_view inquiry.entry)) }
    ensures err { IfErr result (λ fault. fault ≡ EngineFault.Memory) }
{
    one_document();
    if !fail_on.has_names() {
        return Ok(true);
    }
    match Spec::read_with_options(alloc, inquiry.document, inquiry.options) {
        Ok(spec) => Ok(fail_on.unknown_name(spec.predicates()).is_none()),
        Err(fault) => {
            if is_out_of_memory(&fault) {
                return Err(EngineFault::Memory);
            }
            Ok(true)
        }
    }
}
