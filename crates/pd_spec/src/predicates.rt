//! The predicates of a document, parsed one after another.
ghost use Rattle.std.specs.Prelude.{◌≡◌, IfOk, IfErr, map};
ghost use Rattle.std.specs.List.{AllZip};
ghost use Rattle.def_format.specs.Documents.{IsNamedPredicate};
ghost use Rattle.pd_spec.specs.Named.{named_view};
ghost use Rattle.pd_spec.specs.Outlines.{predicate_outline_view};
ghost use Rattle.pd_spec.specs.Predicates.{IsFaultIn, IsFaultAmong};

use super::outline::PredicateOutline;
use super::{NamedPred, SpecFault};
use pd_pred::{Names, Pred, PredError, PredErrorKind};
use std::alloc::Global;

fn fault_in(number: u64, error: PredError) -> SpecFault
    ensures memory { error.kind ≡ PredErrorKind.Memory → result ≡ SpecFault.Memory }
    ensures other { ¬ (error.kind ≡ PredErrorKind.Memory) → result ≡ SpecFault.Predicate number error }
{
    match error.kind {
        PredErrorKind::Memory => SpecFault::Memory,
        _ => SpecFault::Predicate(number, error),
    }
}

fn parse(
    alloc: Global,
    names: &Names,
    predicate: &PredicateOutline,
    number: u64,
) -> Result<NamedPred, SpecFault>
    ensures ok { IfOk result (λ parsed. IsNamedPredicate names.now (predicate_outline_view predicate.now)
        (named_view parsed)) }
    ensures err { IfErr result (λ fault. IsFaultIn names.now (predicate_outline_view predicate.now) number fault) }
{
    let name = String::from_str(alloc, predicate.name)?;
    match Pred::parse(alloc, names, predicate.text) {
        Ok(pred) => Ok(NamedPred { name, pred }),
        Err(error) => Err(fault_in(number, error)),
    }
}

/// The predicates that the texts spell over these names.
///
/// # Errors
/// The first refused text with its number, counted from 1, or out of memory.
pub(crate) fn parse_all(
    alloc: Global,
    names: &Names,
    predicates: &[PredicateOutline],
) -> Result<Vec<NamedPred>, SpecFault>
    ensures ok { IfOk result (λ parsed. AllZip (IsNamedPredicate names.now) (map predicate_outline_view predicates.now)
        (map named_view parsed.items)) }
    ensures err { IfErr result (λ fault. IsFaultAmong names.now (map predicate_outline_view predicates.now) fault) }
{
    let mut parsed = Vec::new(alloc);
    for (index, predicate) in predicates.iter().enumerate() {
        let number = index as u64 + 1;
        let named = parse(alloc, names, predicate, number)?;
        let Ok(()) = parsed.push(named) else {
            return Err(SpecFault::Memory);
        };
    }
    Ok(parsed)
}
