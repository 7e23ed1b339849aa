//! Why bytes are no session document.
use pd_pred::PredError;
use std::alloc::AllocError;

/// The first fault of a session document, in the order in which they are looked for.
#[derive(Clone, Copy, Debug, PartialEq, Eq)]
pub enum SpecFault {
    /// Over `DOCUMENT_BYTE_LIMIT` bytes.
    Long,
    /// The bytes are no JSON text.
    Json,
    /// The JSON value has not the fields of a document, each of its kind.
    Shape,
    /// No process, or over `PROCESS_LIMIT`.
    Processes,
    /// A process, a variable or a predicate whose name is no name.
    Name,
    /// Two processes, or two predicates, of one name.
    NameTwice,
    /// Over `VAR_LIMIT` variables of a process, or an initial value that is no whole number of 64 bits.
    Vars,
    /// No predicate, or over `PREDICATE_LIMIT`.
    Predicates,
    /// A width that is no whole number from 1 to `WIDTH_LIMIT`.
    Width,
    /// The text of this predicate, counted from 1, is refused with this error. The error is never out of memory.
    Predicate(u64, PredError),
    /// The field `version` is there and is not the whole number 1 or 2. This is looked for last.
    Version,
    /// Memory ran out.
    Memory,
}

impl From<AllocError> for SpecFault {
    ghost use Rattle.std.specs.Prelude.{◌≡◌};
    ghost use Rattle.pd_spec.specs.declared.fault.SpecFault.TheVariants.{Memory};

    ghost from_gives = { λ _ fault. fault ≡ Memory };

    fn from(_e: AllocError) -> SpecFault {
        SpecFault::Memory
    }
}
