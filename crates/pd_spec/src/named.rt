//! A predicate with its name.
use pd_pred::Pred;

/// A predicate of a session, with its name.
#[derive(Drop)]
pub struct NamedPred {
    /// The predicate's name.
    pub name: String,
    /// The predicate, over the variables of the session.
    pub pred: Pred,
}
