//! A run that is judged beside others, up to what comes of it.
ghost use Rattle.def_format.specs.Documents as documents;
ghost use Rattle.judge_shared.specs.Sharing.{AreSound};
ghost use Rattle.judge_shared.specs.Trials.{IsFinal, IsFinalResult, IsTrial, IsTrialResult};
ghost use Rattle.std.specs.List.{AllZip};
ghost use Rattle.std.specs.Prelude.{All, IfOk};

use super::finals::final_report;
use super::found::Found;
use super::orders::Orders;
use judge_runs::Outcome;
use judge_session::EngineFault;
use std::alloc::{AllocError, Global};

/// What is known of a run while runs before it are judged too.
#[derive(Drop)]
pub enum Trial {
    /// This comes of it, whatever the others are.
    Known(Outcome),
    /// The bytes of its document, and what is found of it.
    Judged(Vec<u8>, Found),
}

/// What comes of a run, once the runs before it are known. Its order is noted.
///
/// # Errors
/// An allocation was refused.
fn final_outcome(orders: &mut Orders, alloc: Global, trial: Trial) -> Result<Outcome, AllocError>
    ensures { IfOk result (λ outcome. (options : documents.Options) → AreSound options orders.old
        → IsTrial options trial → IsFinal options trial outcome × AreSound options orders.new) }
{
    match trial {
        Trial::Known(outcome) => Ok(outcome),
        Trial::Judged(document, found) => {
            let report = final_report(orders, alloc, document, found)?;
            Ok(Outcome::Reported(report))
        }
    }
}

/// The same of a result.
///
/// # Errors
/// An allocation was refused.
fn final_result(
    orders: &mut Orders,
    alloc: Global,
    trial: Result<Trial, EngineFault>,
) -> Result<Result<Outcome, EngineFault>, AllocError>
    ensures { IfOk result (λ outcome. (options : documents.Options) → AreSound options orders.old
        → IsTrialResult options trial → IsFinalResult options trial outcome × AreSound options orders.new) }
{
    match trial {
        Ok(trial) => Ok(Ok(final_outcome(orders, alloc, trial)?)),
        Err(fault) => Ok(Err(fault)),
    }
}

/// What comes of each of these runs, in their order, and of each the order is noted.
///
/// # Errors
/// An allocation was refused.
pub fn final_outcomes(
    orders: &mut Orders,
    alloc: Global,
    trials: Vec<Result<Trial, EngineFault>>,
) -> Result<Vec<Result<Outcome, EngineFault>>, AllocError>
    ensures { IfOk result (λ outcomes. (options : documents.Options) → AreSound options orders.old
        → All (IsTrialResult options) trials.items
        → AllZip (IsFinalResult options) trials.items outcomes.items × AreSound options orders.new) }
{
    let mut rest = trials;
    let mut outcomes = Vec::new(alloc);
    while rest.len() > 0 {
        let trial = rest.remove(0);
        outcomes.push(final_result(orders, alloc, trial)?)?;
    }
    Ok(outcomes)
}
