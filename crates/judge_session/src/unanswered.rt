//! Why a session comes to no answers.
ghost use Rattle.judge_session.specs.Unanswered.{given_report, settled_report};
ghost use Rattle.std.specs.Prelude.{◌≡◌, IsOkUnless};

use super::EngineFault;
use pd_gather::GatherFault;
use pd_report::{Refusal, Report};
use std::alloc::AllocError;

/// Why a session comes to no answers.
#[derive(Drop)]
pub enum Unanswered {
    /// The session is refused.
    Refused(Refusal),
    /// An allocation was refused.
    Memory,
}

impl From<AllocError> for Unanswered {
    ghost use Rattle.judge_session.specs.declared.unanswered.Unanswered.TheVariants.{Memory};

    ghost from_gives = { λ _ unanswered. unanswered ≡ Memory };

    fn from(_e: AllocError) -> Unanswered {
        Unanswered::Memory
    }
}

impl From<GatherFault> for Unanswered {
    ghost use Rattle.judge_session.specs.declared.unanswered.Unanswered.TheVariants.{Memory};

    ghost from_gives = { λ _ unanswered. unanswered ≡ Memory };

    fn from(_e: GatherFault) -> Unanswered {
        Unanswered::Memory
    }
}

/// The report of a session, judged or refused.
///
/// # Errors
/// `Memory`.
pub fn settled(answered: Result<Report, Unanswered>) -> Result<Report, EngineFault>
    ensures given { settled_report result ≡ given_report answered }
    ensures err { IsOkUnless result EngineFault.Memory }
{
    match answered {
        Ok(report) => Ok(report),
        Err(unanswered) => match unanswered {
            Unanswered::Refused(refusal) => Ok(Report::Refused(refusal)),
            Unanswered::Memory => Err(EngineFault::Memory),
        },
    }
}
