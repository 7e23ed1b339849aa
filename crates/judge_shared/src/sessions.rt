//! A run by its document and its streams.
ghost use Rattle.def_format.specs.Documents.{inquiry_of};
ghost use Rattle.def_judgement.specs.Judgements.{IsJudgement, RawStream};
ghost use Rattle.judge_session.specs.Unanswered.{IsUnanswered};
ghost use Rattle.judge_shared.specs.Sharing.{AreSound};
ghost use Rattle.judge_shared.specs.Trials.{GivesOutcome, IsFoundOfInputs, IsReportedOf};
ghost use Rattle.pd_spec.specs.Views.{options_view};
ghost use Rattle.std.specs.Prelude.{◌≡◌, All, IfErr, IfOk, IsOkUnless, List, false, map};

use super::found::Found;
use super::orders::Orders;
use super::reports::run_report;
use super::trial::Trial;
use judge_runs::Outcome;
use judge_session::{EngineFault, Inquiry, Unanswered, read_inquiry};
use pd_expand::Crew;
use pd_gather::{ByteSource, read_streams};
use pd_level::Gate;
use pd_report::Report;
use pd_spec::Options;
use std::alloc::Global;
use std::random::RandomSource;
use std::sync::Wait;
use std::thread::Threads;

/// What is found of a run by the document of these bytes, with what is asked beside it, and by what the streams'
/// readers give.
///
/// # Errors
/// `Refused` if the document is refused, and `Memory`.
fn session_found<
    S: RandomSource + Threads + Wait + Sync,
    R: ByteSource + Send + Drop,
    G: Gate + Sync,
>(
    crew: &Crew<'_, '_, S, G>,
    alloc: Global,
    options: &Options<'_>,
    orders: &Orders,
    document: &[u8],
    readers: Vec<R>,
) -> Result<Found, Unanswered>
    requires open { All (λ r. R.has_ended r ≡ false) readers.items }
    ensures found { IfOk result (λ found. AreSound (options_view options.now) orders.now
        → IsFoundOfInputs (options_view options.now) document.now (map R.left readers.items) found) }
    ensures refused { IfErr result (IsUnanswered (λ report. (streams : List RawStream)
        → IsJudgement (inquiry_of (options_view options.now) document.now) streams report)) }
{
    def_judgement::judgement_is_true();
    let inquiry = Inquiry { document, options };
    let spec = read_inquiry(alloc, inquiry)?;
    let gathered = read_streams(crew.runtime(), alloc, &spec, readers)?;
    match run_report(crew, alloc, &spec, document, gathered, orders) {
        Ok(found) => Ok(found),
        Err(_) => Err(Unanswered::Memory),
    }
}

/// What is known of a run by the document of these bytes, with what is asked beside it, and by what the streams'
/// readers give, of which nothing is read: its refusal, or what is found of it.
///
/// # Errors
/// `Memory`.
pub fn session_trial<
    S: RandomSource + Threads + Wait + Sync,
    R: ByteSource + Send + Drop,
    G: Gate + Sync,
>(
    crew: &Crew<'_, '_, S, G>,
    alloc: Global,
    options: &Options<'_>,
    orders: &Orders,
    document: Vec<u8>,
    readers: Vec<R>,
) -> Result<Trial, EngineFault>
    requires open { All (λ r. R.has_ended r ≡ false) readers.items }
    ensures trial { IfOk result (λ trial. AreSound (options_view options.now) orders.now
        → GivesOutcome (options_view options.now)
        (IsReportedOf (inquiry_of (options_view options.now) document.items) (map R.left readers.items)) trial) }
    ensures err { IsOkUnless result EngineFault.Memory }
{
    def_judgement::judgement_is_true();
    match session_found(crew, alloc, options, orders, &document, readers) {
        Ok(found) => Ok(Trial::Judged(document, found)),
        Err(unanswered) => match unanswered {
            Unanswered::Refused(refusal) => {
                Ok(Trial::Known(Outcome::Reported(Report::Refused(refusal))))
            }
            Unanswered::Memory => Err(EngineFault::Memory),
        },
    }
}
