//! What is known of a run that is a bundle while runs before it are judged too.
ghost use Rattle.def_format.specs.Documents as documents;
ghost use Rattle.def_judgement.specs.Writes.{Source};
ghost use Rattle.judge_bundles.specs.BundleRuns.{IsOutcomeOfBundle, IsOutcomeOfRead};
ghost use Rattle.judge_bundles.specs.Contents.{FitContents, HoldsContents};
ghost use Rattle.judge_runs.specs.Views.{wishes_view};
ghost use Rattle.judge_runs.specs.Wishes as wished;
ghost use Rattle.judge_shared.specs.Sharing.{AreSound};
ghost use Rattle.judge_shared.specs.Trials.{GivesOutcome};
ghost use Rattle.pd_spec.specs.Views.{options_view};
ghost use Rattle.std.specs.Prelude.{◌≡◌, IfOk, IsOkUnless, List, false, string_bytes};

use super::contents::{Contents, read_contents};
use def_judgement::{judgement_is_true, one_document};
use judge_runs::{Outcome, Wish};
use judge_session::EngineFault;
use judge_shared::{Orders, Trial, run_report};
use pd_engine::Gate;
use pd_expand::Crew;
use pd_gather::ByteSource;
use pd_spec::Options;
use read_bundle::BundleFault;
use std::alloc::Global;
use std::random::RandomSource;
use std::sync::Wait;
use std::thread::Threads;

/// What is known of a bundle that holds this: what is known already, or what is found of the session.
///
/// # Errors
/// `Memory`.
fn trial_of_contents<S: RandomSource + Threads + Wait + Sync, G: Gate + Sync>(
    crew: &Crew<'_, '_, S, G>,
    alloc: Global,
    contents: Contents,
    orders: &Orders,
) -> Result<Trial, EngineFault>
    requires fit { FitContents contents }
    ensures trial { IfOk result (λ trial. (options : documents.Options) (wishes : List wished.Condition)
        (input : Source) → AreSound options orders.now → HoldsContents options wishes input contents
        → GivesOutcome options (IsOutcomeOfRead options wishes input) trial) }
    ensures err { IsOkUnless result EngineFault.Memory }
{
    one_document();
    judgement_is_true();
    match contents {
        Contents::Known(outcome) => Ok(Trial::Known(outcome)),
        Contents::Session(document, spec, gathered) => {
            let found = run_report(crew, alloc, &spec, &document, gathered, orders)?;
            Ok(Trial::Judged(document, found))
        }
    }
}

/// What is known of the run that is the bundle in the file of this name, which is open, with what is asked beside its
/// document, while runs before it are judged too. It is read to its end, in pieces. Each predicate that is wished for
/// is looked up in the document before a stream is read. If a read fails, or the bundle has over 67,108,864 bytes, the
/// file is unread. What is found of a session is by its judgement, unless the answers of its order are known. The crew
/// changes how long it takes, and nothing of what comes of it.
///
/// # Errors
/// `Memory`.
pub fn trial_of_bundle<
    S: RandomSource + Threads + Wait + Sync,
    R: ByteSource + Drop,
    G: Gate + Sync,
>(
    crew: &Crew<'_, '_, S, G>,
    alloc: Global,
    options: &Options<'_>,
    wishes: &[Wish<'_>],
    orders: &Orders,
    name: String,
    reader: R,
) -> Result<Trial, EngineFault>
    requires open { R.has_ended reader ≡ false }
    ensures trial { IfOk result (λ trial. AreSound (options_view options.now) orders.now
        → GivesOutcome (options_view options.now) (IsOutcomeOfBundle (options_view options.now)
        (wishes_view wishes.now) (string_bytes name) (R.left reader)) trial) }
    ensures err { IsOkUnless result EngineFault.Memory }
{
    match read_contents(alloc, options, wishes, reader) {
        Ok(contents) => trial_of_contents(crew, alloc, contents, orders),
        Err(fault) => match fault {
            BundleFault::Memory => Err(EngineFault::Memory),
            BundleFault::Read => Ok(Trial::Known(Outcome::Unread(name))),
            BundleFault::Long => Ok(Trial::Known(Outcome::Unread(name))),
        },
    }
}
