//! The picture, or what stands against it.
ghost use Rattle.judge_check.specs.Found.{IsFoundOf};
ghost use Rattle.judge_check.specs.Views.{finding_view};
ghost use Rattle.judge_draw.specs.Drawn.{Comes, IsChosenPicture, IsFoundFor, IsGoodAt, IsGoodChoice, IsJudged, IsLetBy, IsPictureOf, ShowsPredicate, process_names};
ghost use Rattle.judge_draw.specs.Exhibits.{ShowsNothing, run_title};
ghost use Rattle.judge_draw.specs.Runs.{IsRun};
ghost use Rattle.def_format.specs.Reports as reports;
ghost use Rattle.pd_gather.specs.Views.{traces_view};
ghost use Rattle.pd_match.specs.Views.{pairs_view};
ghost use Rattle.def_model.specs.Messages.{HasMessages};
ghost use Rattle.out_picture.specs.Pictures.{IsPicture, texts_view};
ghost use Rattle.pd_report.specs.Views as views;
ghost use Rattle.pd_spec.specs.Views.{document_view};
ghost use Rattle.out_picture.specs.Scopes.{scope_view};
ghost use Rattle.judge_draw.specs.declared.choice.Choice.TheVariants.{Lacking};
ghost use Rattle.std.specs.Prelude.{◌≡◌, ◌≢◌, ℕ, IfOk, map};

use super::choice::{Choice, chosen, is_chosen_bad, is_lacking};
use super::exhibit::{evidence_of, title_of};
use super::run::Run;
use judge_check::{Finding, find_formed};
use out_picture::{DrawOptions, Evidence, Extent, NotedPicture, picture};
use pd_pred::Names;
use pd_report::{Answer, Report};
use std::alloc::{AllocError, Global};

/// What comes of a session and a report on it.
#[derive(Drop)]
pub enum Drawn {
    /// The picture.
    Picture(NotedPicture),
    /// What the check finds, which stands against a picture.
    Bad(Finding),
    /// There is no predicate of the name that was asked for.
    NoPredicate,
    /// There is no evidence of the kind that was asked for.
    NoEvidence,
    /// The picture of a session that is refused for a causal cycle.
    Cycle(NotedPicture),
}

/// Which predicate is drawn, unless what is found stands against the picture.
fn let_by(finding: &Finding, scope: &DrawOptions<'_>) -> Option<Choice>
    ensures { IsLetBy (scope_view scope.now) (finding_view finding.now) result }
{
    match finding {
        Finding::NotRead(_) | Finding::OfRefusal(_) => None,
        Finding::OfSession(good, found) => {
            if !*good {
                return None;
            }
            match found {
                Some(checked) => {
                    let chosen = chosen(checked, scope);
                    if is_chosen_bad(checked, chosen) {
                        None
                    } else {
                        Some(chosen)
                    }
                }
                None => None,
            }
        }
    }
}

/// The names of the processes.
pub(crate) fn lane_names(alloc: Global, names: &Names) -> Result<Vec<String>, AllocError>
    ensures { IfOk result (λ lanes. texts_view lanes.items ≡ map (λ process. process.name) names.now) }
{
    let mut lanes = Vec::with_capacity(alloc, names.processes())?;
    for p in 0..names.processes() {
        lanes.push(String::from_str(alloc, names.name(p))?)?;
    }
    Ok(lanes)
}

/// The picture of the run with this evidence.
fn run_picture(
    alloc: Global,
    run: &Run<'_, '_>,
    title: &str,
    evidence: &Evidence,
    extent: Extent,
) -> Result<NotedPicture, AllocError>
    requires read { IsRun run.now }
    ensures { IfOk result (λ picture. IsPicture run.now.computation.now.events (pairs_view run.now.pairs.now)
        (process_names (document_view run.now.spec.now)) title.now evidence.now extent picture.drawing) }
{
    let lanes = lane_names(alloc, run.spec.names())?;
    picture(
        alloc,
        run.computation,
        run.traces,
        run.pairs,
        &lanes,
        title,
        evidence,
        extent,
        run.labels,
    )
}

/// The picture of the run alone.
fn draw_run(alloc: Global, run: &Run<'_, '_>, extent: Extent) -> Result<NotedPicture, AllocError>
    requires read { IsRun run.now }
    ensures { IfOk result (λ picture. IsPictureOf (document_view run.now.spec.now) (traces_view run.now.traces.now)
        (pairs_view run.now.pairs.now) (λ evidence title. ShowsNothing evidence × (title ≡ run_title)) extent
        picture.drawing) }
{
    run_picture(alloc, run, "The run", &Evidence::Absent, extent)
}

/// The picture of the run with the evidence of predicate `i`, counted from 0.
fn draw_predicate(
    alloc: Global,
    run: &Run<'_, '_>,
    answers: &[Answer],
    i: usize,
    scope: &DrawOptions<'_>,
) -> Result<NotedPicture, AllocError>
    requires read { IsRun run.now }
    requires good { IsGoodAt (document_view run.now.spec.now) run.now.computation.now
        (map views.answer_view answers.now) i }
    ensures { IfOk result (λ picture. IsPictureOf (document_view run.now.spec.now) (traces_view run.now.traces.now)
        (pairs_view run.now.pairs.now) (ShowsPredicate scope.now.kind (document_view run.now.spec.now)
        (traces_view run.now.traces.now) (map views.answer_view answers.now) i) scope.now.extent picture.drawing) }
{
    let spec = run.spec;
    let asked = &spec.predicates()[i];
    let answer = &answers[i];
    let evidence = evidence_of(
        alloc,
        scope.kind,
        spec.names(),
        run.computation,
        asked,
        answer,
    )?;
    let title = title_of(alloc, &asked.name, answer)?;
    run_picture(alloc, run, &title, &evidence, scope.extent)
}

/// The picture by this choice of a predicate, unless there is none of the name that was asked for.
fn draw_choice(
    alloc: Global,
    run: &Run<'_, '_>,
    answers: &[Answer],
    chosen: Choice,
    scope: &DrawOptions<'_>,
) -> Result<Option<NotedPicture>, AllocError>
    requires read { IsRun run.now }
    requires there { chosen ≢ Lacking }
    requires good { IsGoodChoice (document_view run.now.spec.now) run.now.computation.now
        (map views.answer_view answers.now) chosen }
    ensures { IfOk result (IsChosenPicture (document_view run.now.spec.now) (traces_view run.now.traces.now)
        (pairs_view run.now.pairs.now) (map views.answer_view answers.now) (scope_view scope.now) chosen) }
{
    match chosen {
        Choice::Unknown | Choice::Lacking => Ok(None),
        Choice::Alone => {
            let picture = draw_run(alloc, run, scope.extent)?;
            Ok(Some(picture))
        }
        Choice::Of(i) => {
            let picture = draw_predicate(alloc, run, answers, i, scope)?;
            Ok(Some(picture))
        }
    }
}

/// The picture of a report with these answers, of which this is found, or what stands against it.
fn draw_found(
    alloc: Global,
    run: &Run<'_, '_>,
    finding: Finding,
    answers: &[Answer],
    scope: &DrawOptions<'_>,
) -> Result<Drawn, AllocError>
    requires read { IsRun run.now }
    requires found { IsFoundFor (document_view run.now.spec.now) (traces_view run.now.traces.now)
        (map views.answer_view answers.now) (finding_view finding) }
    ensures { IfOk result (λ drawn. (messages : ℕ) (claimed : reports.Report)
        → IsJudged claimed (map views.answer_view answers.now)
        → IsFoundOf (document_view run.now.spec.now) (traces_view run.now.traces.now) messages claimed
        (finding_view finding)
        → Comes (document_view run.now.spec.now) (traces_view run.now.traces.now) (pairs_view run.now.pairs.now)
        messages claimed (scope_view scope.now) drawn) }
{
    let Some(chosen) = let_by(&finding, scope) else {
        return Ok(Drawn::Bad(finding));
    };
    if is_lacking(chosen) {
        return Ok(Drawn::NoEvidence);
    }
    match draw_choice(alloc, run, answers, chosen, scope)? {
        Some(picture) => Ok(Drawn::Picture(picture)),
        None => Ok(Drawn::NoPredicate),
    }
}

/// The picture of a session and a report on it, or what stands against it. It shows the evidence of the predicate of
/// the name that is asked for, and without a name that of the first predicate that has evidence; if none has, the run
/// alone. If evidence of a kind is asked for, no other counts, and without such evidence nothing is drawn. The number
/// of messages is that of the run.
///
/// # Errors
/// Out of memory.
pub fn draw(
    alloc: Global,
    run: &Run<'_, '_>,
    claimed: &Report,
    messages: u64,
    scope: &DrawOptions<'_>,
) -> Result<Drawn, AllocError>
    requires read { IsRun run.now }
    requires counted { HasMessages run.now.computation.now.events messages }
    ensures { IfOk result (Comes (document_view run.now.spec.now) (traces_view run.now.traces.now)
        (pairs_view run.now.pairs.now) messages (views.report_view claimed.now) (scope_view scope.now)) }
{
    match claimed {
        Report::Refused(_) => Ok(Drawn::Bad(Finding::OfRefusal(false))),
        Report::Judged { answers, .. } => {
            let finding = find_formed(alloc, run.spec, claimed, run.computation, messages)?;
            draw_found(alloc, run, finding, answers, scope)
        }
    }
}
