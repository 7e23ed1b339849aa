//! Laws of the judgement. A bundle has at most one report: bytes are at most one document, or are refused with one
//! fault, and never both; a document and what its streams report have at most one report. And a report of a computation
//! of which no level is over the width says the truth of each predicate. A check finds at most one thing, which is
//! clean exactly if no line of its text says that something is bad, or that the report isn't read. The definitions and
//! the statements stand in `specs/`. Each function here has no code: its contract is a law, which is proved
//! for all bytes.
#![tactic(auto)]

ghost use Rattle.def_judgement.specs.Findings.{CleanIsClean, OneFinding};
ghost use Rattle.def_judgement.specs.Examples.{OneAnswerByHeight, OneCutALevel, OneTrueReport};
ghost use Rattle.def_judgement.specs.Headline.{NarrowOrTooWide, Headline, HeadlineBeyondWidth, JudgementIsTrue, ReportsAgree};
ghost use Rattle.def_judgement.specs.StreamResults.{EndedHaveResults, OneListOfResults};
ghost use Rattle.def_judgement.specs.LawfulReports.{JudgementIsLawful, ReportIsLawful};
ghost use Rattle.def_judgement.specs.OneReport.{
  OneDocument,
  DocumentNotRefused,
  OneDocumentFault,
  OneReportOfResults,
  OneReportOfBundle,
  NotJudgedAndRefused,
};

/// Bytes are one document, or are refused with one fault, and never both.
pub fn one_document()
    ensures single { OneDocument }
    ensures not_refused { DocumentNotRefused }
    ensures fault { OneDocumentFault }
{}

/// Streams that have ended have results: each a trace or a fault, in its place.
pub fn ended_streams_have_results()
    ensures { EndedHaveResults }
{}

/// Streams have at most one list of results.
pub fn one_list_of_results()
    ensures { OneListOfResults }
{}

/// A document and the outcomes of its streams have one report.
pub fn one_report_of_results()
    ensures { OneReportOfResults }
{}

/// A bundle has one report, so none is both judged and refused.
pub fn one_report_of_bundle()
    ensures single { OneReportOfBundle }
    ensures judged_or_refused { NotJudgedAndRefused }
{}

/// What is the report of a bundle, or of a document and streams, is lawful: a reader takes it from its text.
pub fn report_is_lawful()
    ensures judgement { JudgementIsLawful }
    ensures bundle { ReportIsLawful }
{}

/// A computation is narrow, or some level is too wide, and never both.
pub fn narrow_or_too_wide()
    ensures { NarrowOrTooWide }
{}

/// The definitions, tried on small computations.
pub fn examples()
    ensures narrow { OneCutALevel }
    ensures truth { OneTrueReport }
    ensures height { OneAnswerByHeight }
{}

/// A report of a narrow computation says the truth of each predicate: whether some consistent cut satisfies it, and
/// whether every observation passes through such a cut; and it prints a satisfying cut or an avoiding observation.
pub fn headline()
    ensures { Headline }
{}

/// A report of a computation, however wide, says the truth of each predicate that is decided whatever the width, if
/// the document asks for that; and so does its answer of Possibly for each predicate that sums decide.
pub fn headline_beyond_width()
    ensures { HeadlineBeyondWidth }
{}

/// In the report of any traces, at every width, the answers of Possibly and of Definitely agree: yes of Definitely
/// never stands beside no of Possibly, and no cut has more events than the level beside it.
pub fn reports_agree()
    ensures { ReportsAgree }
{}

/// The report of a document's bytes and of streams is true.
pub fn judgement_is_true()
    ensures { JudgementIsTrue }
{}

/// A finding is clean exactly if no line of its text ends with the word `bad`, and none says that the report isn't
/// read.
pub fn clean_is_clean()
    ensures { CleanIsClean }
{}

/// A check finds one thing: a document's bytes, a report's bytes and streams have at most one finding.
pub fn one_finding()
    ensures { OneFinding }
{}
