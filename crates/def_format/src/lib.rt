//! What bytes mean: lines, records, readings, session documents, predicates and reports.
//! The definitions stand in `specs/`; each function here is a law that holds of them.
//!
//! - `limits`: the limits, by their names
//! - `version`: the version of a document
#![tactic(auto)]

mod limits;
mod version;

ghost use Rattle.def_format.specs.LineLaws.{
  ShortPartIsSound,
  LongLineIsFaulty,
  LongStreamIsFaulty,
  PartGoesOn,
  FeedEndsLine,
  PartIsFaulty,
  FeedIsFaulty,
  SoundFinishes,
};
ghost use Rattle.def_format.specs.ReadingLaws.{LinesAreRead, LinesFit, OpenIsSound, ReadingGoesOn, ReadingEnds, ReadingFails, TracesFit};
ghost use Rattle.def_format.specs.HistoryLaws.{RunsAreDecided, LegalIsDecided, RowsAreRead, EventsNeverFall};
ghost use Rattle.def_format.specs.Laws.{
  LinesGoOn,
  FaultStays,
  FaultIsFirst,
  CutsDontMatter,
  ShortIsSound,
  ClosedStays,
  DistinctAreClear,
  NoTwoTrees,
  PrefixesAreDecided,
  PrefixesAreWalked,
  WalksGoOn,
  DepthsAreHeights,
  StacksGoOn,
  OneTokenList,
  OnePredicate,
  PredicateNotRefused,
  RefusedOnce,
  OneReport,
  StopsAtOneLine,
};

pub use limits::{
    BUNDLE_BYTE_LIMIT, DEFAULT_WIDTH, DEPTH_LIMIT, DOCUMENT_BYTE_LIMIT, EVENT_LIMIT, ID_BYTE_LIMIT,
    LINE_BYTE_LIMIT, NAME_BYTE_LIMIT, PREDICATE_BYTE_LIMIT, PREDICATE_LIMIT, PROCESS_LIMIT,
    REPORT_BYTE_LIMIT, STREAM_BYTE_LIMIT, STREAM_COUNT_LIMIT, VAR_LIMIT, WIDTH_LIMIT, WORKER_LIMIT,
};
pub use version::Version;

/// The lines of more bytes begin with the lines of these.
pub fn lines_go_on()
    ensures { LinesGoOn }
{}

/// Bytes after a fault change neither the fault nor the lines.
pub fn fault_stays()
    ensures { FaultStays }
{}

/// The fault is that of the first byte that has one.
pub fn fault_is_first()
    ensures { FaultIsFirst }
{}

/// However the bytes are cut into pieces, the lines are the same.
pub fn cuts_dont_matter()
    ensures { CutsDontMatter }
{}

/// Bytes that are no more than one line may have hold no fault.
pub fn short_is_sound()
    ensures { ShortIsSound }
{}

/// The first fault of bytes without an LF that stand after others: none, of their line, or of the stream.
pub fn faults_of_parts()
    ensures sound { ShortPartIsSound }
    ensures long_line { LongLineIsFaulty }
    ensures long_stream { LongStreamIsFaulty }
{}

/// What bytes without an LF, and an LF, add to sound bytes: more of the rest, a line, or a fault after which nothing
/// counts.
pub fn lines_grow()
    ensures part { PartGoesOn }
    ensures feed { FeedEndsLine }
    ensures faulty_part { PartIsFaulty }
    ensures faulty_feed { FeedIsFaulty }
{}

/// If no more bytes come, the rest of sound bytes is their last line, if it isn't empty.
pub fn rest_is_last()
    ensures { SoundFinishes }
{}

/// Nothing depends on what follows the end line or a fault.
pub fn closed_stays()
    ensures { ClosedStays }
{}

/// An open reading has no fault, and goes on line by line: by a batch, by the end, or by a read that fails.
pub fn readings_go_on()
    ensures sound { OpenIsSound }
    ensures batch { ReadingGoesOn }
    ensures end { ReadingEnds }
    ensures failure { ReadingFails }
{}

/// Lines are read one after another, and what they give fits the session's names, however many events a process may
/// have.
pub fn lines_are_read()
    ensures read { LinesAreRead }
    ensures fit { LinesFit }
{}

/// Each trace that a stream gives fits the session's names.
pub fn traces_fit()
    ensures { TracesFit }
{}

/// If no two processes have one name, and no two variables of a process, two names together refer to one variable at
/// most.
pub fn distinct_names_are_clear()
    ensures { DistinctAreClear }
{}

/// No tokens spell two predicates.
pub fn no_two_trees()
    ensures { NoTwoTrees }
{}

/// Of any tokens it can be reported whether they begin a predicate's.
pub fn prefixes_are_decided()
    ensures { PrefixesAreDecided }
{}

/// A walk finds which tokens begin a predicate's, and goes on from where it was.
pub fn prefixes_are_walked()
    ensures exact { PrefixesAreWalked }
    ensures go_on { WalksGoOn }
{}

/// The depth after tokens is the height of a stack, which goes on from what it was.
pub fn depths_are_heights()
    ensures exact { DepthsAreHeights }
    ensures go_on { StacksGoOn }
{}

/// A text is tokens in one way.
pub fn one_token_list()
    ensures { OneTokenList }
{}

/// A text is one predicate.
pub fn one_predicate()
    ensures { OnePredicate }
{}

/// No text is a predicate and refused.
pub fn predicate_not_refused()
    ensures { PredicateNotRefused }
{}

/// A text is refused with one fault, at one place.
pub fn refused_once()
    ensures { RefusedOnce }
{}

/// No two lawful reports share a text.
pub fn one_report()
    ensures { OneReport }
{}

/// Bytes stop being a report at one line.
pub fn stops_at_one_line()
    ensures { StopsAtOneLine }
{}

/// Which histories are legal can be tested. Each row has the process of the stream's join, the number of its events and
/// its state, and in a history that goes on, no stream has fewer events.
pub fn histories_are_read()
    ensures runs { RunsAreDecided }
    ensures legal { LegalIsDecided }
    ensures rows { RowsAreRead }
    ensures events { EventsNeverFall }
{}
