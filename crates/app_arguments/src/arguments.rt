//! What the arguments ask for, by what the command line's parser finds in them.
ghost use Rattle.clap.specs.Simple.{app_of, subcommand_of, subcommand_rows_of};
ghost use Rattle.clap.specs.Values.{kind_of};
ghost use Rattle.clap.specs.Walk.{Text, all_of, first_of};
ghost use Rattle.app_arguments.specs.Arguments.{AreConditions, AreTaken, IsAddressText, IsNumberText, IsPlace, IsShownKind, IsToken, MayNameNumber, NamesAllOptions, NamesExtent, NamesFormat, NamesNumber, NamesOptions, NamesPage, NamesScope, NamesService, NamesSession, NamesThreads, NamesToken, SaysFlag, kind_text, texts_of, wishes_in};
ghost use Rattle.app_arguments.specs.ConditionViews.{fail_on_view};
ghost use Rattle.app_arguments.specs.Formats.{format_text};
ghost use Rattle.app_arguments.specs.Places as places;
ghost use Rattle.app_arguments.specs.Table.{monitor_app, port_limit, watcher_limit};
ghost use Rattle.app_arguments.specs.Views.{Finds, FindsJudgement, FindsRequest, FindsService, IsAsked, IsAskedIf, IsErrorOf, extent_by, format_view, names_view, page_view, place_view, rows_in, session_view, text_view};
ghost use Rattle.judge_runs.specs.Views.{wishes_view};
ghost use Rattle.out_picture.specs.Scopes.{Scope, scope_view};
ghost use Rattle.out_picture.specs.declared.extent.Extent as extents;
ghost use Rattle.out_picture.specs.declared.kind.Kind as kinds;
ghost use Rattle.pd_spec.specs.Views.{options_view};
ghost use Rattle.std.specs.Prelude.{◌≡◌, ◌≢◌, ◌≤◌, ℕ, IfErr, IfOk, IfSome, List, MatchOption, None, Option, Some, codes, false, map, option_map, true, unwrap_or};

use super::commands::program_command;
use super::fail_on::FailOn;
use super::format::Format;
use super::help::{EXTENT_USAGE, FORMAT_USAGE, KIND_USAGE, LIST_USAGE, PLACE_USAGE, TOKEN_USAGE};
use super::place::Place;
use super::request::{
    Admission, Batch, Judgement, PageOptions, Reduction, Request, Service, SessionNames, Test,
};
use super::table::{PORT_LIMIT, TOKEN_LIMIT, WATCHER_LIMIT};
use super::wishes::{named_wishes, or_none_ever};
use super::workers::Workers;
use clap::error::ErrorKind;
use clap::{ArgMatches, Command, Error};
use judge_runs::Wish;
use out_picture::{DrawOptions, Extent, Kind};
use pd_frames::has_line_feed;
use pd_spec::Options;
use std::alloc::{AllocError, Global};
use std::net::IpAddr;

/// The text of an option, or of an argument at its place.
fn text_of<'a>(matches: &ArgMatches<'a>, id: &str) -> Option<&'a str>
    ensures { text_view result ≡ first_of id.now (rows_in matches.now) }
{
    matches.get_str(id)
}

/// The texts of an argument that may have several, if it is given.
fn names_of<'a>(
    alloc: Global,
    matches: &ArgMatches<'a>,
    id: &str,
) -> Result<Option<Vec<&'a str>>, AllocError>
    ensures { IfOk result (λ found. option_map (λ names. names_view names.items) found
        ≡ all_of id.now (rows_in matches.now)) }
{
    let Some(names) = matches.get_strs(id) else {
        return Ok(None);
    };
    Ok(Some(names.to_vec(alloc)?))
}

/// The texts of an option that may be given again and again.
fn texts_of<'a>(
    alloc: Global,
    matches: &ArgMatches<'a>,
    id: &str,
) -> Result<Vec<&'a str>, AllocError>
    ensures { IfOk result (λ texts. names_view texts.items ≡ texts_of (rows_in matches.now) id.now) }
{
    match names_of(alloc, matches, id)? {
        Some(texts) => Ok(texts),
        None => Ok(Vec::new(alloc)),
    }
}

/// The number that this text is, if it is one of 64 bits.
fn number_in(text: &str) -> Option<u64>
    ensures some { IfSome result (IsNumberText text.now) }
    ensures none { result ≡ None → (n : ℕ) → ¬ IsNumberText text.now n }
{
    match u64::from_str_radix(text, 10) {
        Ok(number) => Some(number),
        Err(_) => None,
    }
}

/// The number of an option, if it has one.
fn number_of(matches: &ArgMatches<'_>, id: &str) -> Option<u64>
    ensures { MayNameNumber (rows_in matches.now) id.now result }
{
    let Some(text) = text_of(matches, id) else {
        return None;
    };
    number_in(text)
}

/// Whether the flag of this id is given.
fn flag_of(matches: &ArgMatches<'_>, id: &str) -> bool
    ensures { SaysFlag (rows_in matches.now) id.now result }
{
    matches.get_one::<bool>(id).unwrap_or(false)
}

/// The number of threads that the option of this id names, if it is one from 1 to 16.
fn threads_of(matches: &ArgMatches<'_>, id: &str) -> Option<Workers>
    ensures { Finds (NamesThreads (rows_in matches.now) id.now) (λ workers. workers.number) result }
{
    let Some(number) = number_of(matches, id) else {
        return None;
    };
    Workers::of(number)
}

/// The number of workers, if it is one from 1 to 16.
fn workers_of(matches: &ArgMatches<'_>) -> Option<Workers>
    ensures { Finds (NamesThreads (rows_in matches.now) (codes "WORKERS")) (λ workers. workers.number) result }
{
    threads_of(matches, "WORKERS")
}

/// How many runs or sessions are judged side by side, if it is a number from 1 to 16.
fn jobs_of(matches: &ArgMatches<'_>) -> Option<Workers>
    ensures { Finds (NamesThreads (rows_in matches.now) (codes "JOBS")) (λ jobs. jobs.number) result }
{
    threads_of(matches, "JOBS")
}

/// What is asked beside the document, and whether what is decided whatever the width is.
fn options_of<'a>(
    alloc: Global,
    matches: &ArgMatches<'a>,
    beyond_width: bool,
) -> Result<Options<'a>, AllocError>
    ensures options { IfOk result (λ options. NamesOptions (rows_in matches.now) (options_view options)) }
    ensures beyond { IfOk result (λ options. options.beyond_width ≡ beyond_width) }
{
    Ok(Options {
        width: number_of(matches, "WIDTH"),
        predicates: texts_of(alloc, matches, "TEXT")?,
        beyond_width,
    })
}

/// What is asked beside the document, with what its flag says.
fn all_options<'a>(alloc: Global, matches: &ArgMatches<'a>) -> Result<Options<'a>, AllocError>
    ensures { IfOk result (λ options. NamesAllOptions (rows_in matches.now) (options_view options)) }
{
    options_of(alloc, matches, flag_of(matches, "BEYOND_WIDTH"))
}

/// The conditions on which a judgement is to fail, if what is given is a list of them.
fn conditions_of<'a>(
    alloc: Global,
    matches: &ArgMatches<'a>,
) -> Result<Option<FailOn<'a>>, AllocError>
    ensures { IfOk result (Finds (AreConditions (first_of (codes "LIST") (rows_in matches.now))) fail_on_view) }
{
    let Some(list) = text_of(matches, "LIST") else {
        return Ok(Some(FailOn::nothing(alloc)));
    };
    FailOn::of(alloc, list)
}

/// The names of a session's document, of the files beside it, of this id, and of files of notes, with what is asked, if
/// the first two are there.
fn session_names<'a>(
    alloc: Global,
    matches: &ArgMatches<'a>,
    id: &str,
    options: Options<'a>,
) -> Result<Option<SessionNames<'a>>, AllocError>
    ensures names { IfOk result (λ names. IfSome names (λ names.
        NamesSession (rows_in matches.now) id.now (session_view names).0 (session_view names).1)) }
    ensures options { IfOk result (λ names. IfSome names (λ names.
        options_view names.options ≡ options_view options.entry)) }
    ensures notes { IfOk result (λ names. IfSome names (λ names.
        names_view names.notes.items ≡ texts_of (rows_in matches.now) (codes "NOTES"))) }
    ensures none { IfOk result (λ names. names ≡ None → (document : Text) (files : List Text)
        → ¬ NamesSession (rows_in matches.now) id.now document files) }
{
    let Some(spec) = text_of(matches, "SPEC") else {
        return Ok(None);
    };
    let Some(streams) = names_of(alloc, matches, id)? else {
        return Ok(None);
    };
    let notes = texts_of(alloc, matches, "NOTES")?;
    Ok(Some(SessionNames {
        spec,
        streams,
        options,
        notes,
    }))
}

/// What a judgement of files is asked for, if all names are there.
fn judgement_of<'a>(
    alloc: Global,
    matches: &ArgMatches<'a>,
) -> Result<Option<Judgement<'a>>, AllocError>
    ensures { IfOk result (FindsJudgement (rows_in matches.now)) }
{
    let Some(workers) = workers_of(matches) else {
        return Ok(None);
    };
    let options = all_options(alloc, matches)?;
    let Some(names) = session_names(alloc, matches, "STREAM", options)? else {
        return Ok(None);
    };
    let Some(fail_on) = conditions_of(alloc, matches)? else {
        return Ok(None);
    };
    Ok(Some(Judgement {
        names,
        fail_on,
        workers,
    }))
}

/// Whether the bytes are this text.
fn is(word: &[u8], text: &str) -> bool
    ensures yes { result ≡ true → word.now ≡ text.now }
    ensures no { result ≡ false → ¬ (word.now ≡ text.now) }
{
    word == text.as_bytes()
}

/// The format of this word, or lines of text if there is no word, unless it is no format's.
fn format_by(word: Option<&str>) -> Option<Format>
    ensures { Finds (λ format. unwrap_or (text_view word.entry) (codes "text") ≡ format_text format) format_view
        result }
{
    let Some(word) = word else {
        return Some(Format::Plain);
    };
    if is(word.as_bytes(), "text") {
        return Some(Format::Plain);
    }
    if is(word.as_bytes(), "json") {
        return Some(Format::Json);
    }
    None
}

/// The format of what is written, if its option has the word of one or isn't given.
fn format_of(matches: &ArgMatches<'_>) -> Option<Format>
    ensures { Finds (NamesFormat (rows_in matches.now)) format_view result }
{
    format_by(text_of(matches, "FORMAT"))
}

/// What the arguments of `judge` ask for, if all names are there.
fn judge_request<'a>(
    alloc: Global,
    matches: &ArgMatches<'a>,
) -> Result<Option<Request<'a>>, AllocError>
    ensures { IfOk result (FindsRequest (codes "judge") (rows_in matches.now)) }
{
    let Some(judgement) = judgement_of(alloc, matches)? else {
        return Ok(None);
    };
    let Some(format) = format_of(matches) else {
        return Ok(None);
    };
    Ok(Some(Request::Judge(judgement, format)))
}

/// What the arguments of `check` ask for, if all names are there.
fn check_request<'a>(
    alloc: Global,
    matches: &ArgMatches<'a>,
) -> Result<Option<Request<'a>>, AllocError>
    ensures { IfOk result (FindsRequest (codes "check") (rows_in matches.now)) }
{
    let Some(report) = text_of(matches, "REPORT") else {
        return Ok(None);
    };
    let Some(format) = format_of(matches) else {
        return Ok(None);
    };
    let options = options_of(alloc, matches, false)?;
    let Some(names) = session_names(alloc, matches, "STREAM", options)? else {
        return Ok(None);
    };
    Ok(Some(Request::Check(report, names, format)))
}

/// The kind of evidence of this word, or none if there is no word, unless it is no kind's.
fn kind_by(word: Option<&str>) -> Option<Option<Kind>>
    ensures { Finds (λ kind. text_view word.entry ≡ option_map kind_text kind) (λ kind. kind) result }
{
    let Some(word) = word else {
        return Some(None);
    };
    if is(word.as_bytes(), "possibly") {
        return Some(Some(Kind::Possibly));
    }
    if is(word.as_bytes(), "definitely") {
        return Some(Some(Kind::Definitely));
    }
    None
}

/// How much of a run is asked for by the number of a column, if there is one, and by the flag, unless both are given.
fn extent_by(column: Option<u64>, all: bool) -> Option<Extent>
    ensures { result ≡ extent_by column all }
{
    match (column, all) {
        (None, false) => Some(Extent::Around),
        (None, true) => Some(Extent::All),
        (Some(column), false) => Some(Extent::From(column)),
        (Some(_), true) => None,
    }
}

/// How much of a run is asked for, unless it is all columns and those from one on.
fn extent_of(matches: &ArgMatches<'_>) -> Option<Extent>
    ensures { Finds (NamesExtent (rows_in matches.now)) (λ extent. extent) result }
{
    extent_by(number_of(matches, "COLUMN"), flag_of(matches, "ALL"))
}

/// What is asked of a picture, if it is something that could be.
fn scope_of<'a>(matches: &ArgMatches<'a>) -> Option<DrawOptions<'a>>
    ensures { Finds (NamesScope (rows_in matches.now)) scope_view result }
{
    let Some(extent) = extent_of(matches) else {
        return None;
    };
    let Some(kind) = kind_by(text_of(matches, "KIND")) else {
        return None;
    };
    Some(DrawOptions {
        predicate: text_of(matches, "PREDICATE"),
        kind,
        extent,
    })
}

/// What the arguments of `draw` ask for, if all names of files are there, and the picture is one that could be.
fn draw_request<'a>(
    alloc: Global,
    matches: &ArgMatches<'a>,
) -> Result<Option<Request<'a>>, AllocError>
    ensures { IfOk result (FindsRequest (codes "draw") (rows_in matches.now)) }
{
    let Some(scope) = scope_of(matches) else {
        return Ok(None);
    };
    let options = all_options(alloc, matches)?;
    let Some(names) = session_names(alloc, matches, "FILE", options)? else {
        return Ok(None);
    };
    Ok(Some(Request::Draw(scope, names)))
}

/// Whether the text is one of an IP address.
fn is_address(text: &str) -> bool
    ensures yes { result ≡ true → IsAddressText text.now }
    ensures no { result ≡ false → ¬ IsAddressText text.now }
{
    IpAddr::parse_ascii(text.as_bytes()).is_ok()
}

/// Whether there is no text, or one of an IP address.
fn may_be_address(text: Option<&str>) -> bool
    ensures yes { result ≡ true → IfSome (text_view text.entry) IsAddressText }
    ensures no { result ≡ false → ¬ IfSome (text_view text.entry) IsAddressText }
{
    match text {
        Some(text) => is_address(text),
        None => true,
    }
}

/// The place of this port, unless it is the last one, with this address and the name of a file for the port.
fn port_place<'a>(number: u64, address: Option<&'a str>, file: Option<&str>) -> Option<Place<'a>>
    ensures { MatchOption result
        (¬ ((number ≤ port_limit) × (number ≡ 0 → text_view file.entry ≢ None)
        × IfSome (text_view address.entry) IsAddressText))
        (λ place. (place_view place ≡ places.OnPort (text_view address.entry) number) × (number ≤ port_limit)
        × (number ≡ 0 → text_view file.entry ≢ None) × IfSome (text_view address.entry) IsAddressText) }
{
    if number > PORT_LIMIT || (number == 0 && file.is_none()) || !may_be_address(address) {
        return None;
    }
    Some(Place::Port(address, number as u16))
}

/// The place where a server accepts connections, if one is named, and nothing beside it that it hasn't.
fn place_of<'a>(matches: &ArgMatches<'a>) -> Option<Place<'a>>
    ensures { Finds (IsPlace (rows_in matches.now) (first_of (codes "ADDRESS") (rows_in matches.now))
        (first_of (codes "PATH") (rows_in matches.now)) (first_of (codes "PORT_FILE") (rows_in matches.now)))
        place_view result }
{
    let address = text_of(matches, "ADDRESS");
    let file = text_of(matches, "PORT_FILE");
    let Some(path) = text_of(matches, "PATH") else {
        let Some(number) = number_of(matches, "PORT") else {
            return None;
        };
        return port_place(number, address, file);
    };
    if text_of(matches, "PORT").is_some() || address.is_some() || file.is_some() {
        return None;
    }
    Some(Place::Socket(path))
}

/// The number of watchers, if it is at most 64.
fn watchers_of(matches: &ArgMatches<'_>) -> Option<u64>
    ensures { Finds (λ n. NamesNumber (rows_in matches.now) (codes "WATCHERS") n × (n ≤ watcher_limit)) (λ n. n)
        result }
{
    let Some(number) = number_of(matches, "WATCHERS") else {
        return None;
    };
    if number > WATCHER_LIMIT {
        return None;
    }
    Some(number)
}

/// Whether a text is a token.
fn is_token(text: &str) -> bool
    ensures yes { result ≡ true → IsToken text.now }
    ensures no { result ≡ false → ¬ IsToken text.now }
{
    !text.is_empty() && text.len() <= TOKEN_LIMIT && !has_line_feed(text.as_bytes())
}

/// Which connections are streams of a server, if what is given as its token is one, and no file of one beside it.
fn admission_of<'a>(matches: &ArgMatches<'a>) -> Option<Admission<'a>>
    ensures named { IfSome result (λ _. NamesToken (rows_in matches.now)) }
    ensures unnamed { result ≡ None → ¬ NamesToken (rows_in matches.now) }
{
    let token = text_of(matches, "TOKEN");
    let token_file = text_of(matches, "TOKEN_FILE");
    if let Some(text) = token {
        if token_file.is_some() || !is_token(text) {
            return None;
        }
    }
    Some(Admission {
        join_first: flag_of(matches, "JOIN_FIRST"),
        token,
        token_file,
        idle: number_of(matches, "IDLE"),
    })
}

/// What a server with these options, these conditions and this format is asked for, if all else is there.
fn service_of<'a>(
    matches: &ArgMatches<'a>,
    options: Options<'a>,
    fail_on: FailOn<'a>,
    format: Format,
) -> Option<Service<'a>>
    ensures found { FindsService (rows_in matches.now) result }
    ensures options { IfSome result (λ service. options_view service.options ≡ options_view options.entry) }
    ensures conditions { IfSome result (λ service. fail_on_view service.fail_on ≡ fail_on_view fail_on.entry) }
    ensures format { IfSome result (λ service. service.format ≡ format) }
{
    let Some(spec) = text_of(matches, "SPEC") else {
        return None;
    };
    let Some(place) = place_of(matches) else {
        return None;
    };
    let Some(watchers) = watchers_of(matches) else {
        return None;
    };
    let Some(workers) = workers_of(matches) else {
        return None;
    };
    let Some(admission) = admission_of(matches) else {
        return None;
    };
    Some(Service {
        spec,
        options,
        place,
        port_file: text_of(matches, "PORT_FILE"),
        watchers,
        wait: number_of(matches, "SECONDS"),
        admission,
        keep: text_of(matches, "FOLDER"),
        fail_on,
        format,
        workers,
    })
}

/// What the arguments of `serve` ask for, if all are there.
fn serve_request<'a>(
    alloc: Global,
    matches: &ArgMatches<'a>,
) -> Result<Option<Request<'a>>, AllocError>
    ensures { IfOk result (FindsRequest (codes "serve") (rows_in matches.now)) }
{
    let Some(fail_on) = conditions_of(alloc, matches)? else {
        return Ok(None);
    };
    let Some(format) = format_of(matches) else {
        return Ok(None);
    };
    let options = all_options(alloc, matches)?;
    let Some(service) = service_of(matches, options, fail_on, format) else {
        return Ok(None);
    };
    Ok(Some(Request::Serve(service)))
}

/// What is wished of predicates by their names.
fn wished_of<'a>(alloc: Global, matches: &ArgMatches<'a>) -> Result<Vec<Wish<'a>>, AllocError>
    ensures { IfOk result (λ wishes. wishes_view wishes.items ≡ wishes_in (rows_in matches.now)) }
{
    let never = texts_of(alloc, matches, "NEVER")?;
    let always = texts_of(alloc, matches, "ALWAYS")?;
    let sometimes = texts_of(alloc, matches, "SOMETIMES")?;
    named_wishes(alloc, &never, &always, &sometimes)
}

/// What is asked of a page.
fn page_of<'a>(alloc: Global, matches: &ArgMatches<'a>) -> Result<PageOptions<'a>, AllocError>
    ensures { IfOk result (λ page. NamesPage (rows_in matches.now) (page_view page)) }
{
    Ok(PageOptions {
        wishes: wished_of(alloc, matches)?,
        notes: texts_of(alloc, matches, "NOTES")?,
        link: text_of(matches, "PATTERN"),
    })
}

/// What the arguments of `explore` ask for, if all names are there.
fn explore_request<'a>(
    alloc: Global,
    matches: &ArgMatches<'a>,
) -> Result<Option<Request<'a>>, AllocError>
    ensures { IfOk result (FindsRequest (codes "explore") (rows_in matches.now)) }
{
    let Some(judgement) = judgement_of(alloc, matches)? else {
        return Ok(None);
    };
    let page = page_of(alloc, matches)?;
    Ok(Some(Request::Explore(judgement, page)))
}

/// What the arguments of `test` ask for, if a run is named.
fn test_request<'a>(
    alloc: Global,
    matches: &ArgMatches<'a>,
) -> Result<Option<Request<'a>>, AllocError>
    ensures { IfOk result (FindsRequest (codes "test") (rows_in matches.now)) }
{
    let Some(runs) = names_of(alloc, matches, "RUN")? else {
        return Ok(None);
    };
    let Some(workers) = workers_of(matches) else {
        return Ok(None);
    };
    let Some(jobs) = jobs_of(matches) else {
        return Ok(None);
    };
    let Some(format) = format_of(matches) else {
        return Ok(None);
    };
    let options = options_of(alloc, matches, true)?;
    let wishes = or_none_ever(wished_of(alloc, matches)?)?;
    Ok(Some(Request::Test(Test {
        runs,
        options,
        wishes,
        format,
        workers,
        jobs,
        pages: text_of(matches, "FOLDER"),
        json: text_of(matches, "JSON"),
        junit: text_of(matches, "JUNIT"),
    })))
}

/// What the arguments of `infer` ask for, if a stream is named.
fn infer_request<'a>(
    alloc: Global,
    matches: &ArgMatches<'a>,
) -> Result<Option<Request<'a>>, AllocError>
    ensures { IfOk result (FindsRequest (codes "infer") (rows_in matches.now)) }
{
    let Some(streams) = names_of(alloc, matches, "STREAM")? else {
        return Ok(None);
    };
    Ok(Some(Request::Infer(streams)))
}

/// What the arguments of `reduce` ask for, if all names are there.
fn reduce_request<'a>(
    alloc: Global,
    matches: &ArgMatches<'a>,
) -> Result<Option<Request<'a>>, AllocError>
    ensures { IfOk result (FindsRequest (codes "reduce") (rows_in matches.now)) }
{
    let Some(folder) = text_of(matches, "FOLDER") else {
        return Ok(None);
    };
    let options = options_of(alloc, matches, false)?;
    let Some(names) = session_names(alloc, matches, "STREAM", options)? else {
        return Ok(None);
    };
    Ok(Some(Request::Reduce(Reduction { names, folder })))
}

/// What the arguments of `batch` ask for, if all that they give could be.
fn batch_request<'a>(
    alloc: Global,
    matches: &ArgMatches<'a>,
) -> Result<Option<Request<'a>>, AllocError>
    ensures { IfOk result (FindsRequest (codes "batch") (rows_in matches.now)) }
{
    let Some(workers) = workers_of(matches) else {
        return Ok(None);
    };
    let Some(jobs) = jobs_of(matches) else {
        return Ok(None);
    };
    let options = all_options(alloc, matches)?;
    let Some(fail_on) = conditions_of(alloc, matches)? else {
        return Ok(None);
    };
    Ok(Some(Request::Batch(Batch {
        options,
        fail_on,
        workers,
        jobs,
        in_bundles: flag_of(matches, "BUNDLES"),
    })))
}

/// What the arguments of `bundle` ask for, if a run is named.
fn bundle_request<'a>(
    alloc: Global,
    matches: &ArgMatches<'a>,
) -> Result<Option<Request<'a>>, AllocError>
    ensures { IfOk result (FindsRequest (codes "bundle") (rows_in matches.now)) }
{
    let Some(runs) = names_of(alloc, matches, "RUN")? else {
        return Ok(None);
    };
    Ok(Some(Request::BundleRuns(runs)))
}

/// What is asked for by the command of this name, by what the parser found, if that names anything.
fn request_by_command<'a>(
    alloc: Global,
    name: &str,
    matches: &ArgMatches<'a>,
) -> Result<Option<Request<'a>>, AllocError>
    ensures { IfOk result (FindsRequest name.now (rows_in matches.now)) }
{
    match name {
        "judge" => judge_request(alloc, matches),
        "check" => check_request(alloc, matches),
        "draw" => draw_request(alloc, matches),
        "serve" => serve_request(alloc, matches),
        "explore" => explore_request(alloc, matches),
        "test" => test_request(alloc, matches),
        "infer" => infer_request(alloc, matches),
        "reduce" => reduce_request(alloc, matches),
        "batch" => batch_request(alloc, matches),
        "bundle" => bundle_request(alloc, matches),
        "merge" => Ok(Some(Request::Merge)),
        _ => Ok(None),
    }
}

/// What is asked for, by what the parser found, if no name of a file and no number is missing.
fn request_of<'a>(
    alloc: Global,
    matches: &ArgMatches<'a>,
) -> Result<Option<Request<'a>>, AllocError>
    ensures { IfOk result (λ request. (arguments : List Text) → AreTaken arguments
        → subcommand_rows_of matches.now ≡ subcommand_of monitor_app arguments
        → IsAskedIf arguments request) }
{
    match matches.subcommand() {
        Some((name, found)) => request_by_command(alloc, name, found),
        None => Ok(Some(Request::Bundle)),
    }
}

/// What is wanted in place of what is given, if these arguments lack nothing but ask for nothing that could be.
fn usage(command: &str, found: &ArgMatches<'_>) -> Option<&'static str> {
    if command == "serve" && place_of(found).is_none() {
        return Some(PLACE_USAGE);
    }
    if command == "serve" && admission_of(found).is_none() {
        return Some(TOKEN_USAGE);
    }
    if format_of(found).is_none() {
        return Some(FORMAT_USAGE);
    }
    if found.contains_id("LIST") {
        return Some(LIST_USAGE);
    }
    if found.contains_id("COLUMN") && flag_of(found, "ALL") {
        return Some(EXTENT_USAGE);
    }
    if found.contains_id("KIND") {
        return Some(KIND_USAGE);
    }
    None
}

/// An error of this kind with this text.
fn error_of(command: &mut Command<'_>, kind: ErrorKind, text: &str) -> Error
    ensures { kind_of result ≢ ErrorKind.OutOfMemory → kind_of result ≡ kind }
{
    match command.error(kind, text) {
        Ok(error) => error,
        Err(refused) => Error::from(refused),
    }
}

/// The error of a command of which this is wanted in place of what is given, or that lacks a name of a file or a
/// number. The parser finds the latter itself, so if something is wanted, the error says that.
fn unclear_arguments(command: &mut Command<'_>, wanted: Option<&str>) -> Error
    ensures { kind_of result ≢ ErrorKind.OutOfMemory → ¬ IsShownKind (kind_of result) }
{
    match wanted {
        Some(text) => error_of(command, ErrorKind::ValueValidation, text),
        None => error_of(
            command,
            ErrorKind::MissingRequiredArgument,
            "a name of a file or a number is missing",
        ),
    }
}

/// What the arguments ask for, as the program's command line takes them, or what its parser has to say.
fn request_by<'a>(
    alloc: Global,
    command: &mut Command<'a>,
    arguments: &'a [String],
) -> Result<Request<'a>, Error>
    requires { app_of command.old ≡ monitor_app }
    ensures asked { IfOk result (λ request.
        IsAsked (map (λ argument. argument.bytes.items) arguments.entry.now) request) }
    ensures refused { IfErr result (λ error.
        IsErrorOf (map (λ argument. argument.bytes.items) arguments.entry.now) (kind_of error)) }
{
    let matches = match command.try_get_matches_from_mut(arguments) {
        Ok(matches) => matches,
        Err(error) => return Err(error),
    };
    let Some(request) = request_of(alloc, &matches)? else {
        let wanted = match matches.subcommand() {
            Some((name, found)) => usage(name, found),
            None => None,
        };
        return Err(unclear_arguments(command, wanted));
    };
    Ok(request)
}

/// Parses the arguments after the program's name.
///
/// # Errors
/// What the parser has to say: the help that was asked for, what is wrong with the arguments, or that an allocation was
/// refused.
pub fn parse<'a>(alloc: Global, arguments: &'a [String]) -> Result<Request<'a>, Error>
    ensures asked { IfOk result (λ request.
        IsAsked (map (λ argument. argument.bytes.items) arguments.entry.now) request) }
    ensures refused { IfErr result (λ error.
        IsErrorOf (map (λ argument. argument.bytes.items) arguments.entry.now) (kind_of error)) }
{
    let mut command = program_command(alloc)?;
    request_by(alloc, &mut command, arguments)
}
