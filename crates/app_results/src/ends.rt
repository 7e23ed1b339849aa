//! An explanation of how a test ended, with where pages and files of results are.
use app_ends::put_fault;
use app_host::{System, World};
use app_text::{Text, rows_of};
use judge_runs::Conclusion;
use judge_session::EngineFault;

/// What came of the pages of runs that fail.
#[derive(Clone, Copy)]
pub struct PagesEnd<'a> {
    /// The name of the folder for them, if they were wanted.
    pub folder: Option<&'a str>,
    /// How many are written.
    pub count: u64,
    /// Whether all are that were wanted.
    pub are_whole: bool,
    /// Which couldn't be written first, and why, if there was memory for that.
    pub failure: Option<&'a str>,
}

/// What came of the files of results.
#[derive(Clone, Copy)]
pub struct ResultsEnd<'a> {
    /// The name of the file of JSON, if it was wanted.
    pub json: Option<&'a str>,
    /// The name of the file of JUnit, if it was wanted.
    pub junit: Option<&'a str>,
    /// Whether all are written that were wanted.
    pub are_whole: bool,
    /// Which couldn't be written first, and why, if there was memory for that.
    pub failure: Option<&'a str>,
}

/// Says where the pages of runs that fail are, if there are some.
fn put_pages(out: &mut Text, pages: PagesEnd<'_>) {
    match pages.folder {
        Some(folder) if pages.count > 0 => {
            out.say("Each run NAME that fails is explored on a page, NAME.html in the folder ");
            out.say_name(folder);
            out.say(": there are ");
            out.say_number(pages.count);
            out.say(".\n");
        }
        _ => (),
    }
}

/// Explains that not all pages could be written.
fn put_unwritten(out: &mut Text, pages: PagesEnd<'_>) {
    out.say("Not all pages of runs that fail are written. ");
    if let Some(why) = pages.failure {
        out.say_shown(why.as_bytes());
        out.say(".\n");
    }
    out.say_advice(
        "a folder in which files can be written, or a name that nothing has yet in such a folder; and room for the \
pages.",
        "give another folder after --pages, or make room.",
    );
    put_pages(out, pages);
}

/// Says which file has the results of the runs in this form, if it was wanted.
fn put_file(out: &mut Text, form: &str, file: Option<&str>) {
    let Some(name) = file else {
        return;
    };
    out.say("The results of the runs are written ");
    out.say(form);
    out.say(" into the file ");
    out.say_name(name);
    out.say(".\n");
}

/// Says where the results of the runs are, if there are files of them.
fn put_files(out: &mut Text, results: ResultsEnd<'_>) {
    put_file(out, "as one JSON object", results.json);
    put_file(out, "as a file of JUnit", results.junit);
}

/// Explains that not all files of results could be written.
fn put_unwritten_files(out: &mut Text, results: ResultsEnd<'_>) {
    out.say("Not all files of results are written. ");
    if let Some(why) = results.failure {
        out.say_shown(why.as_bytes());
        out.say(".\n");
    }
    out.say_advice(
        "a file for each name, in a folder in which files can be written, and room for it.",
        "give another name after --json or --junit, or make room.",
    );
}

/// Explains that pages or files of results couldn't be written.
fn put_unwritten_beside(out: &mut Text, pages: PagesEnd<'_>, results: ResultsEnd<'_>) {
    if !pages.are_whole {
        put_unwritten(out, pages);
    }
    if !results.are_whole {
        put_unwritten_files(out, results);
    }
}

/// Explains how a test ended, and says where pages and files of results are.
fn put_test<Y: System>(
    out: &mut Text,
    world: &World<'_, Y>,
    end: &Result<Conclusion, EngineFault>,
    pages: PagesEnd<'_>,
    results: ResultsEnd<'_>,
) {
    match end {
        Ok(Conclusion::AllPass) => put_files(out, results),
        Ok(Conclusion::SomeFails | Conclusion::SomeNotJudged) => {
            out.say(
                "What to do: a run is explained by `monitor judge --explain --beyond-width RUN/session.json \
RUN/*.stream`, and shown by `monitor explore --beyond-width` with the same files; for a bundle write `- < RUN` in \
their place.\n",
            );
            put_pages(out, pages);
            put_files(out, results);
        }
        Err(EngineFault::Write) if !pages.are_whole || !results.are_whole => {
            put_unwritten_beside(out, pages, results);
        }
        Err(fault) => put_fault(out, world, None, "", &[], fault),
    }
}

/// The explanation of how a test ended, as far as it could be made, with where pages and files of results are; empty if
/// none is wanted.
pub fn test_text<Y: System>(
    world: &World<'_, Y>,
    end: &Result<Conclusion, EngineFault>,
    pages: PagesEnd<'_>,
    results: ResultsEnd<'_>,
) -> Vec<u8> {
    let mut out = Text::new(world.alloc);
    if world.explain {
        put_test(&mut out, world, end, pages, results);
    }
    rows_of(world.alloc, out)
}
