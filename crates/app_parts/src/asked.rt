//! Whether the arguments ask for the bundle on the input.
ghost use Rattle.std.specs.Prelude.{◌≡◌, IfOk, false};

use app_arguments::{Request, SessionNames, parse};
use clap::error::ErrorKind;
use std::alloc::{AllocError, Global};

/// The name by which the input is opened.
const INPUT: &str = "-";

/// A name that is given for a stream, to see what the arguments before it are.
const STREAM: &str = "stream 1 of standard input";

/// Where the bundle on the input stands among the arguments.
#[derive(Clone, Copy)]
enum Place {
    /// Nowhere.
    Nowhere,
    /// In the place of the session document.
    Session,
    /// After the report that is checked.
    AfterReport,
}

/// Arguments that may ask for the bundle on the input.
#[derive(Drop)]
pub struct Bundled {
    /// The arguments. If they ask for a bundle, the input stands in the place of the session document.
    pub arguments: Vec<String>,
    /// Whether they ask for it.
    pub is_asked: bool,
}

/// Whether no stream is named but the one that was given to see that.
fn has_no_stream(names: &SessionNames<'_>) -> bool {
    match names.streams.first() {
        Some(name) => names.streams.len() == 1 && *name == STREAM,
        None => false,
    }
}

/// The place of the input by the names of a session.
fn place_by_names(names: &SessionNames<'_>) -> Place {
    if has_no_stream(names) && names.spec == INPUT {
        return Place::Session;
    }
    Place::Nowhere
}

/// The place of the input by the names of a report and a session. Both may be given in either order.
fn place_beside_report(report: &str, names: &SessionNames<'_>) -> Place {
    if has_no_stream(names) && report == INPUT {
        return Place::AfterReport;
    }
    place_by_names(names)
}

/// The place of the input in what is asked for.
fn place_in(request: &Request<'_>) -> Place {
    match request {
        Request::Judge(judgement, _) => place_by_names(&judgement.names),
        Request::Explore(judgement, _) => place_by_names(&judgement.names),
        Request::Draw(_, names) => place_by_names(names),
        Request::Check(report, names, _) => place_beside_report(report, names),
        _ => Place::Nowhere,
    }
}

/// The place of the input among the arguments after the program's name, the last of which was given for a stream.
///
/// # Errors
/// Out of memory.
fn place_among(alloc: Global, arguments: &[String]) -> Result<Place, AllocError> {
    match parse(alloc, arguments) {
        Ok(request) => Ok(place_in(&request)),
        Err(error) if error.kind() == ErrorKind::OutOfMemory => Err(AllocError),
        Err(_) => Ok(Place::Nowhere),
    }
}

/// Moves the input to the place of the session document, which is the first after the command.
///
/// # Errors
/// Out of memory.
fn move_input(arguments: &mut Vec<String>) -> Result<(), AllocError> {
    let place = arguments
        .iter()
        .position(|argument| argument.as_str() == INPUT);
    if let Some(place) = place {
        if 2 < place && place < arguments.len() {
            let input = arguments.remove(place);
            arguments.insert(2, input)?;
        }
    }
    Ok(())
}

/// Looks whether these arguments, of which the first is the program's name, ask for the bundle on the input: by
/// `judge`, `check`, `draw` or `explore` with `-` in the place of the session document, and no stream.
///
/// The parser that parses them later is asked, with the name of a stream after them. So an option is an option here
/// exactly if it is one there, and arguments that are refused with a stream ask for no bundle.
///
/// # Errors
/// Out of memory.
pub fn find_bundle(alloc: Global, arguments: Vec<String>) -> Result<Bundled, AllocError>
    ensures { IfOk result (λ found. found.is_asked ≡ false → found.arguments.items ≡ arguments.items) }
{
    let mut arguments = arguments;
    if !arguments.iter().any(|argument| argument.as_str() == INPUT) {
        return Ok(Bundled {
            arguments,
            is_asked: false,
        });
    }
    arguments.push(String::from_str(alloc, STREAM)?)?;
    let place = place_among(alloc, arguments.get(1..).unwrap_or(&[]))?;
    let _ = arguments.pop();
    let is_asked = match place {
        Place::Nowhere => false,
        Place::Session => true,
        Place::AfterReport => {
            move_input(&mut arguments)?;
            true
        }
    };
    Ok(Bundled {
        arguments,
        is_asked,
    })
}
