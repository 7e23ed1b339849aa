//! How many seconds a run may take, by the arguments.
ghost use Rattle.pd_cli.specs.TimeLimits.{time_limit};
ghost use Rattle.std.specs.Prelude.{◌≡◌, ◌≤◌, IfOk, IfSome, None};

/// The option that limits the time.
const MAX_TIME: &str = "--max-time";

/// How the option begins if its value stands in the same argument.
const MAX_TIME_IS: &str = "--max-time=";

/// The greatest number of seconds: a week.
const TIME_LIMIT: u64 = 604_800;

/// What is wrong with the option that limits the time.
#[derive(Clone, Copy)]
pub enum TimeFault {
    /// It has no value, or one that is no number of seconds from 1 to the greatest one.
    Value,
    /// It stands there twice.
    Twice,
}

impl TimeFault {
    /// What is said of it to whoever gave the arguments.
    pub fn text(self) -> &'static str {
        match self {
            TimeFault::Value => {
                "error: what stands after --max-time has to be a whole number of seconds from 1 to 604800, as in \
--max-time 60\n\nFor more information, try '--help'.\n"
            }
            TimeFault::Twice => {
                "error: --max-time can't be given twice\n\nFor more information, try '--help'.\n"
            }
        }
    }
}

/// Whether an argument is the option that limits the time, with or without a value.
fn is_max_time(argument: &String) -> bool {
    argument.as_str() == MAX_TIME || argument.as_str().starts_with(MAX_TIME_IS)
}

/// The number of seconds that a text is, if it is one that may be given.
fn seconds_of(text: &str) -> Option<u64>
    ensures { IfSome result (λ seconds. (1 ≤ seconds) × (seconds ≤ time_limit)) }
{
    match text.parse::<u64>() {
        Ok(seconds) if 1 <= seconds && seconds <= TIME_LIMIT => Some(seconds),
        Ok(_) | Err(_) => None,
    }
}

/// Takes the option that stands at this place out of the arguments, with its value, and gives the seconds.
fn take_seconds(arguments: &mut Vec<String>, place: usize) -> Option<u64>
    ensures { IfSome result (λ seconds. (1 ≤ seconds) × (seconds ≤ time_limit)) }
{
    if place >= arguments.len() {
        return None;
    }
    let option = arguments.remove(place);
    if let Some(text) = option.as_str().strip_prefix(MAX_TIME_IS) {
        return seconds_of(text);
    }
    if place >= arguments.len() {
        return None;
    }
    let value = arguments.remove(place);
    seconds_of(value.as_str())
}

/// The arguments without the option that limits the time, wherever it stands, and how many seconds it gives.
///
/// # Errors
/// What is wrong with the option.
pub fn without_max_time(arguments: Vec<String>) -> Result<(Vec<String>, Option<u64>), TimeFault>
    ensures none { IfOk result (λ rest. rest.1 ≡ None → rest.0.items ≡ arguments.items) }
    ensures some { IfOk result (λ rest. IfSome rest.1 (λ seconds. (1 ≤ seconds) × (seconds ≤ time_limit))) }
{
    let Some(place) = arguments.iter().position(|argument| is_max_time(argument)) else {
        return Ok((arguments, None));
    };
    let mut others = arguments;
    let Some(seconds) = take_seconds(&mut others, place) else {
        return Err(TimeFault::Value);
    };
    if others.iter().any(|argument| is_max_time(argument)) {
        return Err(TimeFault::Twice);
    }
    Ok((others, Some(seconds)))
}
