ghost use Rattle.std.specs.Prelude.{◌≡◌, ◌≢◌, [], Some, None, option_map, IfOk, IsErrOf};
ghost use Rattle.clap.specs.Words.{fault_of, first_value, found_of};
ghost use Rattle.command_line.specs.Words.{AreNumbers, IsNumber, answering, asked_by, asked_of, changes, explaining, feeds, given_by, loading, names, number_in, request_of, running, the_app, value_of};
ghost use Rattle.command_line.specs.Requests.{given_view, names_view, request_view};

use crate::command::command;
use clap::ArgMatches;
use clap::error::ErrorKind;
use ct_value::{Memory, Text};
use std::alloc::Global;

/// The change files.
#[derive(Drop)]
pub enum Input {
    /// The name of the one change file of all sources.
    Changes(Text),
    /// What stands before each source's name in the name of its change file.
    Feeds(Text),
}

/// The names of a script and of the change files.
#[derive(Drop)]
pub struct FileNames {
    pub script: Text,
    pub input: Input,
}

/// What the words ask for.
#[derive(Drop)]
pub enum Request {
    /// The changelog of the sink, in the order of the file of this name, or in that of the changes.
    Run {
        names: FileNames,
        order: Option<Text>,
    },
    /// The answer over the first so many changes, or over all.
    Batch {
        names: FileNames,
        first: Option<u64>,
    },
    /// The plan of the script of this name.
    Explain(Text),
    /// The sums over a run on lines that are made from this seed, so many.
    Load {
        seed: u64,
        lines: u64,
    },
}

/// Why nothing is asked for.
#[derive(Clone, Copy, Debug, PartialEq, Eq)]
pub enum WordsFault {
    /// The words are a wrong use of the command.
    Usage,
    Memory,
}

impl From<Memory> for WordsFault {
    ghost use Rattle.std.specs.Prelude.{◌≡◌};
    ghost use Rattle.command_line.specs.declared.words.WordsFault.TheVariants.{Memory};

    ghost from_gives = { λ _ fault. fault ≡ Memory };

    fn from(_: Memory) -> Self {
        WordsFault::Memory
    }
}

// What the words give the options. Want of memory has a kind of its own among the command's errors: it is no wrong use.
fn matches_of<'a>(alloc: Global, words: &'a [Text]) -> Result<ArgMatches<'a>, WordsFault>
    ensures fits { IfOk result (λ m. fault_of the_app words.entry.now ≡ []) }
    ensures values { IfOk result (λ m. given_by (first_value (found_of m)) ≡ given_by (value_of words.entry.now)) }
    ensures numbers { IfOk result (λ m. AreNumbers (given_by (first_value (found_of m)))) }
    ensures usage { IsErrOf result WordsFault.Usage → fault_of the_app words.entry.now ≢ [] }
{
    let Ok(command) = command(alloc) else {
        return Err(WordsFault::Memory);
    };
    match command.try_get_matches_from(words) {
        Ok(matches) => Ok(matches),
        Err(error) => {
            if error.kind() == ErrorKind::OutOfMemory {
                Err(WordsFault::Memory)
            } else {
                Err(WordsFault::Usage)
            }
        }
    }
}

// The values that the words give the options.
#[derive(Clone, Copy)]
struct Given<'a> {
    what: Option<&'a str>,
    script: Option<&'a str>,
    changes: Option<&'a str>,
    feeds: Option<&'a str>,
    order: Option<&'a str>,
    first: Option<&'a str>,
    seed: Option<&'a str>,
    lines: Option<&'a str>,
}

fn given_by<'a>(matches: &'a ArgMatches<'_>) -> Given<'a>
    ensures { given_view result ≡ given_by (first_value (found_of matches.now)) }
{
    Given {
        what: matches.get_str("do"),
        script: matches.get_str("script"),
        changes: matches.get_str("changes"),
        feeds: matches.get_str("feeds"),
        order: matches.get_str("order"),
        first: matches.get_str("first"),
        seed: matches.get_str("seed"),
        lines: matches.get_str("lines"),
    }
}

// The number that a value is.
fn number_in(text: Option<&str>) -> Option<u64>
    requires { IsNumber (option_map (λ s. s.now) text) }
    ensures { result ≡ option_map number_in (option_map (λ s. s.now) text.entry) }
{
    text?.parse::<u64>().ok()
}

fn text_of(alloc: Global, text: Option<&str>) -> Result<Option<Text>, Memory>
    ensures { IfOk result (λ copy. copy ≡ option_map (λ s. s.now) text.entry) }
{
    match text {
        Some(text) => Ok(Some(Text::from_str(alloc, text)?)),
        None => Ok(None),
    }
}

// The names of a script and of one change file.
fn names_of_changes(alloc: Global, script: &str, name: &str) -> Result<FileNames, Memory>
    ensures { IfOk result (λ given. names_view given ≡ names script.now (changes name.now)) }
{
    Ok(FileNames {
        script: Text::from_str(alloc, script)?,
        input: Input::Changes(Text::from_str(alloc, name)?),
    })
}

// The names of a script and of each source's change file.
fn names_of_feeds(alloc: Global, script: &str, prefix: &str) -> Result<FileNames, Memory>
    ensures { IfOk result (λ given. names_view given ≡ names script.now (feeds prefix.now)) }
{
    Ok(FileNames {
        script: Text::from_str(alloc, script)?,
        input: Input::Feeds(Text::from_str(alloc, prefix)?),
    })
}

fn run_of(alloc: Global, given: &Given<'_>) -> Result<Request, WordsFault>
    ensures ok { IfOk result (λ request. asked_of (given_view given.now) running ≡ Some (request_view request)) }
    ensures usage { IsErrOf result WordsFault.Usage → asked_of (given_view given.now) running ≡ None }
{
    if given.seed.is_some() || given.lines.is_some() {
        return Err(WordsFault::Usage);
    }
    let names = match (given.script, given.changes, given.feeds, given.first) {
        (Some(script), Some(name), None, None) => names_of_changes(alloc, script, name)?,
        (Some(script), None, Some(prefix), None) => names_of_feeds(alloc, script, prefix)?,
        _ => return Err(WordsFault::Usage),
    };
    let order = text_of(alloc, given.order)?;
    Ok(Request::Run { names, order })
}

fn batch_of(alloc: Global, given: &Given<'_>) -> Result<Request, WordsFault>
    requires { IsNumber (option_map (λ s. s.now) given.now.first) }
    ensures ok { IfOk result (λ request. asked_of (given_view given.now) answering ≡ Some (request_view request)) }
    ensures usage { IsErrOf result WordsFault.Usage → asked_of (given_view given.now) answering ≡ None }
{
    if given.seed.is_some() || given.lines.is_some() {
        return Err(WordsFault::Usage);
    }
    match (given.script, given.changes, given.feeds, given.order) {
        (Some(script), Some(name), None, None) => Ok(Request::Batch {
            names: names_of_changes(alloc, script, name)?,
            first: number_in(given.first),
        }),
        (Some(script), None, Some(prefix), None) if given.first.is_none() => Ok(Request::Batch {
            names: names_of_feeds(alloc, script, prefix)?,
            first: None,
        }),
        _ => Err(WordsFault::Usage),
    }
}

fn explain_of(alloc: Global, given: &Given<'_>) -> Result<Request, WordsFault>
    ensures ok { IfOk result (λ request. asked_of (given_view given.now) explaining ≡ Some (request_view request)) }
    ensures usage { IsErrOf result WordsFault.Usage → asked_of (given_view given.now) explaining ≡ None }
{
    if given.seed.is_some() || given.lines.is_some() {
        return Err(WordsFault::Usage);
    }
    match (
        given.script,
        given.changes,
        given.feeds,
        given.order,
        given.first,
    ) {
        (Some(script), None, None, None, None) => Ok(Request::Explain(Text::from_str(
            alloc, script,
        )?)),
        _ => Err(WordsFault::Usage),
    }
}

fn load_of(given: &Given<'_>) -> Result<Request, WordsFault>
    requires seed { IsNumber (option_map (λ s. s.now) given.now.seed) }
    requires lines { IsNumber (option_map (λ s. s.now) given.now.lines) }
    ensures ok { IfOk result (λ request. asked_of (given_view given.now) loading ≡ Some (request_view request)) }
    ensures usage { IsErrOf result WordsFault.Usage → asked_of (given_view given.now) loading ≡ None }
{
    match (
        given.script,
        given.changes,
        given.feeds,
        given.order,
        given.first,
    ) {
        (None, None, None, None, None) => {}
        _ => return Err(WordsFault::Usage),
    }
    match (number_in(given.seed), number_in(given.lines)) {
        (Some(seed), Some(lines)) => Ok(Request::Load { seed, lines }),
        _ => Err(WordsFault::Usage),
    }
}

// What is asked for by the value of `--do`: a run where it isn't given. The command could test that itself, by a list of values, but clauses
// see such a list with its address, so no definition of the command could say which it is.
fn asked_by(alloc: Global, given: &Given<'_>) -> Result<Request, WordsFault>
    requires { AreNumbers (given_view given.now) }
    ensures ok { IfOk result (λ request. asked_by (given_view given.now) ≡ Some (request_view request)) }
    ensures usage { IsErrOf result WordsFault.Usage → asked_by (given_view given.now) ≡ None }
{
    let Some(word) = given.what else {
        return run_of(alloc, given);
    };
    if word == "run" {
        return run_of(alloc, given);
    }
    if word == "batch" {
        return batch_of(alloc, given);
    }
    if word == "explain" {
        return explain_of(alloc, given);
    }
    if word == "load" {
        return load_of(given);
    }
    Err(WordsFault::Usage)
}

/// What these words ask for. `Usage` comes exactly where the command finds a fault in them, or an option that is needed is
/// missing, or one is given that isn't wanted.
#[tactic(auto, unfolding(crate::specs::Words::request_of))]
pub fn request_of(alloc: Global, words: &[Text]) -> Result<Request, WordsFault>
    ensures ok { IfOk result (λ request. request_of words.now ≡ Some (request_view request)) }
    ensures usage { IsErrOf result WordsFault.Usage → request_of words.now ≡ None }
{
    let matches = matches_of(alloc, words)?;
    asked_by(alloc, &given_by(&matches))
}
