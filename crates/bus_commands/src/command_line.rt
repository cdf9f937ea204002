//! The command line of `bus`.

ghost use Rattle.std.specs.Prelude.{◌≡◌, IfOk, Some, codes, false, map, string_bytes};
ghost use Rattle.clap.specs.Words.{app_of, rule_of, rows_of, found_of, subcommand_of};
ghost use Rattle.clap.specs.declared.builder.command.Command.TheViews.{out-Command};
ghost use Rattle.bus_commands.specs.CommandLine as line;
ghost use Rattle.bus_commands.specs.CommandLine.{NamesTask};

use crate::help;
use crate::printing::Request;
use bus_register::limits::{MOST_MESSAGES, MOST_SENDERS};
use bus_run::limits::{MOST_MESSAGES_EACH, MOST_RECEIVE_WORKERS, MOST_SEND_WORKERS};
use bus_webpage::Purpose;
use clap::builder::ValueParser;
use clap::{Arg, ArgAction, ArgMatches, Command, Error, value_parser};
use std::alloc::{AllocError, Global};

/// What the program is asked to do.
#[derive(Clone, Copy, Debug, PartialEq, Eq)]
pub enum Task {
    Ratify,
    Replay,
    /// Of the steps of a script, their lines.
    Trace,
    /// Of the steps of a script, their picture.
    Picture,
    /// Of a script and its steps, the web page for this purpose.
    Webpage(Purpose),
    /// Of a run, its summary.
    Run(Request),
    /// Of a run, its log.
    RunLog(Request),
    /// Of a run, its journal.
    RunJournal(Request),
    /// Of a log of so many senders, with so many messages in a frame at most, what it spells.
    Log { senders: u64, batch: u64 },
    /// Of a journal, what it says.
    Journal,
    /// Of a journal, what is left where a torn tail is cut off.
    Repair,
}

/// The command line with all its commands.
fn bus_command<'a>(alloc: Global) -> Result<Command<'a>, Error>
    ensures { IfOk result (λ c. app_of c ≡ line.bus_command) }
{
    let ratify = Command::new(alloc, "ratify")
        .about("Plays one adopt-commit object by a script on standard input")
        .override_usage(help::RATIFY_USAGE)
        .after_help(help::RATIFY);
    let replay = Command::new(alloc, "replay")
        .about("Moves a bus by a script on standard input")
        .override_usage(help::REPLAY_USAGE)
        .after_help(help::REPLAY);
    let trace = Command::new(alloc, "trace")
        .about("Shows each step of a bus that a script on standard input moves")
        .override_usage(help::TRACE_USAGE)
        .after_help(help::TRACE)
        .arg(svg_flag(alloc))?
        .arg(html_flag(alloc)?)?
        .arg(play_flag(alloc)?)?;
    let bus = Command::new(alloc, "bus")
        .bin_name("bus")?
        .version(help::VERSION)
        .before_help(help::NAME_AND_VERSION)
        .about("A broadcast bus whose lock is passed on by consensus")
        .after_help(help::BUS)
        .subcommand_required(true)
        .arg_required_else_help(true)
        .disable_help_subcommand(true)
        .subcommand(ratify)?
        .subcommand(replay)?
        .subcommand(trace)?
        .subcommand(run_command(alloc)?)?
        .subcommand(log_command(alloc)?)?
        .subcommand(journal_command(alloc)?)?;
    Ok(bus)
}

/// The task that the words name, of which the first is the program's name.
pub fn parse<'a>(alloc: Global, words: &'a [String]) -> Result<Task, Error>
    ensures named { IfOk result
        (NamesTask (subcommand_of line.bus_command (map string_bytes words.entry.now))) }
{
    let matches = bus_command(alloc)?.try_get_matches_from(words)?;
    Ok(match matches.subcommand() {
        Some((name, given)) => task_of(name, given),
        None => Task::Ratify,
    })
}

/// The task that a command names, by what its options were given.
fn task_of(name: &str, given: &ArgMatches<'_>) -> Task
    ensures { NamesTask (Some (name.now, rows_of (found_of given.now))) result }
{
    match name {
        "replay" => Task::Replay,
        "trace" if given.get_flag("svg") => Task::Picture,
        "trace" if given.get_flag("html") => Task::Webpage(Purpose::Step),
        "trace" if given.get_flag("play") => Task::Webpage(Purpose::Play),
        "trace" => Task::Trace,
        "run" if given.get_flag("log") => Task::RunLog(request_of(given)),
        "run" if given.get_flag("journal") => Task::RunJournal(request_of(given)),
        "run" => Task::Run(request_of(given)),
        "log" => Task::Log {
            senders: number_of(given, "senders", 3),
            batch: number_of(given, "batch", 16),
        },
        "journal" if given.get_flag("repair") => Task::Repair,
        "journal" => Task::Journal,
        _ => Task::Ratify,
    }
}

/// The command `run`.
fn run_command<'a>(alloc: Global) -> Result<Command<'a>, Error>
    ensures shape { IfOk result (λ c. app_of c ≡ line.run_command) }
    ensures local { IfOk result (λ c. (out-Command c).has_globals ≡ false) }
{
    let senders = value_parser!(u64).range(1..MOST_SEND_WORKERS as i64 + 1);
    let receivers = value_parser!(u64).range(1..MOST_RECEIVE_WORKERS as i64 + 1);
    let messages = value_parser!(u64).range(0..MOST_MESSAGES_EACH as i64 + 1);
    let seed = number(alloc, "seed", "7", value_parser!(u64)).help(
        "Seed of random words, 0 to 18446744073709551615",
    );
    let command = Command::new(alloc, "run")
        .about("Runs a bus, with a thread for each sender and each receiver")
        .after_help(help::RUN)
        .arg(number(alloc, "senders", "3", senders).help("Threads that send, 1 to 8"))?
        .arg(number(alloc, "receivers", "2", receivers).help("Threads that receive, 1 to 8"))?
        .arg(number(alloc, "messages", "100", messages).help("Messages of each sender, 0 to 400"))?
        .arg(seed)?
        .arg(log_flag(alloc))?
        .arg(journal_flag(alloc)?)?;
    Ok(command)
}

/// The command `log`.
fn log_command<'a>(alloc: Global) -> Result<Command<'a>, Error>
    ensures shape { IfOk result (λ c. app_of c ≡ line.log_command) }
    ensures local { IfOk result (λ c. (out-Command c).has_globals ≡ false) }
{
    let senders = value_parser!(u64).range(1..MOST_SENDERS as i64 + 1);
    let batch = value_parser!(u64).range(1..MOST_MESSAGES as i64 + 1);
    let command = Command::new(alloc, "log")
        .about("Tells what the words of a log on standard input spell")
        .override_usage(help::LOG_USAGE)
        .after_help(help::LOG)
        .arg(number(alloc, "senders", "3", senders).help("Senders of the bus, 1 to 64"))?
        .arg(number(alloc, "batch", "16", batch).help("Most messages of a batch, 1 to 64"))?;
    Ok(command)
}

/// The command `journal`.
fn journal_command<'a>(alloc: Global) -> Result<Command<'a>, Error>
    ensures shape { IfOk result (λ c. app_of c ≡ line.journal_command) }
    ensures local { IfOk result (λ c. (out-Command c).has_globals ≡ false) }
{
    let command = Command::new(alloc, "journal")
        .about("Tells what a journal on standard input says, and how it ends")
        .override_usage(help::JOURNAL_USAGE)
        .after_help(help::JOURNAL)
        .arg(repair_flag(alloc))?;
    Ok(command)
}

/// The option of `journal` that asks for what is left of it.
fn repair_flag<'a>(alloc: Global) -> Arg<'a>
    ensures rule { rule_of result ≡ line.flag (codes "repair") }
    ensures local { result.global ≡ false }
{
    Arg::new(alloc, "repair")
        .long("repair")
        .action(ArgAction::SetTrue)
        .help("Write the journal without its torn tail, in place of the lines")
}

/// The option of `run` that asks for its log.
fn log_flag<'a>(alloc: Global) -> Arg<'a>
    ensures rule { rule_of result ≡ line.flag (codes "log") }
    ensures local { result.global ≡ false }
{
    Arg::new(alloc, "log")
        .long("log")
        .action(ArgAction::SetTrue)
        .help("Print the words of the log, one a line, in place of the summary")
}

/// The option of `run` that asks for its journal.
fn journal_flag<'a>(alloc: Global) -> Result<Arg<'a>, AllocError>
    ensures rule { IfOk result (λ a. rule_of a
        ≡ record (line.flag (codes "journal")) { is_free = false }) }
    ensures local { IfOk result (λ a. a.global ≡ false) }
{
    Arg::new(alloc, "journal")
        .long("journal")
        .action(ArgAction::SetTrue)
        .help("Write the bytes of a journal of the log, in place of the summary")
        .conflicts_with("log")
}

/// The option of `trace` that asks for a picture.
fn svg_flag<'a>(alloc: Global) -> Arg<'a>
    ensures rule { rule_of result ≡ line.flag (codes "svg") }
    ensures local { result.global ≡ false }
{
    Arg::new(alloc, "svg")
        .long("svg")
        .action(ArgAction::SetTrue)
        .help("Write a picture of the steps, as SVG, in place of the lines")
}

/// The option of `trace` that asks for a web page.
fn html_flag<'a>(alloc: Global) -> Result<Arg<'a>, AllocError>
    ensures rule { IfOk result (λ a. rule_of a
        ≡ record (line.flag (codes "html")) { is_free = false }) }
    ensures local { IfOk result (λ a. a.global ≡ false) }
{
    Arg::new(alloc, "html")
        .long("html")
        .action(ArgAction::SetTrue)
        .help("Write a web page that goes through the steps, in place of the lines")
        .conflicts_with("svg")
}

/// The option of `trace` that asks for a web page on which one plays.
fn play_flag<'a>(alloc: Global) -> Result<Arg<'a>, AllocError>
    ensures rule { IfOk result (λ a. rule_of a
        ≡ record (line.flag (codes "play")) { is_free = false }) }
    ensures local { IfOk result (λ a. a.global ≡ false) }
{
    Arg::new(alloc, "play")
        .long("play")
        .action(ArgAction::SetTrue)
        .help("Write such a page on which one also plays: choose whose step is next")
        .conflicts_with("svg")?
        .conflicts_with("html")
}

/// An option that has a number.
fn number<'a>(alloc: Global, name: &'a str, default: &'a str, parser: ValueParser<'a>) -> Arg<'a>
    ensures rule { rule_of result ≡ line.number name.entry.now default.entry.now parser.entry }
    ensures local { result.global ≡ false }
{
    Arg::new(alloc, name)
        .long(name)
        .action(ArgAction::Set)
        .value_parser(parser)
        .default_value(default)
}

/// The number that an option was given.
fn number_of(given: &ArgMatches<'_>, name: &str, default: u64) -> u64
    ensures { line.IsNumberOf name.now (rows_of (found_of given.now)) default result }
{
    given.get_one::<u64>(name).unwrap_or(default)
}

/// The run that the options of `run` ask for.
fn request_of(given: &ArgMatches<'_>) -> Request
    ensures { line.AsksFor (rows_of (found_of given.now)) result }
{
    Request {
        senders: number_of(given, "senders", 3),
        receivers: number_of(given, "receivers", 2),
        messages: number_of(given, "messages", 100),
        seed: number_of(given, "seed", 7),
    }
}
