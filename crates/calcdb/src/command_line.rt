//! The command line.

ghost use Rattle.std.specs.Prelude.{◌≡◌, ◌⊎◌, [], IfErr, IfOk, IsOkAnd, List, None, Some, codes, false, map, option_map, true};
ghost use Rattle.clap.specs.Built.{AddsSubcommand};
ghost use Rattle.clap.specs.Faults.{fault_of};
ghost use Rattle.clap.specs.Matches.{found_of};
ghost use Rattle.clap.specs.Simple.{App, app_of, subcommand_rows_of};
ghost use Rattle.clap.specs.Walk.{Row, Text, all_of, first_of, rows_of, rule_of};
ghost use Rattle.clap.specs.declared.builder.command.Command.TheViews.{out-Command};
ghost use Rattle.clap.specs.Values.{kind_of};
ghost use Rattle.clap.specs.declared.error.kind.ErrorKind.TheVariants.{ArgumentConflict, MissingSubcommand};
ghost use Rattle.calcdb.specs.CommandLines as spec;
ghost use Rattle.calcdb.specs.declared.command_line.Unasked.TheVariants as unasked;
ghost use Rattle.calcdb.specs.CommandLines.{AsksFor, AsksForNothing, IsRefused, IsTask, calcdb_app, goes_together, load_app, merge_app, recover_app, run_app, show_app};

use crate::help_notes::{LOAD_NOTES, MERGE_NOTES, NOTES, RECOVER_NOTES, RUN_NOTES, SHOW_NOTES};
use clap::builder::ValueParser;
use clap::error::ErrorKind;
use clap::{Arg, ArgAction, ArgMatches, Command, Error};
use std::alloc::{AllocError, Global};
use std::convert::AsStr;

/// The files of a run.
#[derive(Clone, Copy, Debug)]
pub(crate) struct RunFiles<'a> {
    pub script: &'a str,
    /// The image to open from; without one, the empty table.
    pub opening: Option<&'a str>,
    /// The folder for the images and the log.
    pub folder: Option<&'a str>,
    /// Whether that is kept up while the script runs.
    pub live: bool,
    /// Whether its log is on disk before a command is answered.
    pub sync: bool,
    /// Whether it is run in threads.
    pub threads: bool,
    pub progress: bool,
}

/// What the program is asked to do, with the names of files.
#[derive(Debug, Drop)]
pub(crate) enum Task<'a> {
    /// Run a script.
    Run(RunFiles<'a>),
    /// Load pairs, and write their image to `out`.
    Load {
        pairs: &'a str,
        out: &'a str,
        progress: bool,
    },
    /// Merge a chain of images, and write the merged one to `out`.
    Merge {
        out: &'a str,
        images: Vec<&'a str, Global>,
        progress: bool,
    },
    /// Recover a table from a chain of images and a log, with the procedures of a script, and write its
    /// image to `out`.
    Recover {
        script: &'a str,
        log: &'a str,
        out: &'a str,
        images: Vec<&'a str, Global>,
        progress: bool,
    },
    /// Print an image or a log.
    Show {
        file: &'a str,
    },
}

impl Task<'_> {
    /// Whether the options of a run go together.
    fn goes_together(&self) -> bool
        ensures { result ≡ goes_together self.now }
    {
        match self {
            Task::Run(files) if files.live => files.folder.is_some(),
            Task::Run(files) => !files.sync,
            _ => true,
        }
    }

    /// Whether it is to be said how far the work is.
    pub(crate) fn tells(&self) -> bool {
        match self {
            Task::Run(files) => files.progress,
            Task::Load { progress, .. }
            | Task::Merge { progress, .. }
            | Task::Recover { progress, .. } => *progress,
            Task::Show { .. } => false,
        }
    }
}

/// An argument that has to be given.
fn required<'a>(alloc: Global, name: &'a str, help: &'a str) -> Arg<'a>
    ensures rule { rule_of result ≡ spec.required name.now }
    ensures local { result.global ≡ false }
{
    Arg::new(alloc, name).required(true).help(help)
}

/// One that is given after a flag, or not at all.
fn flagged<'a>(alloc: Global, flag: &'a str, name: &'a str, help: &'a str) -> Arg<'a>
    ensures rule { rule_of result ≡ spec.flagged flag.now name.now }
    ensures local { result.global ≡ false }
{
    Arg::new(alloc, name).long(flag).help(help)
}

/// A flag alone, which is given or not.
fn switched<'a>(alloc: Global, flag: &'a str, name: &'a str, help: &'a str) -> Arg<'a>
    ensures rule { rule_of result ≡ spec.switched flag.now name.now }
    ensures local { result.global ≡ false }
{
    Arg::new(alloc, name)
        .long(flag)
        .action(ArgAction::SetTrue)
        .help(help)
}

/// The flag by which standard error gets lines of how far the work is.
fn progress_flag<'a>(alloc: Global) -> Arg<'a>
    ensures rule { rule_of result ≡ spec.progress_rule }
    ensures local { result.global ≡ false }
{
    switched(
        alloc,
        "progress",
        "PROGRESS",
        "says on standard error how far it is",
    )
}

/// One that has to be given, and may be given again.
fn repeated<'a>(alloc: Global, name: &'a str, help: &'a str) -> Arg<'a>
    ensures rule { rule_of result ≡ spec.repeated name.now }
    ensures local { result.global ≡ false }
{
    required(alloc, name, help).action(ArgAction::Append)
}

/// One that names what is written, and isn't empty.
fn written<'a>(argument: Arg<'a>) -> Arg<'a>
    ensures rule { rule_of result ≡ spec.written (rule_of argument.entry) }
    ensures local { result.global ≡ argument.entry.global }
{
    argument.value_parser(ValueParser::NonEmptyString)
}

fn described_run<'a>(alloc: Global) -> Result<Command<'a>, AllocError>
    ensures app { IfOk result (λ c. app_of c ≡ run_app) }
    ensures local { IfOk result (λ c. (out-Command c).has_globals ≡ false) }
{
    Command::new(alloc, "run")
        .about("Runs a script, and prints one answer for each command")
        .after_help(RUN_NOTES)
        .arg(required(
            alloc,
            "SCRIPT",
            "the file with the script, or - for standard input",
        ))?
        .arg(flagged(alloc, "open", "IMAGE", "the image to open from"))?
        .arg(written(flagged(alloc, "out", "DIR", "the folder for the images and the log")))?
        .arg(switched(alloc, "live", "LIVE", "keeps DIR up while it runs"))?
        .arg(switched(
            alloc,
            "sync",
            "SYNC",
            "has the log on disk before each answer",
        ))?
        .arg(switched(alloc, "threads", "THREADS", "runs it in threads"))?
        .arg(progress_flag(alloc))
}

fn described_load<'a>(alloc: Global) -> Result<Command<'a>, AllocError>
    ensures app { IfOk result (λ c. app_of c ≡ load_app) }
    ensures local { IfOk result (λ c. (out-Command c).has_globals ≡ false) }
{
    Command::new(alloc, "load")
        .about("Makes an opening image of keys and values, and prints its header")
        .after_help(LOAD_NOTES)
        .arg(required(
            alloc,
            "PAIRS",
            "the file with the pairs, or - for standard input",
        ))?
        .arg(written(required(alloc, "OUT", "the file for the image")))?
        .arg(progress_flag(alloc))
}

fn described_merge<'a>(alloc: Global) -> Result<Command<'a>, AllocError>
    ensures app { IfOk result (λ c. app_of c ≡ merge_app) }
    ensures local { IfOk result (λ c. (out-Command c).has_globals ≡ false) }
{
    Command::new(alloc, "merge")
        .about("Makes one image of a full one and the partial ones after it, and prints its header")
        .after_help(MERGE_NOTES)
        .arg(written(required(alloc, "OUT", "the file for the merged image")))?
        .arg(repeated(alloc, "IMAGE", "the images, the full one first"))?
        .arg(progress_flag(alloc))
}

fn described_recover<'a>(alloc: Global) -> Result<Command<'a>, AllocError>
    ensures app { IfOk result (λ c. app_of c ≡ recover_app) }
    ensures local { IfOk result (λ c. (out-Command c).has_globals ≡ false) }
{
    Command::new(alloc, "recover")
        .about(
            "Makes an opening image of what images and a log hold, and prints what was recovered",
        )
        .after_help(RECOVER_NOTES)
        .arg(required(
            alloc,
            "SCRIPT",
            "a script with the procedures, or - for standard input",
        ))?
        .arg(required(alloc, "LOG", "the file with the log"))?
        .arg(written(required(alloc, "OUT", "the file for the image")))?
        .arg(repeated(alloc, "IMAGE", "the images, the full one first"))?
        .arg(progress_flag(alloc))
}

fn described_show<'a>(alloc: Global) -> Result<Command<'a>, AllocError>
    ensures app { IfOk result (λ c. app_of c ≡ show_app) }
    ensures local { IfOk result (λ c. (out-Command c).has_globals ≡ false) }
{
    Command::new(alloc, "show")
        .about("Prints an image or a log")
        .after_help(SHOW_NOTES)
        .arg(required(alloc, "FILE", "the file with the image or the log"))
}

/// Adds a command, where memory was there to describe it.
fn with_command<'a>(
    program: Command<'a>,
    command: Result<Command<'a>, AllocError>,
) -> Result<Command<'a>, AllocError>
    ensures { IfOk result (λ c. IsOkAnd command.entry (λ s. AddsSubcommand program.entry s c)) }
{
    match command {
        Ok(command) => program.subcommand(command),
        Err(refused) => {
            drop(program);
            Err(refused)
        }
    }
}

/// The program's commands.
fn described<'a>(alloc: Global) -> Result<Command<'a>, AllocError>
    ensures { IfOk result (λ c. app_of c ≡ calcdb_app) }
{
    let program = Command::new(alloc, "calcdb")
        .about("An in-memory key-value engine with stored procedures")
        .after_help(NOTES)
        .version("0.1.0")
        .subcommand_required(true)
        .arg_required_else_help(true);
    let program = with_command(program, described_run(alloc))?;
    let program = with_command(program, described_load(alloc))?;
    let program = with_command(program, described_merge(alloc))?;
    let program = with_command(program, described_recover(alloc))?;
    with_command(program, described_show(alloc))
}

/// Why a command's matches ask for nothing.
#[derive(Clone, Copy)]
enum Unasked {
    /// No such command, or an argument isn't there.
    Missing,
    NoMemory,
}

impl From<AllocError> for Unasked {
    ghost from_gives = { λ _ e. e ≡ unasked.NoMemory };

    fn from(_refused: AllocError) -> Self {
        Unasked::NoMemory
    }
}

/// What was given as this argument.
fn given_once<'a>(given: &ArgMatches<'a>, name: &str) -> Result<&'a str, Unasked>
    ensures given { IfOk result (λ s. first_of name.now (rows_of (found_of given.now)) ≡ Some s.now) }
    ensures missing { IfErr result (λ _. first_of name.now (rows_of (found_of given.now)) ≡ None) }
{
    given.get_str(name).ok_or(Unasked::Missing)
}

/// All that was given as this argument, in order.
fn given_all<'a>(
    alloc: Global,
    given: &ArgMatches<'a>,
    name: &str,
) -> Result<Vec<&'a str, Global>, Unasked>
    ensures given { IfOk result (λ v. all_of name.now (rows_of (found_of given.now)) ≡ Some (map (λ s. s.now) v.items)) }
    ensures missing { IfErr result (λ e. (e ≡ unasked.NoMemory) ⊎ (all_of name.now (rows_of (found_of given.now)) ≡ None)) }
{
    let texts = given.get_strs(name).ok_or(Unasked::Missing)?;
    Ok(Vec::from_slice(alloc, texts)?)
}

/// What may have been given as this argument.
fn given_perhaps<'a>(given: &ArgMatches<'a>, name: &str) -> Option<&'a str>
    ensures { first_of name.now (rows_of (found_of given.now)) ≡ option_map (λ s. s.now) result }
{
    given.get_str(name)
}

/// Whether this flag was given.
fn is_given<'a>(given: &ArgMatches<'a>, name: &str) -> bool
    ensures { result ≡ spec.is_given name.now (rows_of (found_of given.now)) }
{
    match given.get_str(name) {
        Some(text) => text == "true",
        None => false,
    }
}

/// What `run` asks for with these arguments.
fn asked_run<'a>(given: &ArgMatches<'a>) -> Result<Task<'a>, Unasked>
    ensures task { IfOk result (λ t. AsksFor (codes "run", rows_of (found_of given.now)) t) }
    ensures missing { IfErr result (λ e. (e ≡ unasked.NoMemory) ⊎ AsksForNothing (codes "run", rows_of (found_of given.now))) }
{
    Ok(Task::Run(RunFiles {
        script: given_once(given, "SCRIPT")?,
        opening: given_perhaps(given, "IMAGE"),
        folder: given_perhaps(given, "DIR"),
        live: is_given(given, "LIVE"),
        sync: is_given(given, "SYNC"),
        threads: is_given(given, "THREADS"),
        progress: is_given(given, "PROGRESS"),
    }))
}

/// What `load` asks for with these arguments.
fn asked_load<'a>(given: &ArgMatches<'a>) -> Result<Task<'a>, Unasked>
    ensures task { IfOk result (λ t. AsksFor (codes "load", rows_of (found_of given.now)) t) }
    ensures missing { IfErr result (λ e. (e ≡ unasked.NoMemory) ⊎ AsksForNothing (codes "load", rows_of (found_of given.now))) }
{
    Ok(Task::Load {
        pairs: given_once(given, "PAIRS")?,
        out: given_once(given, "OUT")?,
        progress: is_given(given, "PROGRESS"),
    })
}

/// What `merge` asks for with these arguments.
fn asked_merge<'a>(alloc: Global, given: &ArgMatches<'a>) -> Result<Task<'a>, Unasked>
    ensures task { IfOk result (λ t. AsksFor (codes "merge", rows_of (found_of given.now)) t) }
    ensures missing { IfErr result (λ e. (e ≡ unasked.NoMemory) ⊎ AsksForNothing (codes "merge", rows_of (found_of given.now))) }
{
    Ok(Task::Merge {
        out: given_once(given, "OUT")?,
        images: given_all(alloc, given, "IMAGE")?,
        progress: is_given(given, "PROGRESS"),
    })
}

/// What `recover` asks for with these arguments.
fn asked_recover<'a>(alloc: Global, given: &ArgMatches<'a>) -> Result<Task<'a>, Unasked>
    ensures task { IfOk result (λ t. AsksFor (codes "recover", rows_of (found_of given.now)) t) }
    ensures missing { IfErr result (λ e. (e ≡ unasked.NoMemory) ⊎ AsksForNothing (codes "recover", rows_of (found_of given.now))) }
{
    Ok(Task::Recover {
        script: given_once(given, "SCRIPT")?,
        log: given_once(given, "LOG")?,
        out: given_once(given, "OUT")?,
        images: given_all(alloc, given, "IMAGE")?,
        progress: is_given(given, "PROGRESS"),
    })
}

/// What `show` asks for with these arguments.
fn asked_show<'a>(given: &ArgMatches<'a>) -> Result<Task<'a>, Unasked>
    ensures task { IfOk result (λ t. AsksFor (codes "show", rows_of (found_of given.now)) t) }
    ensures missing { IfErr result (λ e. (e ≡ unasked.NoMemory) ⊎ AsksForNothing (codes "show", rows_of (found_of given.now))) }
{
    Ok(Task::Show {
        file: given_once(given, "FILE")?,
    })
}

/// What a command of this name asks for with these arguments.
fn task_of<'a>(alloc: Global, name: &str, given: &ArgMatches<'a>) -> Result<Task<'a>, Unasked>
    ensures task { IfOk result (λ t. AsksFor (name.now, rows_of (found_of given.now)) t) }
    ensures missing { IfErr result (λ e. (e ≡ unasked.NoMemory) ⊎ AsksForNothing (name.now, rows_of (found_of given.now))) }
{
    match name {
        "run" => asked_run(given),
        "load" => asked_load(given),
        "merge" => asked_merge(alloc, given),
        "recover" => asked_recover(alloc, given),
        "show" => asked_show(given),
        _ => Err(Unasked::Missing),
    }
}

/// What the command that was entered asks for.
fn asked<'a>(alloc: Global, matches: &ArgMatches<'a>) -> Result<Task<'a>, Unasked>
    ensures task { IfOk result (λ t. (given : Text × List Row) × (subcommand_rows_of matches.now ≡ Some given) × AsksFor given t) }
    ensures missing { IfErr result (λ e. (e ≡ unasked.NoMemory) ⊎ ((given : Text × List Row) → subcommand_rows_of matches.now ≡ Some given → AsksForNothing given)) }
{
    match matches.subcommand() {
        Some((name, given)) => task_of(alloc, name, given),
        None => Err(Unasked::Missing),
    }
}

/// Clap's error where the matches ask for nothing.
fn refused<'a>(program: &mut Command<'a>, why: Unasked) -> Result<Error, AllocError>
    ensures { IfOk result (λ e. (kind_of e ≡ MissingSubcommand) × (why ≡ unasked.Missing)) }
{
    match why {
        Unasked::NoMemory => Err(AllocError),
        Unasked::Missing => program.error(ErrorKind::MissingSubcommand, "no such command"),
    }
}

/// Clap's error where the options of a run don't go together.
fn apart<'a>(program: &mut Command<'a>) -> Result<Error, AllocError>
    ensures { IfOk result (λ e. kind_of e ≡ ArgumentConflict) }
{
    program.error(
        ErrorKind::ArgumentConflict,
        "--live needs --out, and --sync needs --live",
    )
}

/// What the words ask the program's command for.
#[tactic(auto, using(crate::proofs::CommandLines::commands_are_simple, crate::proofs::CommandLines::commands_are_free))]
fn job_of<'a, S: AsStr>(
    alloc: Global,
    program: &mut Command<'a>,
    words: &'a [S],
) -> Result<Task<'a>, Error>
    requires { app_of program.old ≡ calcdb_app }
    ensures task { IfOk result (λ t. IsTask (map S.text words.entry.now) t) }
    ensures together { IfOk result (λ t. goes_together t ≡ true) }
    ensures faultless { IfOk result (λ _. fault_of calcdb_app (map S.text words.entry.now) ≡ []) }
    ensures refused { IfErr result (IsRefused (map S.text words.entry.now)) }
{
    let asked = asked(alloc, &program.try_get_matches_from_mut(words)?);
    match asked {
        Ok(task) if task.goes_together() => Ok(task),
        Ok(_) => Err(apart(program)?),
        Err(why) => Err(refused(program, why)?),
    }
}

/// What the words ask for, of which the first is the program's name; or clap's error, which also stands
/// for a text that was asked for, as help.
pub(crate) fn job<'a, S: AsStr>(alloc: Global, words: &'a [S]) -> Result<Task<'a>, Error>
    ensures task { IfOk result (λ t. IsTask (map S.text words.entry.now) t) }
    ensures together { IfOk result (λ t. goes_together t ≡ true) }
    ensures faultless { IfOk result (λ _. fault_of calcdb_app (map S.text words.entry.now) ≡ []) }
    ensures refused { IfErr result (IsRefused (map S.text words.entry.now)) }
{
    let mut program = described(alloc)?;
    let job = job_of(alloc, &mut program, words);
    drop(program);
    job
}
