//! Which words a command line may have.
ghost use Rattle.std.specs.Prelude.{◌≡◌, false, true, Some, [], IfOk, codes, map, option_map, string_bytes, ℕ, List};
ghost use Rattle.clap.specs.declared.builder.command.Command.TheViews.{out-Command as fields_of};
ghost use Rattle.clap.specs.Kinds.{FailsBy};
ghost use Rattle.clap.specs.Matches.{found_of};
ghost use Rattle.clap.specs.Simple.{App, Shape, app_of, new_app, new_rule, subcommand_of, subcommand_rows_of, with_rule, with_subcommand as adding};
ghost use Rattle.clap.specs.Walk.{Rule, Text, first_of, one_of, rows_of, rule_of};
ghost use Rattle.tmem_args.specs.CommandLine.{IsAsked, IsNumberIfAny, IsNumberOf, IsTold, ReadsPlainly, IsFlagOf, bench_words, check_words, command_line, disk_words, explain_words, flag_word, init_words, number_word, option_words, program_alone, run_words, script_word, serve_words, show_words, store_word, text_in, threads_words, why_not_done};

use clap::{Arg, ArgAction, ArgMatches, Command, value_parser};
use std::alloc::{AllocError, Global};

// What `--version` prints behind the program's name.
const VERSION: &str = "1.0.0";

/// The file of the timed stores, where the words name none.
pub const JOBS_STORE: &str = "tmem-bench.store";

/// The files that a command line names.
#[derive(Clone, Copy)]
pub struct Paths<'a> {
    /// The script, or none for standard input.
    pub script: Option<&'a str>,
    /// The store, or none for a device in memory.
    pub disk: Option<&'a str>,
}

/// What the words ask for.
#[derive(Clone, Copy)]
pub enum Asked<'a> {
    /// A script is to be played.
    Run(Paths<'a>),
    /// Threads are to count up.
    Threads(Counting<'a>),
    /// The jobs of a service are to be timed.
    Bench(Timing<'a>),
    /// A store is to be shown.
    Show(Showing<'a>),
    /// A store is to be made.
    Init(Making<'a>),
    /// A store is to be served.
    Serve(Serving<'a>),
    /// The script in the file of this path is to be checked.
    Check(Option<&'a str>),
}

/// What the words ask for, and whether more is to be told of what fails.
#[derive(Clone, Copy)]
pub struct Invocation<'a> {
    pub asked: Asked<'a>,
    pub explains: bool,
}

/// Which store is to be made, and of what.
#[derive(Clone, Copy)]
pub struct Making<'a> {
    /// Its file or block device.
    pub store: Option<&'a str>,
    /// The file of its shape.
    pub file: Option<&'a str>,
    /// On what is there.
    pub is_in_place: bool,
}

/// Which store is to be served.
#[derive(Clone, Copy)]
pub struct Serving<'a> {
    /// Its file or block device.
    pub store: Option<&'a str>,
    /// The file of its shape, or none for the one beside it.
    pub shape: Option<&'a str>,
}

/// Which store is to be shown, and how.
#[derive(Clone, Copy)]
pub struct Showing<'a> {
    /// Its file or block device.
    pub store: Option<&'a str>,
    /// As a JSON object, and not as text.
    pub is_json: bool,
    /// With the bytes of each part.
    pub has_hex: bool,
}

/// How threads are to count up.
#[derive(Clone, Copy)]
pub struct Counting<'a> {
    /// How many threads there are, from 1 to 16.
    pub workers: u16,
    /// How often each of them adds 1, from 1 to 1000.
    pub turns: u16,
    /// The store, or none for a device in memory.
    pub disk: Option<&'a str>,
}

/// How the jobs of a service are to be timed.
#[derive(Clone, Copy)]
pub struct Timing<'a> {
    /// The file of the timed stores, or none for the usual one.
    pub disk: Option<&'a str>,
    /// For how many milliseconds each job goes on, from 10 to 60000, or none for the usual time.
    pub millis: Option<u16>,
    /// Which line of the table is wanted, from 1 to 48, or none for all.
    pub job: Option<u16>,
}

/// What is asked for. Refused with what is to be told of the words: help or the release where it was asked for, else what is
/// wrong with them.
pub fn asked_of<'a>(alloc: Global, words: &'a [String]) -> Result<Invocation<'a>, clap::Error>
    ensures told { IfOk result (IsTold (map string_bytes words.now)) }
    ensures refused { FailsBy (why_not_done (map string_bytes words.now)) result }
{
    let matches = matches_of(alloc, words)?;
    Ok(told_in(&matches))
}

// What the words were read as: the subcommand that they name, with what it is given.
fn matches_of<'a>(alloc: Global, words: &'a [String]) -> Result<ArgMatches<'a>, clap::Error>
    ensures met { IfOk result (λ matches. subcommand_rows_of matches ≡ subcommand_of command_line (map string_bytes words.now)) }
    ensures refused { FailsBy (why_not_done (map string_bytes words.now)) result }
{
    command(alloc)?.try_get_matches_from(words)
}

// What words that were read so ask for, and whether more is to be told.
fn told_in<'a>(matches: &ArgMatches<'a>) -> Invocation<'a>
    ensures { (words : List Text) → subcommand_rows_of matches.now ≡ subcommand_of command_line words → IsTold words result }
{
    Invocation {
        asked: asked_in(matches),
        explains: explains_in(matches),
    }
}

// Whether words that were read so have `--explain`.
fn explains_in(matches: &ArgMatches) -> bool
    ensures { (words : List Text) → subcommand_rows_of matches.now ≡ subcommand_of command_line words → IsFlagOf (text_in (codes "explain") words) result }
{
    match matches.subcommand() {
        Some((_, given)) => flag_in(given, "explain"),
        None => false,
    }
}

// What is asked for by words that were read so.
fn asked_in<'a>(matches: &ArgMatches<'a>) -> Asked<'a>
    ensures { (words : List Text) → subcommand_rows_of matches.now ≡ subcommand_of command_line words → IsAsked words result }
{
    if let Some(threads) = matches.subcommand_matches("threads") {
        return Asked::Threads(counting_of(threads));
    }
    if let Some(bench) = matches.subcommand_matches("bench") {
        return Asked::Bench(timing_of(bench));
    }
    if let Some(show) = matches.subcommand_matches("show") {
        return Asked::Show(showing_of(show));
    }
    if let Some(init) = matches.subcommand_matches("init") {
        return Asked::Init(making_of(init));
    }
    if let Some(serve) = matches.subcommand_matches("serve") {
        return Asked::Serve(serving_of(serve));
    }
    if let Some(check) = matches.subcommand_matches("check") {
        return Asked::Check(text_of(check, "script"));
    }
    let Some((_, run)) = matches.subcommand() else {
        return Asked::Run(Paths {
            script: None,
            disk: None,
        });
    };
    Asked::Run(paths_of(run))
}

// The files that `run` is given.
fn paths_of<'a>(run: &ArgMatches<'a>) -> Paths<'a>
    ensures script { option_map (λ text. text.now) result.script ≡ first_of (codes "script") (rows_of (found_of run.now)) }
    ensures disk { option_map (λ text. text.now) result.disk ≡ first_of (codes "disk") (rows_of (found_of run.now)) }
{
    Paths {
        script: text_of(run, "script"),
        disk: text_of(run, "disk"),
    }
}

// What `threads` is given.
fn counting_of<'a>(threads: &ArgMatches<'a>) -> Counting<'a>
    ensures workers { IsNumberOf (one_of (codes "workers") (rows_of (found_of threads.now))) result.workers }
    ensures turns { IsNumberOf (one_of (codes "turns") (rows_of (found_of threads.now))) result.turns }
    ensures disk { option_map (λ text. text.now) result.disk ≡ first_of (codes "disk") (rows_of (found_of threads.now)) }
{
    Counting {
        workers: number_in(threads, "workers"),
        turns: number_in(threads, "turns"),
        disk: text_of(threads, "disk"),
    }
}

// What `bench` is given.
fn timing_of<'a>(bench: &ArgMatches<'a>) -> Timing<'a>
    ensures disk { option_map (λ text. text.now) result.disk ≡ first_of (codes "disk") (rows_of (found_of bench.now)) }
    ensures millis { IsNumberIfAny (one_of (codes "millis") (rows_of (found_of bench.now))) result.millis }
    ensures job { IsNumberIfAny (one_of (codes "job") (rows_of (found_of bench.now))) result.job }
{
    Timing {
        disk: text_of(bench, "disk"),
        millis: number_if_any(bench, "millis"),
        job: number_if_any(bench, "job"),
    }
}

// What `show` is given.
fn showing_of<'a>(show: &ArgMatches<'a>) -> Showing<'a>
    ensures store { option_map (λ text. text.now) result.store ≡ first_of (codes "store") (rows_of (found_of show.now)) }
    ensures json { IsFlagOf (one_of (codes "json") (rows_of (found_of show.now))) result.is_json }
    ensures hex { IsFlagOf (one_of (codes "hex") (rows_of (found_of show.now))) result.has_hex }
{
    Showing {
        store: text_of(show, "store"),
        is_json: flag_in(show, "json"),
        has_hex: flag_in(show, "hex"),
    }
}

// What `init` is given.
fn making_of<'a>(init: &ArgMatches<'a>) -> Making<'a>
    ensures store { option_map (λ text. text.now) result.store ≡ first_of (codes "store") (rows_of (found_of init.now)) }
    ensures file { option_map (λ text. text.now) result.file ≡ first_of (codes "file") (rows_of (found_of init.now)) }
    ensures in_place { IsFlagOf (one_of (codes "in-place") (rows_of (found_of init.now))) result.is_in_place }
{
    Making {
        store: text_of(init, "store"),
        file: text_of(init, "file"),
        is_in_place: flag_in(init, "in-place"),
    }
}

// What `serve` is given.
fn serving_of<'a>(serve: &ArgMatches<'a>) -> Serving<'a>
    ensures store { option_map (λ text. text.now) result.store ≡ first_of (codes "store") (rows_of (found_of serve.now)) }
    ensures shape { option_map (λ text. text.now) result.shape ≡ first_of (codes "shape") (rows_of (found_of serve.now)) }
{
    Serving {
        store: text_of(serve, "store"),
        shape: text_of(serve, "shape"),
    }
}

// Whether a flag is given.
fn flag_in(matches: &ArgMatches, id: &str) -> bool
    ensures { IsFlagOf (one_of id.now (rows_of (found_of matches.now))) result }
{
    matches.get_flag(id)
}

// The text of an argument.
fn text_of<'a>(matches: &ArgMatches<'a>, id: &str) -> Option<&'a str>
    ensures { option_map (λ text. text.now) result ≡ first_of id.now (rows_of (found_of matches.now)) }
{
    matches.get_str(id)
}

// The number that an argument is given: the parser has seen that it is one.
fn number_in(matches: &ArgMatches, id: &str) -> u16
    ensures { IsNumberOf (one_of id.now (rows_of (found_of matches.now))) result }
{
    matches.get_one(id).unwrap_or(0)
}

// The same of an argument that may be left out.
fn number_if_any(matches: &ArgMatches, id: &str) -> Option<u16>
    ensures { IsNumberIfAny (one_of id.now (rows_of (found_of matches.now))) result }
{
    matches.get_one(id)
}

fn command<'a>(alloc: Global) -> Result<Command<'a>, AllocError>
    ensures { IfOk result (λ command. app_of command ≡ command_line) }
{
    let with_threads = with_subcommand(
        with_subcommand(program(alloc), run_command(alloc)),
        threads_command(alloc),
    );
    let with_show = with_subcommand(
        with_subcommand(with_threads, bench_command(alloc)),
        show_command(alloc),
    );
    let with_serve = with_subcommand(
        with_subcommand(with_show, init_command(alloc)),
        serve_command(alloc),
    );
    with_subcommand(with_serve, check_command(alloc))
}

// The program with no subcommand yet.
fn program<'a>(alloc: Global) -> Result<Command<'a>, AllocError>
    ensures { IfOk result (λ command. app_of command ≡ program_alone) }
{
    Command::new(alloc, "tmem")
        .version(VERSION)
        .about(
            "Durable transactions, played from scripts or served (with --explain a command that fails says why, and what to do)",
        )
        .subcommand_required(true)
        .bin_name("tmem")
}

// A command with one more subcommand, where both were made. (One exit for both, as each `?` takes the prover seconds.)
fn with_subcommand<'a>(
    command: Result<Command<'a>, AllocError>,
    subcommand: Result<Command<'a>, AllocError>,
) -> Result<Command<'a>, AllocError>
    ensures { (before : App) (words : Shape) → IfOk command.entry (λ command. app_of command ≡ before)
        → IfOk subcommand.entry (λ sub. app_of sub ≡ record { top = words; subs = [] })
        → IfOk subcommand.entry (λ sub. (fields_of sub).has_globals ≡ false)
        → IfOk result (λ command. app_of command ≡ adding before words) }
{
    let (Ok(command), Ok(subcommand)) = (command, subcommand) else {
        return Err(AllocError);
    };
    command.subcommand(subcommand)
}

// A subcommand of this name with two arguments.
fn subcommand_with<'a>(
    alloc: Global,
    name: &'a str,
    about: &'a str,
    first: Arg<'a>,
    second: Arg<'a>,
) -> Result<Command<'a>, AllocError>
    ensures app { (one two : Rule) → rule_of first.entry ≡ one
        → first.entry.global ≡ false
        → rule_of second.entry ≡ two
        → second.entry.global ≡ false
        → IfOk result (λ command. app_of command ≡ with_rule (with_rule (new_app name.entry.now) one) two) }
    ensures local { first.entry.global ≡ false
        → second.entry.global ≡ false
        → IfOk result (λ command. (fields_of command).has_globals ≡ false) }
{
    with_arg(Command::new(alloc, name).about(about).arg(first), second)
}

// A command with one more argument, where it was made. (Without a `?`, for the same reason.)
fn with_arg<'a>(
    command: Result<Command<'a>, AllocError>,
    arg: Arg<'a>,
) -> Result<Command<'a>, AllocError>
    ensures app { (before : App) (rule : Rule) → IfOk command.entry (λ command. app_of command ≡ before)
        → rule_of arg.entry ≡ rule
        → arg.entry.global ≡ false
        → IfOk result (λ command. app_of command ≡ with_rule before rule) }
    ensures local { IfOk command.entry (λ command. (fields_of command).has_globals ≡ false)
        → arg.entry.global ≡ false
        → IfOk result (λ command. (fields_of command).has_globals ≡ false) }
{
    let Ok(command) = command else {
        return Err(AllocError);
    };
    command.arg(arg)
}

fn run_command<'a>(alloc: Global) -> Result<Command<'a>, AllocError>
    ensures app { IfOk result (λ command. app_of command ≡ record { top = run_words; subs = [] }) }
    ensures local { IfOk result (λ command. (fields_of command).has_globals ≡ false) }
{
    let disk = disk_arg(
        alloc,
        "The file of the store, made if it is missing [default: a device in memory]",
    );
    let run = subcommand_with(
        alloc,
        "run",
        "Plays a script on a store in a file or in memory",
        script_arg(alloc),
        disk,
    );
    with_arg(run, explain_arg(alloc))
}

fn threads_command<'a>(alloc: Global) -> Result<Command<'a>, AllocError>
    ensures app { IfOk result (λ command. app_of command ≡ record { top = threads_words; subs = [] }) }
    ensures local { IfOk result (λ command. (fields_of command).has_globals ≡ false) }
{
    let disk = disk_arg(
        alloc,
        "The file of the store, which must not be there yet [default: a device in memory]",
    );
    let threads = subcommand_with(
        alloc,
        "threads",
        "Lets threads count up in a new store in a file or in memory",
        workers_arg(alloc),
        turns_arg(alloc),
    );
    with_arg(with_arg(threads, disk), explain_arg(alloc))
}

fn bench_command<'a>(alloc: Global) -> Result<Command<'a>, AllocError>
    ensures app { IfOk result (λ command. app_of command ≡ record { top = bench_words; subs = [] }) }
    ensures local { IfOk result (λ command. (fields_of command).has_globals ≡ false) }
{
    let disk = disk_arg(
        alloc,
        "The file of the timed stores, which must not be there yet, and is removed again [default: tmem-bench.store]",
    );
    let bench = subcommand_with(
        alloc,
        "bench",
        "Times transactions and the jobs of a service, which takes over a minute",
        disk,
        millis_arg(alloc),
    );
    with_arg(with_arg(bench, job_arg(alloc)), explain_arg(alloc))
}

fn show_command<'a>(alloc: Global) -> Result<Command<'a>, AllocError>
    ensures app { IfOk result (λ command. app_of command ≡ record { top = show_words; subs = [] }) }
    ensures local { IfOk result (λ command. (fields_of command).has_globals ≡ false) }
{
    let json = flag_arg(alloc, "json", "Print one JSON object");
    let hex = flag_arg(alloc, "hex", "Print the bytes of each part too");
    let show = subcommand_with(
        alloc,
        "show",
        "Shows what is in a store, without changing it",
        store_arg(alloc),
        json,
    );
    with_arg(with_arg(show, hex), explain_arg(alloc))
}

fn init_command<'a>(alloc: Global) -> Result<Command<'a>, AllocError>
    ensures app { IfOk result (λ command. app_of command ≡ record { top = init_words; subs = [] }) }
    ensures local { IfOk result (λ command. (fields_of command).has_globals ≡ false) }
{
    let in_place = flag_arg(
        alloc,
        "in-place",
        "Make it on a file or block device that is there, whose first bytes, as many as it takes, are 0, and put nothing beside it",
    );
    let init = subcommand_with(
        alloc,
        "init",
        "Makes a store of a shape, and puts the shape beside it",
        store_arg(alloc),
        required_arg(alloc, "file", "FILE", "The file with the shape"),
    );
    with_arg(with_arg(init, in_place), explain_arg(alloc))
}

fn serve_command<'a>(alloc: Global) -> Result<Command<'a>, AllocError>
    ensures app { IfOk result (λ command. app_of command ≡ record { top = serve_words; subs = [] }) }
    ensures local { IfOk result (λ command. (fields_of command).has_globals ≡ false) }
{
    let help = "The file with its shape [default: STORE.json]";
    let serve = subcommand_with(
        alloc,
        "serve",
        "Answers the requests on standard input from a store",
        store_arg(alloc),
        option_arg(alloc, "shape", "FILE", help),
    );
    with_arg(serve, explain_arg(alloc))
}

fn check_command<'a>(alloc: Global) -> Result<Command<'a>, AllocError>
    ensures app { IfOk result (λ command. app_of command ≡ record { top = check_words; subs = [] }) }
    ensures local { IfOk result (λ command. (fields_of command).has_globals ≡ false) }
{
    let script = required_arg(alloc, "script", "SCRIPT", "The file with the script");
    let explain = flag_arg(alloc, "explain", "Changes nothing: all is said without it");
    subcommand_with(
        alloc,
        "check",
        "Says all that is wrong with a script, and touches no store",
        script,
        explain,
    )
}

// `--explain`.
fn explain_arg<'a>(alloc: Global) -> Arg<'a>
    ensures rule { rule_of result ≡ explain_words }
    ensures local { result.global ≡ false }
{
    flag_arg(alloc, "explain", "Say more of what fails, and what to do")
}

// The path of a store, which has to be given.
fn store_arg<'a>(alloc: Global) -> Arg<'a>
    ensures rule { rule_of result ≡ store_word }
    ensures local { result.global ≡ false }
{
    let help = "The file of the store, or the block device";
    required_arg(alloc, "store", "STORE", help)
}

// A flag of this name.
fn flag_arg<'a>(alloc: Global, id: &'a str, help: &'a str) -> Arg<'a>
    ensures rule { rule_of result ≡ flag_word id.entry.now }
    ensures local { result.global ≡ false }
{
    Arg::new(alloc, id)
        .long(id)
        .action(ArgAction::SetTrue)
        .help(help)
}

// The path of a script.
fn script_arg<'a>(alloc: Global) -> Arg<'a>
    ensures rule { rule_of result ≡ script_word }
    ensures local { result.global ≡ false }
{
    Arg::new(alloc, "script")
        .value_name("SCRIPT")
        .help("The file with the script [default: standard input]")
}

// How many threads count.
fn workers_arg<'a>(alloc: Global) -> Arg<'a>
    ensures rule { rule_of result ≡ number_word (codes "workers") 16 }
    ensures local { result.global ≡ false }
{
    let workers = value_parser!(u16).range(1..=16);
    let help = "How many threads count, from 1 to 16";
    required_arg(alloc, "workers", "WORKERS", help).value_parser(workers)
}

// How often each of them adds 1.
fn turns_arg<'a>(alloc: Global) -> Arg<'a>
    ensures rule { rule_of result ≡ number_word (codes "turns") 1000 }
    ensures local { result.global ≡ false }
{
    let turns = value_parser!(u16).range(1..=1000);
    let help = "How often each of them adds 1, from 1 to 1000";
    required_arg(alloc, "turns", "TURNS", help).value_parser(turns)
}

// `--millis` with how long a job goes on.
fn millis_arg<'a>(alloc: Global) -> Arg<'a>
    ensures rule { rule_of result ≡ option_words (codes "millis") 10 60000 }
    ensures local { result.global ≡ false }
{
    let millis = value_parser!(u16).range(10..=60000);
    let help = "For how many milliseconds each job goes on, from 10 to 60000 [default: 1000]";
    option_arg(alloc, "millis", "N", help).value_parser(millis)
}

// `--job` with the number of a line.
fn job_arg<'a>(alloc: Global) -> Arg<'a>
    ensures rule { rule_of result ≡ option_words (codes "job") 1 48 }
    ensures local { result.global ≡ false }
{
    let lines = value_parser!(u16).range(1..=48);
    let help = "The one job to time, by its line in the table, from 1 to 48 [default: all]";
    option_arg(alloc, "job", "N", help).value_parser(lines)
}

// A required argument.
fn required_arg<'a>(alloc: Global, id: &'a str, value_name: &'a str, help: &'a str) -> Arg<'a>
    ensures rule { rule_of result ≡ record (new_rule id.entry.now) { value_names = 1; required = true } }
    ensures local { result.global ≡ false }
{
    Arg::new(alloc, id)
        .required(true)
        .value_name(value_name)
        .help(help)
}

// An option with a value.
fn option_arg<'a>(alloc: Global, id: &'a str, value_name: &'a str, help: &'a str) -> Arg<'a>
    ensures rule { rule_of result ≡ record (new_rule id.entry.now) { long = Some id.entry.now; value_names = 1 } }
    ensures local { result.global ≡ false }
{
    Arg::new(alloc, id)
        .long(id)
        .value_name(value_name)
        .help(help)
}

// `--disk` with a path.
fn disk_arg<'a>(alloc: Global, help: &'a str) -> Arg<'a>
    ensures rule { rule_of result ≡ disk_words }
    ensures local { result.global ≡ false }
{
    option_arg(alloc, "disk", "PATH", help)
}

/// How plain command lines are read. It does nothing: a caller's proof takes the law from its contract.
pub fn reads_plainly()
    ensures { (name : List ℕ) → ReadsPlainly name }
{}
