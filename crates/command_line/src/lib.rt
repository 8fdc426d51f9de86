//! The command line of awkwasm: what it asks for, and what is said of a line that asks for nothing.
#![tactic(auto)]

ghost use Rattle.std.specs.Prelude.{◌≡◌, ◌≢◌, ◌↔◌, [], IfOk, IsSomeAnd, IsTrue, false};
ghost use Rattle.std.specs.Prelude.{Ok, Some, map, option_map, true, IfErr, codes};
ghost use Rattle.clap.specs.Words.{App, FailsBy, IsAmong, Rule, app_of, fault_of, rule_of, takes, kind_of, rows_of, found_of, matches_of, one_of, first_of, new_app, new_rule, subcommand_rows_of, subcommand_of, with_rule, with_subcommand};
ghost use Rattle.command_line.specs.Request.{Asks, IsFences, IsFlag, IsLimits, IsNumber, IsTask, texts, word_at, words_at};
ghost use Rattle.command_line.specs.Line.{Builds, single, flag_rule, names_rule, number_rule, options_app, fences_app, names_app, limits_app, check_app, compile_app, count_app, run_app, exec_app, task_app, explain_app, imports_app, top_app, line_app, line_for, named_by, named_in, run_in, count_in, exec_in, is_file_option, has_file_option, status_of_kind, takes_text, text_apart};

mod spelling;

use clap::builder::ValueParser;
use clap::error::ErrorKind;
use clap::{Arg, ArgAction, ArgMatches, Command, Error};
pub use spelling::spelled_line;
use std::alloc::{AllocError, Global};

/// What the help of the whole line says at its end.
const AFTER_HELP: &str = "\
The awk of POSIX over whole numbers from -2^53 to 2^53, with text as bytes. A script starts no
command and opens no connection. It opens files by their names, unless --no-files, --read-only or
--only-operands keep them out. SCRIPT is the script's text; of a file it is \"$(cat prog.awk)\".

A word that begins with a hyphen is an option wherever it is, also after SCRIPT or MODULE. After
-- no word is an option. So write -- before names that you do not know: awkwasm run SCRIPT -- *
Attach a text that begins with a hyphen to its option: -F-, not -F -. An = after -F or -v belongs
to the text: -F= separates fields by =.

The exit status is the script's own, or 2 runtime error, 3 refused, 4 out of steps, 5 no memory,
6 calls nested too deeply, 7 a trap of the module, 8 a wrong command line or file. With 2 to 7
comes a line 'awkwasm: NAME ..' on the standard error: 'awkwasm explain NAME' says what to do.

Examples:
  awkwasm run '{ n += $2 } END { print n }' table
  awkwasm run --only-operands --steps 1000000 \"$(cat prog.awk)\" access.log
  awkwasm compile prog.awk prog.wasm && awkwasm exec prog.wasm access.log";

/// What a line keeps out: each option that is given takes names of files away.
#[derive(Clone, Copy, Drop)]
pub struct FenceOptions {
    /// `--no-files`: no file is opened.
    pub no_files: bool,
    /// `--read-only`: no file is opened for writing.
    pub read_only: bool,
    /// `--only-operands`: no file is opened but the operands, and those for reading.
    pub only_operands: bool,
}

/// How many bytes a run may take in and give out.
#[derive(Clone, Copy, Drop)]
pub struct Limits {
    /// `--most-input`: the greatest number of bytes that are read; without it the greatest of 64 bits.
    pub most_input: u64,
    /// `--most-output`: the greatest number of bytes that are written; without it the greatest of 64 bits.
    pub most_output: u64,
}

/// A run that is asked for: of what, and on what.
#[derive(Drop)]
pub struct Task<'a> {
    /// The separators of `-F`, in order: each is assigned to FS after every assignment of `-v`, so the last one counts.
    pub separators: Vec<&'a str>,
    /// The words of `-v`, in order, as they were written.
    pub assigns: Vec<&'a str>,
    /// The greatest number of steps to take; without `--steps` the greatest of 64 bits.
    pub steps: u64,
    /// `--where`: tell where the script or the module was where it faults or is stopped.
    pub tells_where: bool,
    /// `--stats`, which `run` takes alone: tell what the run took.
    pub tells_stats: bool,
    /// Which files are kept out.
    pub fences: FenceOptions,
    /// The names of `--may-read`, in order: files that may be read.
    pub may_read: Vec<&'a str>,
    /// The names of `--may-write`, in order: files that may be written.
    pub may_write: Vec<&'a str>,
    /// How many bytes may be read and written.
    pub limits: Limits,
    /// `--streams`: names of the standard streams, as `/dev/stdout`, are the program's own streams.
    pub streams: bool,
    /// The script's text for `run`, the script's file name for `count`, the module's file name for `exec`.
    pub subject: &'a str,
    /// The operands.
    pub words: Vec<&'a str>,
}

/// What a command line asks for.
#[derive(Drop)]
pub enum Request<'a> {
    /// `compile [--lines] SCRIPTFILE OUT`: the names of two files, and whether the module is to have the lines of the script.
    Compile {
        script_file: &'a str,
        out: &'a str,
        has_lines: bool,
    },
    /// `check SCRIPTFILE`: all that is to be said of a script before it runs.
    Check(&'a str),
    /// `run SCRIPT WORDS..`
    Run(Task<'a>),
    /// `count SCRIPTFILE WORDS..`: how often the statements of each line are executed.
    Count(Task<'a>),
    /// `exec MODULE WORDS..`
    Exec(Task<'a>),
    /// `imports MODULE`: what a module imports.
    Imports(&'a str),
    /// `explain NAME`: what a name of a message means; without a name, which names there are.
    Explain(Option<&'a str>),
}

/// Words that need not be there.
fn free_arg<'a>(alloc: Global, id: &'a str, help: &'a str, action: ArgAction) -> Arg<'a>
    ensures rule { rule_of result ≡ record (new_rule id.now) { action = Some action } }
    ensures local { result.global ≡ false }
{
    Arg::new(alloc, id).help(help).action(action)
}

fn single_arg<'a>(alloc: Global, id: &'a str, help: &'a str) -> Arg<'a>
    ensures rule { rule_of result ≡ single id.now }
    ensures local { result.global ≡ false }
{
    free_arg(alloc, id, help, ArgAction::Set).required(true)
}

/// An option of one letter, which may be given often.
fn letter_arg<'a>(
    alloc: Global,
    id: &'a str,
    letter: char,
    help: &'a str,
    value: &'a str,
) -> Arg<'a>
    ensures rule { rule_of result ≡ record (new_rule id.now)
        { short = Some letter; action = Some ArgAction.Append; value_names = 1 } }
    ensures local { result.global ≡ false }
{
    free_arg(alloc, id, help, ArgAction::Append)
        .short(letter)
        .value_name(value)
}

/// An option whose value is a number of 64 bits.
fn number_arg<'a>(alloc: Global, name: &'a str, help: &'a str, value: &'a str) -> Arg<'a>
    ensures rule { rule_of result ≡ number_rule name.now }
    ensures local { result.global ≡ false }
{
    free_arg(alloc, name, help, ArgAction::Set)
        .long(name)
        .value_name(value)
        .value_parser(ValueParser::unsigned(0, u64::MAX))
}

/// An option whose value is a file's name, which may be given often.
fn names_arg<'a>(alloc: Global, name: &'a str, help: &'a str) -> Arg<'a>
    ensures rule { rule_of result ≡ names_rule name.now }
    ensures local { result.global ≡ false }
{
    free_arg(alloc, name, help, ArgAction::Append)
        .long(name)
        .value_name("NAME")
}

fn flag_arg<'a>(alloc: Global, name: &'a str, help: &'a str) -> Arg<'a>
    ensures rule { rule_of result ≡ flag_rule name.now }
    ensures local { result.global ≡ false }
{
    free_arg(alloc, name, help, ArgAction::SetTrue).long(name)
}

/// A command without arguments.
fn named_command<'a>(alloc: Global, name: &'a str, about: &'a str) -> Command<'a>
    ensures { Builds (new_app name.now) result }
{
    Command::new(alloc, name).about(about)
}

/// A command, where it was built, with one more argument.
fn with_arg<'a>(
    command: Result<Command<'a>, AllocError>,
    arg: Arg<'a>,
) -> Result<Command<'a>, AllocError>
    requires { arg.global ≡ false }
    ensures { (app : App) (rule : Rule) → rule_of arg.entry ≡ rule
        → IfOk command.entry (Builds app) → IfOk result (Builds (with_rule app rule)) }
{
    match command {
        Ok(command) => command.arg(arg),
        Err(refused) => Err(refused),
    }
}

fn options_command<'a>(
    alloc: Global,
    name: &'a str,
    about: &'a str,
) -> Result<Command<'a>, AllocError>
    ensures { IfOk result (Builds (options_app name.now)) }
{
    let help = "Separate fields by this text: a last -v FS=TEXT";
    let separator = letter_arg(alloc, "separator", 'F', help, "TEXT");
    let help = "Assign to a variable before the script begins";
    let assign = letter_arg(alloc, "assign", 'v', help, "NAME=TEXT");
    let command = with_arg(Ok(named_command(alloc, name, about)), separator);
    let command = with_arg(command, assign);
    let help = "Stop after this many steps of the module";
    with_arg(command, number_arg(alloc, "steps", help, "N"))
}

fn fences_command<'a>(
    alloc: Global,
    name: &'a str,
    about: &'a str,
) -> Result<Command<'a>, AllocError>
    ensures { IfOk result (Builds (fences_app name.now)) }
{
    let help = "Open only files named in WORDS, for reading";
    let command = options_command(alloc, name, about);
    let command = with_arg(command, flag_arg(alloc, "no-files", "Open no file"));
    let command = with_arg(
        command,
        flag_arg(alloc, "read-only", "Open no file for writing"),
    );
    with_arg(command, flag_arg(alloc, "only-operands", help))
}

fn names_command<'a>(
    alloc: Global,
    name: &'a str,
    about: &'a str,
) -> Result<Command<'a>, AllocError>
    ensures { IfOk result (Builds (names_app name.now)) }
{
    let command = fences_command(alloc, name, about);
    let help = "Allow reading this file; others only as the options above allow";
    let command = with_arg(command, names_arg(alloc, "may-read", help));
    let help = "Allow writing this file, and no others";
    with_arg(command, names_arg(alloc, "may-write", help))
}

fn limits_command<'a>(
    alloc: Global,
    name: &'a str,
    about: &'a str,
) -> Result<Command<'a>, AllocError>
    ensures { IfOk result (Builds (limits_app name.now)) }
{
    let command = names_command(alloc, name, about);
    let help = "Read at most this many bytes";
    let command = with_arg(command, number_arg(alloc, "most-input", help, "BYTES"));
    let help = "Write at most this many bytes";
    let command = with_arg(command, number_arg(alloc, "most-output", help, "BYTES"));
    let help = "/dev/stdin, /dev/stdout and /dev/stderr are the program's own streams";
    with_arg(command, flag_arg(alloc, "streams", help))
}

/// `run`, `count` or `exec`: the options, what is run, and the operands.
fn task_command<'a>(
    alloc: Global,
    name: &'a str,
    about: &'a str,
    subject: &'a str,
    help: &'a str,
) -> Result<Command<'a>, AllocError>
    ensures { IfOk result (Builds (task_app name.now subject.now)) }
{
    let command = limits_command(alloc, name, about);
    let command = with_arg(command, single_arg(alloc, subject, help));
    let help = "Files to read, - for standard input, and assignments NAME=TEXT";
    with_arg(command, free_arg(alloc, "words", help, ArgAction::Append))
}

/// The command that a line names, of those with many arguments.
#[derive(Clone, Copy)]
enum Named {
    Run,
    Count,
    Exec,
    /// Another one, or none.
    Other,
}

fn named_by(word: &str) -> Named
    ensures { result ≡ named_by word.now }
{
    if word == "run" {
        return Named::Run;
    }
    if word == "count" {
        return Named::Count;
    }
    if word == "exec" {
        return Named::Exec;
    }
    Named::Other
}

/// The command that a line names with its first word after the program's name.
fn named_in(words: &[&str]) -> Named
    ensures { result ≡ named_in words.now }
{
    match words.get(1) {
        Some(word) => named_by(word),
        None => Named::Other,
    }
}

fn run_command<'a>(alloc: Global) -> Result<Command<'a>, AllocError>
    ensures { IfOk result (Builds run_app) }
{
    let help = "The script's text; of a file: \"$(cat prog.awk)\"";
    let command = task_command(alloc, "run", "Run a script", "script", help);
    let help = "After an error, say at which line of the script it happened";
    let command = with_arg(command, flag_arg(alloc, "where", help));
    let help = "After the run, print how many steps, records and values it took";
    with_arg(command, flag_arg(alloc, "stats", help))
}

fn count_command<'a>(alloc: Global) -> Result<Command<'a>, AllocError>
    ensures { IfOk result (Builds count_app) }
{
    let about = "Run a script, and list its lines with how often they were executed";
    task_command(alloc, "count", about, "scriptfile", "The script's file")
}

fn exec_command<'a>(alloc: Global) -> Result<Command<'a>, AllocError>
    ensures { IfOk result (Builds exec_app) }
{
    let about = "Run a compiled module";
    let command = task_command(alloc, "exec", about, "module", "The module's file");
    let help = "After an error, say at which line it happened, by the lines of compile --lines";
    with_arg(command, flag_arg(alloc, "where", help))
}

/// `run`, with its arguments unless the line names another command that has many.
fn run_in<'a>(alloc: Global, named: Named) -> Result<Command<'a>, AllocError>
    ensures { IfOk result (Builds (run_in named)) }
{
    match named {
        Named::Run | Named::Other => run_command(alloc),
        _ => Ok(named_command(alloc, "run", "")),
    }
}

fn count_in<'a>(alloc: Global, named: Named) -> Result<Command<'a>, AllocError>
    ensures { IfOk result (Builds (count_in named)) }
{
    match named {
        Named::Count | Named::Other => count_command(alloc),
        _ => Ok(named_command(alloc, "count", "")),
    }
}

fn exec_in<'a>(alloc: Global, named: Named) -> Result<Command<'a>, AllocError>
    ensures { IfOk result (Builds (exec_in named)) }
{
    match named {
        Named::Exec | Named::Other => exec_command(alloc),
        _ => Ok(named_command(alloc, "exec", "")),
    }
}

fn compile_command<'a>(alloc: Global) -> Result<Command<'a>, AllocError>
    ensures { IfOk result (Builds compile_app) }
{
    let about = "Compile a script to a WebAssembly module";
    let script = single_arg(alloc, "scriptfile", "The script's file");
    let out = single_arg(alloc, "out", "The file to write the module to");
    let command = with_arg(Ok(named_command(alloc, "compile", about)), script);
    let command = with_arg(command, out);
    let help = "Append the names of the script's functions and the lines of its statements";
    with_arg(command, flag_arg(alloc, "lines", help))
}

fn check_command<'a>(alloc: Global) -> Result<Command<'a>, AllocError>
    ensures { IfOk result (Builds check_app) }
{
    let about = "Report the errors and likely mistakes in a script, with their places";
    let script = single_arg(alloc, "scriptfile", "The script's file");
    with_arg(Ok(named_command(alloc, "check", about)), script)
}

fn imports_command<'a>(alloc: Global) -> Result<Command<'a>, AllocError>
    ensures { IfOk result (Builds imports_app) }
{
    let about = "List what a module imports, and say what it can read and write";
    let module = single_arg(alloc, "module", "The module's file");
    with_arg(Ok(named_command(alloc, "imports", about)), module)
}

fn explain_command<'a>(alloc: Global) -> Result<Command<'a>, AllocError>
    ensures { IfOk result (Builds explain_app) }
{
    let about = "Explain an error or an exit status, and say what to do";
    let help = "The name after 'awkwasm: ', or an exit status; without it all names are listed";
    let name = free_arg(alloc, "name", help, ArgAction::Set);
    with_arg(Ok(named_command(alloc, "explain", about)), name)
}

/// The line's own settings.
fn top_command<'a>(alloc: Global) -> Command<'a>
    ensures { app_of result ≡ top_app }
{
    named_command(
        alloc,
        "awkwasm",
        "Compiles AWK scripts to WebAssembly modules, and runs them",
    )
    .after_help(AFTER_HELP)
    .version("0.1.0")
    .subcommand_required(true)
}

/// Two values, where both were made; else the one that was made is let go, for every type at once.
fn both<T: Drop, U: Drop>(
    one: Result<T, AllocError>,
    other: Result<U, AllocError>,
) -> Result<(T, U), AllocError>
    ensures { IfOk result (λ x. (one ≡ Ok x.0) × (other ≡ Ok x.1)) }
{
    let one = one?;
    let other = other?;
    Ok((one, other))
}

/// The line with one more subcommand, where both were built.
fn with_subcommand<'a>(
    line: Result<Command<'a>, AllocError>,
    added: Result<Command<'a>, AllocError>,
) -> Result<Command<'a>, AllocError>
    ensures { (app sub : App) → IfOk line.entry (λ c. app_of c ≡ app)
        → IfOk added.entry (Builds sub)
        → IfOk result (λ c. app_of c ≡ with_subcommand app sub.top) }
{
    match both(line, added) {
        Ok((line, added)) => line.subcommand(added),
        Err(refused) => Err(refused),
    }
}

/// The whole line, but for the arguments of the commands that have many and are not named.
fn command<'a>(alloc: Global, named: Named) -> Result<Command<'a>, AllocError>
    ensures { IfOk result (λ c. app_of c ≡ line_for named) }
{
    let line = with_subcommand(Ok(top_command(alloc)), compile_command(alloc));
    let line = with_subcommand(line, check_command(alloc));
    let line = with_subcommand(line, run_in(alloc, named));
    let line = with_subcommand(line, count_in(alloc, named));
    let line = with_subcommand(line, exec_in(alloc, named));
    let line = with_subcommand(line, imports_command(alloc));
    with_subcommand(line, explain_command(alloc))
}

/// What clap finds in the words, by a line that was built for the command that they name.
fn matches_in<'a>(
    alloc: Global,
    words: &'a [&'a str],
    named: Named,
) -> Result<ArgMatches<'a>, Error>
    ensures ok { IfOk result
        (λ m. (rows_of (found_of m) ≡ matches_of (line_for named) (map (λ s. s.now) words.now))
        × (subcommand_rows_of m ≡ subcommand_of (line_for named) (map (λ s. s.now) words.now))) }
    ensures err { IfErr result (λ e. takes (line_for named) (map (λ s. s.now) words.now) ≡ true
        → kind_of e ≡ ErrorKind.OutOfMemory) }
    ensures kinds { FailsBy (fault_of (line_for named) (map (λ s. s.now) words.now)) result }
{
    command(alloc, named)?.try_get_matches_from(words)
}

/// What clap finds in a line, whose first word is the program's name: it follows from the words.
///
/// # Errors
///
/// Where the words are not taken (help and the version are such answers), for one of the causes that clap's rules give for them; or for want of memory.
pub fn matches_of_line<'a>(alloc: Global, words: &'a [&'a str]) -> Result<ArgMatches<'a>, Error>
    ensures ok { IfOk result
        (λ m. (rows_of (found_of m) ≡ matches_of line_app (map (λ s. s.now) words.now))
        × (subcommand_rows_of m ≡ subcommand_of line_app (map (λ s. s.now) words.now))) }
    ensures err { IfErr result (λ e. takes line_app (map (λ s. s.now) words.now) ≡ true
        → kind_of e ≡ ErrorKind.OutOfMemory) }
    ensures faultless { IfOk result
        (λ m. fault_of line_app (map (λ s. s.now) words.now) ≡ []) }
    ensures cause { IfErr result (λ e. kind_of e ≢ ErrorKind.OutOfMemory
        → IsAmong (kind_of e) (fault_of line_app (map (λ s. s.now) words.now))) }
{
    match matches_in(alloc, words, named_in(words)) {
        Ok(found) => Ok(found),
        // The text of an error tells of the whole line.
        Err(_) => matches_in(alloc, words, Named::Other),
    }
}

/// The exit status of a line that asks for nothing: 0 where help or the version was asked for, 5 for want of memory, else 8.
pub fn exit_status(error: &Error) -> u8
    ensures { result ≡ status_of_kind (kind_of error.now) }
{
    match error.kind() {
        ErrorKind::DisplayHelp | ErrorKind::DisplayVersion => 0,
        ErrorKind::OutOfMemory => 5,
        _ => 8,
    }
}

/// Whether a line asks for nothing for want of memory. Then the text of the error is clap's own.
pub fn is_no_memory(error: &Error) -> bool
    ensures { IsTrue result ↔ (kind_of error.now ≡ ErrorKind.OutOfMemory) }
{
    matches!(error.kind(), ErrorKind::OutOfMemory)
}

/// Whether a word is the option `-f` of other awks, with a script's file or before it.
fn is_file_option(word: &str) -> bool
    ensures { result ≡ is_file_option word.now }
{
    word.starts_with("-f")
}

/// Whether a word is that option.
fn has_file_option(words: &[&str]) -> bool
    ensures { result ≡ has_file_option words.now }
{
    words.iter().any(|word| is_file_option(word))
}

/// Whether a line is refused for an unknown option, and has the option `-f` of other awks. The script's file that it names is to be given as text, or
/// compiled.
pub fn is_script_file(error: &Error, words: &[&str]) -> bool
    ensures { IsTrue result ↔ (kind_of error.now ≡ ErrorKind.UnknownArgument)
        × (has_file_option words.now ≡ true) }
{
    match error.kind() {
        ErrorKind::UnknownArgument => has_file_option(words),
        _ => false,
    }
}

/// Whether a word is an option that takes a text.
fn takes_text(word: &str) -> bool
    ensures { result ≡ takes_text word.now }
{
    word == "-F" || word == "-v"
}

/// Whether a word that begins with a hyphen comes after such an option.
#[tactic(auto, unfolding(crate::specs::Line::text_apart))]
fn has_text_apart(words: &[&str]) -> bool
    ensures { result ≡ text_apart false (texts words.now) }
{
    let mut waits = false;
    for word in words {
        if waits && word.starts_with("-") {
            return true;
        }
        waits = takes_text(word);
    }
    false
}

/// Whether a line is refused for an unknown option, and has a word that begins with a hyphen after `-F` or `-v`. As their text it is to be attached to them.
pub fn is_text_apart(error: &Error, words: &[&str]) -> bool
    ensures { IsTrue result ↔ (kind_of error.now ≡ ErrorKind.UnknownArgument)
        × (text_apart false (texts words.now) ≡ true) }
{
    match error.kind() {
        ErrorKind::UnknownArgument => has_text_apart(words),
        _ => false,
    }
}

/// The words of an argument that may be given often.
fn texts<'a>(alloc: Global, matches: &ArgMatches<'a>, id: &str) -> Result<Vec<&'a str>, AllocError>
    ensures { IfOk result
        (λ found. texts found.items ≡ words_at id.now (rows_of (found_of matches.now))) }
{
    match matches.get_strs(id) {
        Some(values) => values.to_vec(alloc),
        None => Ok(Vec::new(alloc)),
    }
}

/// The word of an argument that must be there.
fn text<'a>(matches: &ArgMatches<'a>, id: &str) -> &'a str
    ensures { result.now ≡ word_at id.now (rows_of (found_of matches.now)) }
{
    match matches.get_str(id) {
        Some(word) => word,
        None => "",
    }
}

/// The number of an option.
fn number(matches: &ArgMatches<'_>, id: &str) -> u64
    ensures { IsNumber (one_of id.now (rows_of (found_of matches.now))) result }
{
    match matches.get_one::<u64>(id) {
        Some(number) => number,
        None => u64::MAX,
    }
}

/// Whether an option without a value is given.
fn flag(matches: &ArgMatches<'_>, id: &str) -> bool
    ensures { IsFlag (one_of id.now (rows_of (found_of matches.now))) result }
{
    matches.get_flag(id)
}

/// What the options keep out.
fn fences(matches: &ArgMatches<'_>) -> FenceOptions
    ensures { IsFences (rows_of (found_of matches.now)) result }
{
    FenceOptions {
        no_files: flag(matches, "no-files"),
        read_only: flag(matches, "read-only"),
        only_operands: flag(matches, "only-operands"),
    }
}

/// How many bytes the options allow.
fn limits_of(matches: &ArgMatches<'_>) -> Limits
    ensures { IsLimits (rows_of (found_of matches.now)) result }
{
    Limits {
        most_input: number(matches, "most-input"),
        most_output: number(matches, "most-output"),
    }
}

/// The name that is to be explained.
fn topic<'a>(matches: &ArgMatches<'a>) -> Option<&'a str>
    ensures { option_map (λ name. name.now) result
        ≡ first_of (codes "name") (rows_of (found_of matches.now)) }
{
    matches.get_str("name")
}

/// What is asked of `run`, `count` and `exec`.
fn task_of<'a>(
    alloc: Global,
    matches: &ArgMatches<'a>,
    subject: &str,
) -> Result<Task<'a>, AllocError>
    ensures { IfOk result (λ task. IsTask subject.now (rows_of (found_of matches.now)) task) }
{
    Ok(Task {
        separators: texts(alloc, matches, "separator")?,
        assigns: texts(alloc, matches, "assign")?,
        steps: number(matches, "steps"),
        tells_where: flag(matches, "where"),
        tells_stats: flag(matches, "stats"),
        fences: fences(matches),
        may_read: texts(alloc, matches, "may-read")?,
        may_write: texts(alloc, matches, "may-write")?,
        limits: limits_of(matches),
        streams: flag(matches, "streams"),
        subject: text(matches, subject),
        words: texts(alloc, matches, "words")?,
    })
}

/// What a line asks for, by its subcommand.
fn request_in<'a>(alloc: Global, matches: &ArgMatches<'a>) -> Result<Request<'a>, AllocError>
    ensures { IfOk result (λ request. IsSomeAnd (subcommand_rows_of matches.now)
        (λ found. Asks found.0 found.1 request)) }
{
    match matches.subcommand() {
        Some(("compile", inner)) => Ok(Request::Compile {
            script_file: text(inner, "scriptfile"),
            out: text(inner, "out"),
            has_lines: flag(inner, "lines"),
        }),
        Some(("check", inner)) => Ok(Request::Check(text(inner, "scriptfile"))),
        Some(("run", inner)) => Ok(Request::Run(task_of(alloc, inner, "script")?)),
        Some(("count", inner)) => Ok(Request::Count(task_of(alloc, inner, "scriptfile")?)),
        Some(("imports", inner)) => Ok(Request::Imports(text(inner, "module"))),
        Some(("explain", inner)) => Ok(Request::Explain(topic(inner))),
        Some((_, inner)) => Ok(Request::Exec(task_of(alloc, inner, "module")?)),
        None => Err(AllocError),
    }
}

/// The request of a command line, whose first word is the program's name. Its words are those of [`spelled_line`].
///
/// # Errors
///
/// Where the words are not taken, for one of the causes that clap's rules give for them, with the text to print (help and the version are such answers); or for
/// want of memory. [`exit_status`] gives the program's status.
pub fn request_of<'a>(alloc: Global, words: &'a [&'a str]) -> Result<Request<'a>, Error>
    ensures asks { IfOk result (λ request. IsSomeAnd (subcommand_of line_app
        (map (λ s. s.now) words.now)) (λ found. Asks found.0 found.1 request)) }
    ensures err { IfErr result (λ e. takes line_app (map (λ s. s.now) words.now) ≡ true
        → kind_of e ≡ ErrorKind.OutOfMemory) }
    ensures faultless { IfOk result
        (λ request. fault_of line_app (map (λ s. s.now) words.now) ≡ []) }
    ensures cause { IfErr result (λ e. kind_of e ≢ ErrorKind.OutOfMemory
        → IsAmong (kind_of e) (fault_of line_app (map (λ s. s.now) words.now))) }
{
    let matches = matches_of_line(alloc, words)?;
    let request = request_in(alloc, &matches)?;
    Ok(request)
}
