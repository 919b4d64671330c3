//! What the words give: the options with their values, and the two file names.

ghost use Rattle.std.specs.Prelude.{◌≡◌, IfOk, IfErr, IsErrOf, map, None, Some, string_bytes, false, [], option_map};
ghost use Rattle.command_words.specs.Words.{given_of};
ghost use Rattle.clap.specs.Words.{app_of, rule_of, with_rule, fault_of, matches_of, rows_of, found_of, kind_of, first_of};
ghost use Rattle.command_words.specs.Views.{said_of};
ghost use Rattle.command_words.specs.Clap.{asked, given_by, is_true as is_true_text, with_both, bare as bare_app, check_rule, file_rule, valued_rule, with_valued_options};

use clap::error::ErrorKind;
use clap::{Arg, ArgAction, ArgMatches, Command, Error};
use std::alloc::{AllocError, Global};

/// What the words give. A value is as it was written.
pub struct Written<'a> {
    /// The name of the top module.
    pub top: Option<&'a str>,
    pub bound: Option<&'a str>,
    pub unwind: Option<&'a str>,
    pub unwindset: Option<&'a str>,
    pub budget: Option<&'a str>,
    pub decide: Option<&'a str>,
    pub check_bound: bool,
    pub c_file: &'a str,
    pub v_file: &'a str,
}

/// Why the words give nothing.
#[derive(Clone, Copy, Debug)]
pub enum WordsEnd {
    /// They aren't of the command's form.
    Usage,
    /// Want of memory.
    Memory,
}

impl From<AllocError> for WordsEnd {
    ghost use Rattle.command_words.specs.declared.reading.WordsEnd.TheVariants as ends;

    ghost from_gives = { λ _ e. e ≡ ends.Memory };

    fn from(_want: AllocError) -> WordsEnd {
        WordsEnd::Memory
    }
}

/// An option that takes one value.
fn valued<'a>(alloc: Global, name: &'a str) -> Arg<'a>
    ensures rule { rule_of result ≡ valued_rule name.entry.now }
    ensures local { result.global ≡ false }
{
    Arg::new(alloc, name).long(name).action(ArgAction::Set)
}

fn file<'a>(alloc: Global, id: &'a str) -> Arg<'a>
    ensures rule { rule_of result ≡ file_rule id.entry.now }
    ensures local { result.global ≡ false }
{
    Arg::new(alloc, id).action(ArgAction::Set)
}

fn check<'a>(alloc: Global) -> Arg<'a>
    ensures rule { rule_of result ≡ check_rule }
    ensures local { result.global ≡ false }
{
    Arg::new(alloc, "check-bound")
        .long("check-bound")
        .action(ArgAction::SetTrue)
}

/// The command without arguments: no first word is its name, and it has no `--help`.
fn bare<'a>(alloc: Global) -> Command<'a>
    ensures app { app_of result ≡ bare_app }
{
    Command::new(alloc, "hwcbmc")
        .no_binary_name(true)
        .disable_help_flag(true)
}

/// The command with one argument more.
fn with<'a>(command: Command<'a>, arg: Arg<'a>) -> Result<Command<'a>, AllocError>
    requires local { arg.global ≡ false }
    ensures app { IfOk result (λ c. app_of c ≡ with_rule (app_of command.entry) (rule_of arg.entry)) }
{
    command.arg(arg)
}

/// The options that take a value.
fn with_valued<'a>(alloc: Global, command: Command<'a>) -> Result<Command<'a>, AllocError>
    ensures app { IfOk result (λ c. app_of c ≡ with_valued_options (app_of command.entry)) }
{
    let command = with(command, valued(alloc, "module"))?;
    let command = with(command, valued(alloc, "bound"))?;
    let command = with(command, valued(alloc, "unwind"))?;
    let command = with(command, valued(alloc, "unwindset"))?;
    let command = with(command, valued(alloc, "budget"))?;
    let command = with(command, valued(alloc, "decide"))?;
    Ok(command)
}

/// The command: seven options, and two files.
fn command<'a>(alloc: Global) -> Result<Command<'a>, AllocError>
    ensures app { IfOk result (λ command. app_of command ≡ asked) }
{
    let command = with_valued(alloc, bare(alloc))?;
    let command = with(command, check(alloc))?;
    let command = with(command, file(alloc, "c-file"))?;
    let command = with(command, file(alloc, "v-file"))?;
    Ok(command)
}

/// What an error of a parse says of the words.
fn end_of(error: &Error) -> WordsEnd
    ensures { result ≡ WordsEnd.Usage → kind_of error.now ≡ ErrorKind.OutOfMemory → ⊥ }
{
    match error.kind() {
        ErrorKind::OutOfMemory => WordsEnd::Memory,
        _ => WordsEnd::Usage,
    }
}

/// The matches of the words, where they are of the command's form but for the number of files.
fn parsed<'a>(alloc: Global, words: &'a [String]) -> Result<ArgMatches<'a>, WordsEnd>
    ensures taken { IfOk result (λ _. fault_of asked (map string_bytes words.entry.now) ≡ []) }
    ensures rows { IfOk result (λ m. rows_of (found_of m) ≡ matches_of asked (map string_bytes words.entry.now)) }
    ensures usage { IfErr result (λ end. end ≡ WordsEnd.Usage → fault_of asked (map string_bytes words.entry.now) ≡ [] → ⊥) }
{
    let command = command(alloc)?;
    match command.try_get_matches_from(words) {
        Ok(matches) => Ok(matches),
        Err(error) => Err(end_of(&error)),
    }
}

/// The value of an option or a file.
fn text<'a>(matches: &ArgMatches<'a>, id: &str) -> Option<&'a str>
    ensures { option_map (λ s. s.now) result ≡ first_of id.now (rows_of (found_of matches.now)) }
{
    matches.get_str(id)
}

fn is_true(text: Option<&str>) -> bool
    ensures { result ≡ is_true_text (option_map (λ s. s.now) text.entry) }
{
    match text {
        Some(text) => text == "true",
        None => false,
    }
}

/// What the matches give beside the two files.
fn with_files<'a>(matches: &ArgMatches<'a>, c_file: &'a str, v_file: &'a str) -> Written<'a>
    ensures { Some (said_of result) ≡ with_both (rows_of (found_of matches.now)) (Some c_file.entry.now) (Some v_file.entry.now) }
{
    Written {
        top: text(matches, "module"),
        bound: text(matches, "bound"),
        unwind: text(matches, "unwind"),
        unwindset: text(matches, "unwindset"),
        budget: text(matches, "budget"),
        decide: text(matches, "decide"),
        check_bound: is_true(text(matches, "check-bound")),
        c_file,
        v_file,
    }
}

/// What the matches give, if there are two files.
fn read<'a>(matches: &ArgMatches<'a>) -> Option<Written<'a>>
    ensures { option_map said_of result ≡ given_by (rows_of (found_of matches.now)) }
{
    let c_file = text(matches, "c-file");
    let v_file = text(matches, "v-file");
    match c_file {
        None => None,
        Some(c_file) => match v_file {
            None => None,
            Some(v_file) => Some(with_files(matches, c_file, v_file)),
        },
    }
}

/// What the words give. The words are those behind the program's name.
pub fn given<'a>(alloc: Global, words: &'a [String]) -> Result<Written<'a>, WordsEnd>
    ensures ok { IfOk result (λ g. given_of (map string_bytes words.entry.now) ≡ Some (said_of g)) }
    ensures usage { IsErrOf result WordsEnd.Usage → given_of (map string_bytes words.entry.now) ≡ None }
{
    match parsed(alloc, words) {
        Ok(matches) => match read(&matches) {
            Some(given) => Ok(given),
            None => Err(WordsEnd::Usage),
        },
        Err(end) => Err(end),
    }
}
