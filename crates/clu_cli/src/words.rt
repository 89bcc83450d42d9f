//! The words of a command: what is to be done, the names of files, and the options behind them. No name begins with
//! `-`, so an option of tomorrow is no file of today.

ghost use Rattle.std.specs.Prelude.{◌≡◌, ◌↔◌, ℕ, [], ◌∷◌, List, Option, IsTrue, MatchOption, codes, map, string_bytes};
ghost use Rattle.std.specs.Option.{option_map};
ghost use Rattle.clu_cli.specs.Options.{given_by};
ghost use Rattle.clu_cli.specs.Words.{AllowsBranchings, AreWords, AsksFor, IsCheck, IsCommand, GivesName, IsPlain, IsSolve, Command as Asks, Source as From, asked_by, source_by};

use crate::form::{Form, read_form};
use crate::options::{Options, read_options};
use clu_text::read_u64;

/// How many branchings are allowed where the words don't say it.
const USUAL_BRANCHINGS: u64 = 100_000;

/// What is solved or checked against: the files of a graph and of its rules.
#[derive(Clone, Copy, Debug)]
pub struct Source<'a> {
    /// The name of the graph file.
    pub file: &'a str,
    /// How it is read, and what its partitions are judged by.
    pub form: Form,
    /// The name of the rules file, if there is one.
    pub rules: Option<&'a str>,
}

/// A command and its files.
#[derive(Clone, Copy, Debug)]
pub enum Command<'a> {
    /// Solve a source.
    Solve {
        /// What is solved.
        source: Source<'a>,
        /// Under which name the certificate is stored, if it is.
        certificate: Option<&'a str>,
        /// How many branchings are allowed.
        branchings: u64,
    },
    /// Check a certificate against a source.
    Check {
        /// What it is checked against.
        source: Source<'a>,
        /// The name of the certificate file.
        certificate: &'a str,
    },
}

/// Reads the words of a command; `None` where they are of none.
pub fn read_words(words: &[String]) -> Option<Command<'_>>
    ensures { MatchOption result ((command : Asks) → IsCommand words.now command → ⊥)
        (λ command. IsCommand words.now (asked_by command)) }
{
    let [command, file, rest @ ..] = words else {
        return None;
    };
    match command.as_str() {
        "solve" => read_solve(file.as_str(), rest),
        "check" => read_check(file.as_str(), rest),
        _ => None,
    }
}

/// Whether a word isn't taken for an option.
fn is_plain(word: &str) -> bool
    ensures { IsTrue result ↔ IsPlain word.now }
{
    match word.as_bytes() {
        [b'-', ..] => false,
        _ => true,
    }
}

/// Reads the words behind `solve` and a file.
fn read_solve<'a>(file: &'a str, rest: &'a [String]) -> Option<Command<'a>>
    ensures { MatchOption result
        ((source : From) (name : Option (List ℕ)) (limit : ℕ)
        → IsSolve (codes "solve" ∷ file.now ∷ map string_bytes rest.now) source name limit → ⊥)
        (λ read. AreWords (codes "solve" ∷ file.now ∷ map string_bytes rest.now) (asked_by read)) }
{
    let options = read_options(rest)?;
    let source = read_source(file, options)?;
    let certificate = read_name(options.certificate)?;
    let branchings = read_branchings(options.branchings)?;
    Some(Command::Solve {
        source,
        certificate,
        branchings,
    })
}

/// Reads the words behind `check` and a file.
fn read_check<'a>(file: &'a str, rest: &'a [String]) -> Option<Command<'a>>
    ensures { MatchOption result
        ((source : From) (name : List ℕ)
        → IsCheck (codes "check" ∷ file.now ∷ map string_bytes rest.now) source name → ⊥)
        (λ read. AreWords (codes "check" ∷ file.now ∷ map string_bytes rest.now) (asked_by read)) }
{
    let [certificate, rest @ ..] = rest else {
        return None;
    };
    let certificate = certificate.as_str();
    if !is_plain(certificate) {
        return None;
    }
    let options = read_options(rest)?;
    if options.certificate.is_some() || options.branchings.is_some() {
        return None;
    }
    let source = read_source(file, options)?;
    Some(Command::Check {
        source,
        certificate,
    })
}

/// The source that a file and options give; `None` where the word of the file is no name, or the form
/// or the rules' file that the options ask for are none.
fn read_source<'a>(file: &'a str, options: Options<'a>) -> Option<Source<'a>>
    ensures { MatchOption result ((source : From) → AsksFor file.now (given_by options.entry) source → ⊥)
        (λ source. AsksFor file.now (given_by options.entry) (source_by source)) }
{
    if !is_plain(file) {
        return None;
    }
    let form = read_form(options)?;
    let rules = read_name(options.rules)?;
    Some(Source { file, form, rules })
}

/// The name of a file, if one is given; `None` where the word is no name.
fn read_name(word: Option<&str>) -> Option<Option<&str>>
    ensures { MatchOption result
        ((name : Option (List ℕ)) → GivesName (option_map (λ w. w.now) word.entry) name → ⊥)
        (λ name. GivesName (option_map (λ w. w.now) word.entry) (option_map (λ n. n.now) name)) }
{
    match word {
        Some(word) => {
            if is_plain(word) {
                Some(Some(word))
            } else {
                None
            }
        }
        None => Some(None),
    }
}

/// How many branchings are allowed; `None` where the word is no number.
fn read_branchings(word: Option<&str>) -> Option<u64>
    ensures { MatchOption result ((limit : ℕ) → AllowsBranchings (option_map (λ w. w.now) word.entry) limit → ⊥)
        (λ limit. AllowsBranchings (option_map (λ w. w.now) word.entry) limit) }
{
    match word {
        Some(word) => read_u64(word.as_bytes()),
        None => Some(USUAL_BRANCHINGS),
    }
}
