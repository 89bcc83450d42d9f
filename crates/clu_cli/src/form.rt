//! How a graph file is read and what its partitions are judged by: the format decides the usual
//! objective and the objective the format, and they must go together.

ghost use Rattle.std.specs.Prelude.{◌≡◌, ℕ, Option, MatchOption};
ghost use Rattle.std.specs.Option.{option_map};
ghost use Rattle.clu_cli.specs.Forms.{IsForm, GivesDecimals, format_named, go_together as together, objective_named, asked_objective, usual};
ghost use Rattle.clu_cli.specs.Options.{given_by};

use crate::options::Options;
use clu_objective::Objective;
use clu_text::read_u64;

/// The largest number of decimal places that may be kept.
const MAX_PLACES: u64 = 9;

/// How a graph file is read, and what its partitions are judged by.
#[derive(Clone, Copy, Debug, PartialEq, Eq)]
pub enum Form {
    /// A graph of the PACE challenge, judged by edits.
    Edits,
    /// An edge list, judged by agreement. Only so many decimal places of a weight are kept, where a
    /// number is given.
    Agreement(Option<u8>),
    /// An edge list, judged by modularity, with decimal places likewise.
    Modularity(Option<u8>),
}

/// The format of a graph file.
#[derive(Clone, Copy, Debug, PartialEq, Eq)]
pub(crate) enum Format {
    /// A graph of the PACE challenge.
    Pace,
    /// An edge list.
    Edges,
}

/// The form that options ask for; `None` where a word is none of theirs, format and objective don't
/// go together, or decimal places are given for a graph.
pub(crate) fn read_form(options: Options<'_>) -> Option<Form>
    ensures { MatchOption result ((form : Form) → IsForm (given_by options.entry) form → ⊥)
        (λ form. IsForm (given_by options.entry) form) }
{
    match read_objective(options.format, options.objective)? {
        Objective::Edits => {
            if options.places.is_some() {
                return None;
            }
            Some(Form::Edits)
        }
        Objective::Agreement => Some(Form::Agreement(read_places(options.places)?)),
        Objective::Modularity => Some(Form::Modularity(read_places(options.places)?)),
    }
}

/// What a word of an objective stands for.
fn named_objective(word: &str) -> Option<Objective>
    ensures { result ≡ objective_named word.now }
{
    match word {
        "edits" => Some(Objective::Edits),
        "agreement" => Some(Objective::Agreement),
        "modularity" => Some(Objective::Modularity),
        _ => None,
    }
}

/// What a word of a format stands for.
fn named_format(word: &str) -> Option<Format>
    ensures { result ≡ format_named word.now }
{
    match word {
        "pace" => Some(Format::Pace),
        "edges" => Some(Format::Edges),
        _ => None,
    }
}

/// The objective where no word names it.
fn usual_objective(format: Format) -> Objective
    ensures { result ≡ usual format }
{
    match format {
        Format::Pace => Objective::Edits,
        Format::Edges => Objective::Modularity,
    }
}

/// Whether files of a format are judged by an objective.
fn go_together(format: Format, objective: Objective) -> bool
    ensures { result ≡ together format objective }
{
    match (format, objective) {
        (Format::Pace, Objective::Edits)
        | (Format::Edges, Objective::Agreement | Objective::Modularity) => true,
        _ => false,
    }
}

/// The objective that the words of format and objective give.
fn read_objective(format: Option<&str>, objective: Option<&str>) -> Option<Objective>
    ensures { result ≡ asked_objective (option_map (λ w. w.now) format.entry) (option_map (λ w. w.now) objective.entry) }
{
    match (format, objective) {
        (None, None) => Some(Objective::Edits),
        (Some(format), None) => Some(usual_objective(named_format(format)?)),
        (None, Some(objective)) => named_objective(objective),
        (Some(format), Some(objective)) => {
            let format = named_format(format)?;
            let objective = named_objective(objective)?;
            if go_together(format, objective) {
                Some(objective)
            } else {
                None
            }
        }
    }
}

/// The number of decimal places to keep, if one is given; `None` where the word is no such number.
fn read_places(word: Option<&str>) -> Option<Option<u8>>
    ensures { MatchOption result ((places : Option ℕ) → GivesDecimals (option_map (λ w. w.now) word.entry) places → ⊥)
        (λ places. GivesDecimals (option_map (λ w. w.now) word.entry) places) }
{
    let Some(word) = word else {
        return Some(None);
    };
    let places = read_u64(word.as_bytes())?;
    if places > MAX_PLACES {
        return None;
    }
    Some(Some(places as u8))
}
