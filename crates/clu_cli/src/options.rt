//! The options of a command: names and values in turn, in any order, each name at most once. They
//! are read in one walk that leaves a value for each option that was given.

ghost use Rattle.std.specs.Prelude.{◌≡◌, None, Some, if◌then◌else◌, is_some, map, string_bytes};
ghost use Rattle.std.specs.Option.{option_map};
ghost use Rattle.clu_cli.specs.Options.{given_by, given_of, nothing, taken};

/// The values that options were given.
#[derive(Clone, Copy, Debug)]
pub(crate) struct Options<'a> {
    /// Under which name the certificate is stored.
    pub(crate) certificate: Option<&'a str>,
    /// How many branchings are allowed.
    pub(crate) branchings: Option<&'a str>,
    /// The format of the graph file.
    pub(crate) format: Option<&'a str>,
    /// What partitions are judged by.
    pub(crate) objective: Option<&'a str>,
    /// How many decimal places of a weight are kept.
    pub(crate) places: Option<&'a str>,
    /// The name of the rules file.
    pub(crate) rules: Option<&'a str>,
}

/// Reads the words of options; `None` where one is unknown, stands twice or has no value.
pub(crate) fn read_options(words: &[String]) -> Option<Options<'_>>
    ensures { option_map given_by result ≡ given_of (map string_bytes words.now) nothing }
{
    let mut options = Options {
        certificate: None,
        branchings: None,
        format: None,
        objective: None,
        places: None,
        rules: None,
    };
    let mut rest = words;
    while let [option, value, more @ ..] = rest {
        options = with_value(options, option.as_str(), value.as_str())?;
        rest = more;
    }
    if rest.is_empty() { Some(options) } else { None }
}

/// These options and one more, which has no value so far.
fn with_value<'a>(options: Options<'a>, option: &str, value: &'a str) -> Option<Options<'a>>
    ensures { option_map given_by result ≡ taken (given_by options.entry) option.now value.now }
{
    match option {
        "--certificate" => {
            let certificate = once(options.certificate, value)?;
            Some(Options {
                certificate: Some(certificate),
                ..options
            })
        }
        "--branchings" => {
            let branchings = once(options.branchings, value)?;
            Some(Options {
                branchings: Some(branchings),
                ..options
            })
        }
        "--format" => {
            let format = once(options.format, value)?;
            Some(Options {
                format: Some(format),
                ..options
            })
        }
        "--objective" => {
            let objective = once(options.objective, value)?;
            Some(Options {
                objective: Some(objective),
                ..options
            })
        }
        "--places" => {
            let places = once(options.places, value)?;
            Some(Options {
                places: Some(places),
                ..options
            })
        }
        "--rules" => {
            let rules = once(options.rules, value)?;
            Some(Options {
                rules: Some(rules),
                ..options
            })
        }
        _ => None,
    }
}

/// A value where there was none.
fn once<'a>(old: Option<&'a str>, value: &'a str) -> Option<&'a str>
    ensures { result ≡ (if is_some old.entry then None else Some value.entry) }
{
    match old {
        Some(_) => None,
        None => Some(value),
    }
}
