//! The commands `solve` and `check`: cluster editing, correlation clustering and modularity with a proved answer, and
//! with evidence that is checked apart.
//!
//! The program uses this: `run` does what the words ask for over a folder and two sinks, and its contract says what the printed
//! report, the certificate and each exit status mean for the bytes of the files. The headline stands in `specs/Headline.antt`,
//! and what each status says of the files in `specs/Verdicts.antt`.
#![tactic(auto)]

mod answer;
mod checked;
mod commands;
mod form;
mod instance;
mod lines;
mod options;
mod refusal;
mod report;
mod rules;
mod stop;
mod words;

pub use commands::{run, tell};
pub use stop::{NamedPair, Stop};
