//! The program: a command is read from the words, done over a folder and a sink, and told to `err` where
//! it has no report. Its contract is the headline: what each status, file and printed line means.

ghost use Rattle.std.specs.Prelude.{◌≡◌, ◌≢◌, ◌↔◌, ◌≤◌, ◌⊎◌, IfErr, IfOk, IfSome, IsErrOf, IsTrue, OnOk, Some};
ghost use Rattle.std.specs.Option.{option_map};
ghost use Rattle.clu_outside.specs.Counts.{Rose};
ghost use Rattle.clu_outside.specs.Sink.{TakesSome};
ghost use Rattle.clu_cert.specs.Fits.{Fits};
ghost use Rattle.clu_cli.specs.Forms.{HasFewPlaces};
ghost use Rattle.clu_cli.specs.Headline.{PrintsReport, IsTruncated, after_loads, files_in};
ghost use Rattle.clu_cli.specs.Instances.{Poses, PrintsWorth};
ghost use Rattle.clu_cli.specs.Status.{end_status, is_status, stop_line, WritesLine};
ghost use Rattle.clu_cli.specs.Steps.{ClosesRules, CountsFaults, CountsLoads, CountsWrites, GivesGraphOnly, Keeps, LoadGives, PosesTask, PrintsBytes, StopsRules, StopsSource, TellsLoad, TellsNamed, stop_of};
ghost use Rattle.clu_cli.specs.Verdicts.{DecidesStatus, Ends, GraphStops, Stops, StopsUnmade, StopsUnread, TellsCause, absent, contradicted, refused, too_long, turned_down};
ghost use Rattle.clu_cli.specs.Words.{Command as Asks, IsCommand, Asked, solve as solves, check as checks, source_by};

use crate::answer::answer_of;
use crate::checked::checked;
use crate::instance::{Input, Instance, Task, read_input};
use crate::rules::read_start;
use crate::stop::Stop;
use crate::words::{Command, Source, read_words};
use clu_cert::{Certificate, write_cert};
use clu_outside::{Folder, LoadErr, Sink, WriteErr, store_whole, write_whole};
use clu_partition::Start;
use std::alloc::Global;

/// The largest length of a graph file or of a rules file, in bytes.
const MAX_BYTES: u64 = 67_108_864;

/// The bytes under a name, unless they are longer than the limit.
fn load<F: Folder>(alloc: Global, folder: &mut F, name: &str, limit: u64) -> Result<Vec<u8>, Stop>
    ensures tells { LoadGives (F.told folder.old) name.now limit result }
    ensures after { TellsLoad (stop_of result) name.now (F.told folder.old) (F.told folder.new) }
    ensures loads { CountsLoads (stop_of result) (F.load_faults folder.old) (F.load_faults folder.new) }
    ensures stores { F.store_faults folder.new ≡ F.store_faults folder.old }
{
    match folder.load(alloc, name, limit) {
        Ok(bytes) => Ok(bytes),
        Err(LoadErr::Failed) => Err(Stop::ReadFault),
        Err(LoadErr::Missing) => Err(Stop::NoFile),
        Err(LoadErr::TooLong) => Err(Stop::TooLong),
        Err(LoadErr::Memory) => Err(Stop::Memory),
    }
}

/// Loads and reads the graph file of a source.
fn read_graph<F: Folder>(alloc: Global, folder: &mut F, source: Source<'_>) -> Result<Input, Stop>
    requires few { HasFewPlaces source.form }
    ensures found { IfOk result (λ input. GivesGraphOnly source.entry.file.now source.entry.form (F.told folder.old) input.instance) }
    ensures poses { IfOk result (λ input. Poses input.instance input.problem) }
    ensures prints { IfOk result (λ input. PrintsWorth input.instance input.problem) }
    ensures stops { IfErr result (λ stop. GraphStops (source_by source.entry) (F.told folder.old) stop) }
    ensures after { TellsLoad (stop_of result) source.entry.file.now (F.told folder.old) (F.told folder.new) }
    ensures loads { CountsLoads (stop_of result) (F.load_faults folder.old) (F.load_faults folder.new) }
    ensures stores { F.store_faults folder.new ≡ F.store_faults folder.old }
{
    let bytes = load(alloc, folder, source.file, MAX_BYTES)?;
    match read_input(alloc, &bytes, source.form) {
        Ok(input) => Ok(input),
        Err(stop) => Err(stop),
    }
}

/// Loads, reads and closes the rules of an instance's vertices; where no file is named nothing is
/// required or forbidden.
fn read_rules<F: Folder>(
    alloc: Global,
    folder: &mut F,
    name: Option<&str>,
    instance: &Instance,
) -> Result<Start, Stop>
    ensures closes { IfOk result (λ start. ClosesRules (option_map (λ name. name.now) name.entry)
        (F.told folder.old) instance.now start) }
    ensures stops { IfErr result (λ stop. StopsRules (F.told folder.old)
        (option_map (λ name. name.now) name.entry) instance.now stop) }
    ensures after { TellsNamed (stop_of result) (option_map (λ name. name.now) name.entry)
        (F.told folder.old) (F.told folder.new) }
    ensures loads { CountsLoads (stop_of result) (F.load_faults folder.old) (F.load_faults folder.new) }
    ensures stores { F.store_faults folder.new ≡ F.store_faults folder.old }
{
    let vertices = instance.n();
    let Some(name) = name else {
        let start = Start::none(alloc, vertices)?;
        return Ok(start);
    };
    let bytes = load(alloc, folder, name, MAX_BYTES)?;
    match read_start(alloc, &bytes, instance) {
        Ok(start) => Ok(start),
        Err(stop) => Err(stop),
    }
}

/// Loads and reads the files of a source.
fn read_source<F: Folder>(alloc: Global, folder: &mut F, source: Source<'_>) -> Result<Task, Stop>
    requires few { HasFewPlaces source.form }
    ensures found { IfOk result (λ task. PosesTask (source_by source.entry) (F.told folder.old) task) }
    ensures stops { IfErr result (λ stop. StopsSource (source_by source.entry) (F.told folder.old) (F.told folder.new) stop) }
    ensures loaded { OnOk result (F.told folder.new ≡ after_loads (files_in (source_by source.entry)) (F.told folder.old)) }
    ensures loads { CountsLoads (stop_of result) (F.load_faults folder.old) (F.load_faults folder.new) }
    ensures stores { F.store_faults folder.new ≡ F.store_faults folder.old }
{
    let Input { instance, problem } = read_graph(alloc, folder, source)?;
    let start = read_rules(alloc, folder, source.rules, &instance)?;
    Ok(Task {
        instance,
        problem,
        start,
    })
}

/// Stores a certificate where a name is given.
fn keep<F: Folder>(
    alloc: Global,
    folder: &mut F,
    name: Option<&str>,
    certificate: &Certificate,
) -> Result<(), Stop>
    requires { Fits certificate.now }
    ensures tells { Keeps (option_map (λ name. name.now) name.entry) (F.told folder.old)
        (F.told folder.new) certificate.now result }
    ensures stores { CountsWrites (stop_of result) (F.store_faults folder.old) (F.store_faults folder.new) }
    ensures loads { F.load_faults folder.new ≡ F.load_faults folder.old }
{
    let Some(name) = name else {
        return Ok(());
    };
    let Ok(text) = write_cert(alloc, certificate) else {
        return Err(Stop::Memory);
    };
    match store_whole(folder, name, &text) {
        Ok(()) => Ok(()),
        Err(WriteErr::Failed) => Err(Stop::WriteFault),
        Err(WriteErr::Memory) => Err(Stop::Memory),
    }
}

/// Writes a report.
fn print<O: Sink>(out: &mut O, bytes: &[u8]) -> Result<(), Stop>
    ensures tells { PrintsBytes (O.written out.old) (O.written out.new) bytes.now result }
    ensures writes { CountsWrites (stop_of result) (O.faults out.old) (O.faults out.new) }
{
    match write_whole(out, bytes) {
        Ok(()) => Ok(()),
        Err(WriteErr::Failed) => Err(Stop::WriteFault),
        Err(WriteErr::Memory) => Err(Stop::Memory),
    }
}

/// Solves a source with this many branchings at most, stores the certificate where a name is given, and
/// writes the report; says whether the value is the bound.
fn solve_source<F: Folder, O: Sink>(
    alloc: Global,
    source: Source<'_>,
    certificate: Option<&str>,
    branchings: u64,
    folder: &mut F,
    out: &mut O,
) -> Result<bool, Stop>
    requires few { HasFewPlaces source.form }
    ensures ends { Ends (solves (source_by source.entry) (option_map (λ name. name.now) certificate.entry) branchings)
        (F.told folder.old) (F.told folder.new) (O.written out.old) (O.written out.new) result }
    ensures asked { IsErrOf result Stop.Words → ⊥ }
    ensures faults { CountsFaults (stop_of result) (F.load_faults folder.old) (F.load_faults folder.new)
        (F.store_faults folder.old) (F.store_faults folder.new) (O.faults out.old) (O.faults out.new) }
{
    let task = read_source(alloc, folder, source)?;
    let answer = answer_of(alloc, &task, branchings)?;
    keep(alloc, folder, certificate, &answer.certificate)?;
    print(out, &answer.text)?;
    Ok(answer.optimal)
}

/// Checks a certificate file against a source and writes the report; says whether the certificate is
/// accepted.
fn check_source<F: Folder, O: Sink>(
    alloc: Global,
    source: Source<'_>,
    certificate: &str,
    folder: &mut F,
    out: &mut O,
) -> Result<bool, Stop>
    requires few { HasFewPlaces source.form }
    ensures ends { Ends (checks (source_by source.entry) certificate.now) (F.told folder.old) (F.told folder.new)
        (O.written out.old) (O.written out.new) result }
    ensures asked { IsErrOf result Stop.Words → ⊥ }
    ensures faults { CountsFaults (stop_of result) (F.load_faults folder.old) (F.load_faults folder.new)
        (F.store_faults folder.old) (F.store_faults folder.new) (O.faults out.old) (O.faults out.new) }
{
    let against = read_source(alloc, folder, source)?;
    let bytes = load(alloc, folder, certificate, u64::MAX)?;
    let report = checked(alloc, &against, &bytes)?;
    print(out, &report)?;
    Ok(true)
}

/// Does what the words ask for; says whether the status is 0.
fn work<F: Folder, O: Sink>(
    alloc: Global,
    words: &[String],
    folder: &mut F,
    out: &mut O,
) -> Result<bool, Stop>
    ensures words { IsErrOf result Stop.Words ↔ ((command : Asks) → IsCommand words.now command → ⊥) }
    ensures ends { Asked words.now (λ command. Ends command (F.told folder.old) (F.told folder.new)
        (O.written out.old) (O.written out.new) result) }
    ensures unasked { IsErrOf result Stop.Words → F.told folder.new ≡ F.told folder.old }
    ensures quiet { IsErrOf result Stop.Words → O.written out.new ≡ O.written out.old }
    ensures faults { CountsFaults (stop_of result) (F.load_faults folder.old) (F.load_faults folder.new)
        (F.store_faults folder.old) (F.store_faults folder.new) (O.faults out.old) (O.faults out.new) }
{
    match read_words(words) {
        Some(
            Command::Solve {
                source,
                certificate,
                branchings,
            },
        ) => solve_source(alloc, source, certificate, branchings, folder, out),
        Some(
            Command::Check {
                source,
                certificate,
            },
        ) => check_source(alloc, source, certificate, folder, out),
        None => Err(Stop::Words),
    }
}

/// Writes the line of a stop to `err`; what `err` doesn't take is let go.
pub fn tell<E: Sink>(alloc: Global, err: &mut E, stop: &Stop)
    ensures { TakesSome (E.written err.old) (E.written err.new) (stop_line stop.now) }
{
    if let Ok(line) = stop.line(alloc) {
        let _ = write_whole(err, &line);
    }
}

/// The exit status of how the work ended. Where it stopped, its line is written to `err`.
fn finish<E: Sink>(alloc: Global, err: &mut E, end: Result<bool, Stop>) -> u8
    ensures status { result ≡ end_status end }
    ensures known { IsTrue (is_status result) }
    ensures silent { result ≤ 1 → E.written err.new ≡ E.written err.old }
    ensures line { 2 ≤ result → WritesLine (E.written err.old) (E.written err.new) result }
    ensures told { IfErr end (λ stop.
        TakesSome (E.written err.old) (E.written err.new) (stop_line stop)) }
{
    match end {
        Ok(true) => 0,
        Ok(false) => 1,
        Err(stop) => {
            tell(alloc, err, &stop);
            stop.status()
        }
    }
}

/// Runs the command that the words name, over a folder and two sinks. The answer is the exit
/// status: 0 for an optimal report or an accepted certificate, 1 for a report with a gap, where all
/// allowed branchings were made, and above that the cause why `out` has no whole report, of which
/// `err` gets a line.
pub fn run<F: Folder, O: Sink, E: Sink>(
    alloc: Global,
    words: &[String],
    folder: &mut F,
    out: &mut O,
    err: &mut E,
) -> u8
    // What is printed and stored is what the files give: the blocks, their objective, the bound and the
    // certificate of `solve`, and the accepted certificate of `check`.
    ensures answers { result ≤ 1 → Asked words.now (λ command. PrintsReport command (F.told folder.old)
        (F.told folder.new) (O.written out.old) (O.written out.new) result) }

    // Each other status has its cause, and says which files were loaded and what else was left: no file
    // has changed and `out` has taken nothing, but for what is cut short.
    ensures turned_down { result ≡ 3 → Asked words.now (λ command. Stops turned_down command
        (F.told folder.old) (F.told folder.new) (O.written out.old) (O.written out.new)) }
    ensures refused { result ≡ 4 → Asked words.now (λ command. Stops refused command
        (F.told folder.old) (F.told folder.new) (O.written out.old) (O.written out.new)) }
    ensures contradicted { result ≡ 5 → Asked words.now (λ command. Stops contradicted command
        (F.told folder.old) (F.told folder.new) (O.written out.old) (O.written out.new)) }
    ensures unread { result ≡ 7 → Asked words.now (λ command. StopsUnread command
        (F.told folder.old) (F.told folder.new) (O.written out.old) (O.written out.new)) }
    ensures cut_short { result ≡ 8 → Asked words.now (λ command. IsTruncated command
        (F.told folder.old) (F.told folder.new) (O.written out.old) (O.written out.new)) }
    ensures memory { result ≡ 9 → Asked words.now (λ command. StopsUnmade command
        (F.told folder.old) (F.told folder.new) (O.written out.old) (O.written out.new)) }
    ensures too_long { result ≡ 10 → Asked words.now (λ command. Stops too_long command
        (F.told folder.old) (F.told folder.new) (O.written out.old) (O.written out.new)) }
    ensures absent { result ≡ 11 → Asked words.now (λ command. Stops absent command
        (F.told folder.old) (F.told folder.new) (O.written out.old) (O.written out.new)) }
    ensures words { (result ≡ 6) ↔ ((command : Asks) → IsCommand words.now command → ⊥) }
    ensures unasked { result ≡ 6 → F.told folder.new ≡ F.told folder.old }
    ensures unprinted { result ≡ 6 → O.written out.new ≡ O.written out.old }
    ensures known { IsTrue (is_status result) }
    ensures decided { IfSome (F.told folder.old) (λ told.
        Asked words.now (λ command. DecidesStatus command (Some told) result)) }

    // The faults that are counted.
    ensures read_fault { result ≡ 7 → Rose (F.load_faults folder.old) (F.load_faults folder.new) }
    ensures no_read_fault { result ≢ 7 → F.load_faults folder.new ≡ F.load_faults folder.old }
    ensures write_fault { result ≡ 8 → Rose (F.store_faults folder.old) (F.store_faults folder.new)
        ⊎ Rose (O.faults out.old) (O.faults out.new) }
    ensures no_store_fault { result ≢ 8 → F.store_faults folder.new ≡ F.store_faults folder.old }
    ensures no_write_fault { result ≢ 8 → O.faults out.new ≡ O.faults out.old }

    // What `err` is told: nothing of a report, else the line of the cause; of a certificate that is turned
    // down the line of what was found, of a refused file that of its first refusal, and of rules that
    // contradict the least pair that shows it.
    ensures silent { result ≤ 1 → E.written err.new ≡ E.written err.old }
    ensures line { 2 ≤ result → WritesLine (E.written err.old) (E.written err.new) result }
    ensures found { result ≡ 3 → Asked words.now (λ command. TellsCause command
        (F.told folder.old) (E.written err.old) (E.written err.new) result) }
    ensures refusal { result ≡ 4 → Asked words.now (λ command. TellsCause command
        (F.told folder.old) (E.written err.old) (E.written err.new) result) }
    ensures contradiction { result ≡ 5 → Asked words.now (λ command. TellsCause command
        (F.told folder.old) (E.written err.old) (E.written err.new) result) }
{
    let end = work(alloc, words, folder, out);
    finish(alloc, err, end)
}
