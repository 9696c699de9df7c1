//! `distinct` estimates how many distinct lines its input has, keeps what it has seen of them as a
//! small sketch, and combines sketches. A line's key is its bytes without the LF that ends it, or one
//! of its fields.
#![tactic(auto)]

ghost use Rattle.std.specs.Prelude.{◌≢◌, IfErr};
ghost use Rattle.sketch_base.specs.Seed.{seed_hash};
ghost use Rattle.distinct_arguments.specs.Faults.{request_action};
ghost use Rattle.distinct_commands.specs.Operands.{SuitsAction};
ghost use Rattle.distinct_inputs.specs.Failures.{IsOfDir};

mod console;
mod hints;
mod output;
#[cfg(test)]
mod tests;

use crate::console::StderrConsole;
use crate::hints::Hint;
use distinct_arguments::{
    Command, Fault, Front, Options, Request, Seed, check_output, front_of, options_first,
    read_arguments, reads_texts, word_of,
};
use distinct_commands::{Operands, group_files, only_expression, perform};
use distinct_inputs::{Files, Inputs, choice_of, files_in_list, record_form, seed_of};
use distinct_messages::{Failure, passed_status};
use keys_lines::Key;
use sketch_base::DEFAULT_UPDATE_SEED;
use std::env;
use std::env::Env;
use std::io::IsTerminal;
use std::process::ExitCode;

fn main(rt: HostRuntime) -> ExitCode {
    match run(&rt) {
        Ok(passed) => {
            let words = words_of(&rt);
            for failure in passed.as_slice() {
                report(&rt, words.as_slice(), failure);
            }
            ExitCode::from(passed_status(passed.as_slice()))
        }
        Err(failure) => {
            let words = words_of(&rt);
            if !failure.is_closed_output() {
                report(&rt, words.as_slice(), &failure);
            }
            ExitCode::from(failure.status())
        }
    }
}

/// Prints the message of a failure of these arguments, and what to do about it.
fn report(rt: &HostRuntime, words: &[String], failure: &Failure) {
    let hint = Hint {
        failure,
        words: words_behind_dirs(words),
    };
    let _ = eprintln!(rt; "distinct: {failure}{hint}");
}

/// The program's arguments; none if one is not text, or if memory is refused.
fn words_of(rt: &HostRuntime) -> Vec<String> {
    let Ok(args) = env::args(rt) else {
        return Vec::new(rt.alloc());
    };
    match args.skip(1).collect(rt.alloc()) {
        Ok(words) => words,
        Err(_) => Vec::new(rt.alloc()),
    }
}

/// The words from the command on: those behind each `-C` in front.
fn words_behind_dirs(words: &[String]) -> &[String] {
    let mut rest = words;
    for _ in words {
        match front_of(rest) {
            Front::Dir(_, others) => rest = others,
            _ => break,
        }
    }
    rest
}

/// The most bytes of an argument that a message prints.
const LONGEST_NAME: usize = 4096;

/// The failure for the first argument that is not UTF-8 text.
fn text_failure(rt: &HostRuntime) -> Failure {
    let mut bytes = [0u8; LONGEST_NAME];
    for number in 1..u32::MAX as usize {
        let Ok(length) = rt.arg(number, &mut bytes) else {
            break;
        };
        let argument = &bytes[..length];
        if str::from_utf8(argument).is_err() {
            return match format!(in rt.alloc(); "{}", argument.escape_ascii()) {
                Ok(text) => Failure::NotText(number as u64, text),
                Err(_) => Failure::Memory,
            };
        }
    }
    Failure::Memory
}

/// Enters a folder: names of files are then relative to it.
fn enter(rt: &HostRuntime, dir: &str) -> Result<(), Failure>
    ensures failed { IfErr result (IsOfDir dir.now) }
{
    match env::set_current_dir(rt, dir) {
        Ok(()) => Ok(()),
        Err(error) => match String::from_str(rt.alloc(), dir) {
            Ok(name) => Err(Failure::NoDir(name, error)),
            Err(_) => Err(Failure::Memory),
        },
    }
}

/// Enters the folder of each `-C` in front of the command, one after another, and then that among the options.
fn enter_dirs(rt: &HostRuntime, words: &[String], options: &Options<'_>) -> Result<(), Failure> {
    let mut rest = words;
    for _ in words {
        let Front::Dir(dir, others) = front_of(rest) else {
            break;
        };
        enter(rt, dir)?;
        rest = others;
    }
    match options.dir {
        Some(dir) => enter(rt, dir),
        None => Ok(()),
    }
}

/// Does what the arguments say. It returns the failures of the files that were passed over.
fn run(rt: &HostRuntime) -> Result<Vec<Failure>, Failure> {
    let Ok(args) = env::args(rt) else {
        return Err(text_failure(rt));
    };
    let given: Vec<String> = args.skip(1).collect(rt.alloc())?;
    let words = options_first(rt.alloc(), given.as_slice())?;
    let request = read_arguments(words.as_slice())?;
    match request {
        Request::Print(_) => run_request(rt, request, DEFAULT_UPDATE_SEED, Operands::Files(&[])),
        Request::Run(Command::Eval, options, expression) => {
            run_eval(rt, options, words.as_slice(), expression)
        }
        Request::Run(command, options, files) => {
            check_terminal(rt, command, &options)?;
            enter_dirs(rt, words.as_slice(), &options)?;
            let seed = seed_of(rt, &options)?;
            match options.list {
                Some(list) => {
                    let names = files_in_list(rt, list)?;
                    run_request(rt, request, seed, Operands::Files(names.as_slice()))
                }
                None => run_request(rt, request, seed, Operands::Files(files)),
            }
        }
    }
}

/// Evaluates the expression that is the only file word, over the files that it names. `words` are all arguments. The
/// expression is read once, before any folder is entered and any file is opened.
fn run_eval(
    rt: &HostRuntime,
    options: Options<'_>,
    words: &[String],
    files: &[String],
) -> Result<Vec<Failure>, Failure> {
    let expression = only_expression(rt.alloc(), files)?;
    if options.seed == Seed::File("-") && has_standard(expression.names.as_slice()) {
        return Err(Failure::Arguments(Fault::StandardTwice));
    }
    enter_dirs(rt, words, &options)?;
    let seed = seed_of(rt, &options)?;
    let request = Request::Run(Command::Eval, options, files);
    run_request(rt, request, seed, Operands::Expression(&expression))
}

/// Whether a name means standard input.
fn has_standard(names: &[String]) -> bool {
    for name in names {
        if name.as_str() == "-" {
            return true;
        }
    }
    false
}

/// Writes the sketch of each group of the lines of files of these names, or of standard input, to a file in a folder.
fn run_folder<'a>(
    rt: &'a HostRuntime,
    options: &Options<'a>,
    seed: u64,
    by: Key,
    folder: &str,
    files: &'a [String],
) -> Result<(), Failure>
    requires seeded { seed_hash seed ≢ 0 }
{
    let sources = files_of(rt, Command::Sketch, options, files);
    let mut console = StderrConsole::new(rt, options.progress, options.quiet);
    let inputs = Inputs::new(sources, files);
    let made = group_files(rt.alloc(), options, seed, by, inputs, &mut console)?;
    output::put_files(rt, folder, made.as_slice())
}

/// The files of these names that a command reads, or standard input if it reads lines and has none.
fn files_of<'a>(
    rt: &'a HostRuntime,
    command: Command,
    options: &Options<'a>,
    names: &'a [String],
) -> Files<'a> {
    let has_lines = reads_texts(command, options);
    let or_standard = has_lines && command != Command::Eval && options.list.is_none();
    let reader = if has_lines && !options.quiet {
        Some(word_of(command))
    } else {
        None
    };
    Files::named(rt, names, or_standard)
        .watched(reader, options.quiet)
        .in_part(options.part)
        .in_records(record_form(options))
        .choosing(choice_of(options))
}

/// Fails if the bytes of an image would go to a terminal.
fn check_terminal(
    rt: &HostRuntime,
    command: Command,
    options: &Options<'_>,
) -> Result<(), Failure> {
    let prints_counts = command == Command::Count || command == Command::Show;
    let prints_sums = command == Command::Visits || command == Command::Sum;
    let compares = command == Command::Similarity || command == Command::Matrix;
    let writes_image = !prints_counts && !prints_sums && !compares;
    let is_printed = options.output.is_none() && options.folder.is_none();
    if writes_image && !options.hex && is_printed && rt.stdout().is_terminal() {
        Err(Failure::Terminal)
    } else {
        Ok(())
    }
}

/// Does what a request says, under this seed, on what it is given, of which it opens the files. The answer goes to
/// standard output, or to the file that `--output` names, which is created once the whole answer is made.
fn run_request<'a>(
    rt: &'a HostRuntime,
    request: Request<'a>,
    seed: u64,
    operands: Operands<'a>,
) -> Result<Vec<Failure>, Failure>
    requires seeded { seed_hash seed ≢ 0 }
    requires suits { SuitsAction (request_action request) operands }
{
    let opened = operands.names();
    if let Request::Run(command, options, _) = request {
        check_output(rt.alloc(), command, &options, opened)?;
    }
    if let Request::Run(Command::Sketch, options, _) = request {
        if let (Some(folder), Some(by)) = (options.folder, options.group()) {
            run_folder(rt, &options, seed, by, folder, opened)?;
            return Ok(Vec::new(rt.alloc()));
        }
    }
    let alloc = rt.alloc();
    let (sources, progress, quiet, output) = match request {
        Request::Print(_) => (Files::named(rt, opened, false), false, false, None),
        Request::Run(command, options, _) => {
            let sources = files_of(rt, command, &options, opened);
            (sources, options.progress, options.quiet, options.output)
        }
    };
    let mut console = StderrConsole::new(rt, progress, quiet);
    let watched = &mut console;
    match output {
        None => {
            let mut out = rt.stdout();
            perform(alloc, request, seed, operands, sources, watched, &mut out)
        }
        Some(name) => {
            let mut bytes = Vec::new(alloc);
            let passed = perform(alloc, request, seed, operands, sources, watched, &mut bytes)?;
            output::put_file(rt, name, bytes.as_slice())?;
            Ok(passed)
        }
    }
}
