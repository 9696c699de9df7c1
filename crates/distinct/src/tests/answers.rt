//! Tests of what the program writes by its arguments, of texts in memory.
ghost use Rattle.std.specs.Prelude.{◌≡◌, ◌≢◌, ℕ, false, List, [], Some, IfOk};
ghost use Rattle.sketch_base.specs.Seed.{seed_hash};
ghost use Rattle.theta_sketches.specs.Image.{written};
ghost use Rattle.distinct_arguments.specs.Arguments.{action_of};
ghost use Rattle.distinct_arguments.specs.declared.commands.Operator.TheVariants.{Union, Meet, Minus};
ghost use Rattle.distinct_arguments.specs.Faults.{options_of, request_action};
ghost use Rattle.distinct_arguments.specs.Settings.{chosen_group};
ghost use Rattle.distinct_inputs.specs.Failures.{chosen_amount};
ghost use Rattle.distinct_inputs.specs.Lists.{names_of, texts_of};
ghost use Rattle.distinct_commands.specs.Answers.{sketch_of, IsShowText};
ghost use Rattle.distinct_commands.specs.Answers.{IsCountText, IsSketchText, IsCommandAnswer, IsCombinedText};
ghost use Rattle.distinct_commands.specs.Answers.{Performs};
ghost use Rattle.distinct_commands.specs.Eval.{IsEvaluatedOf};
ghost use Rattle.distinct_commands.specs.Operands.{words_for, words_in, Suits, SuitsAction};
ghost use Rattle.distinct_commands.specs.Similarity.{IsComparedOf};
ghost use Rattle.distinct_commands.specs.Matrix.{IsMatrixOf};
ghost use Rattle.distinct_commands.specs.SumGroups.{IsSumText};
ghost use Rattle.distinct_commands.specs.Visits.{IsVisitsText};

use crate::tests::words_of;
use distinct_arguments::{Command, Operator, Options, Request, Seed, read_arguments};
use distinct_commands::{Operands, answer, only_expression, perform};
use distinct_messages::{Console, Failure, Remark};
use keys_groups::GroupWatch;
use keys_sketches::{Texts, Watch, hex_line, read_hex};
use keys_sums::SumWatch;
use sketch_base::{ErrorKind as SketchError, compute_seed_hash};
use std::alloc::{AllocError, Allocator, Global};
use std::test::Fail;
use theta_sketches::ThetaSketch;

/// Ignores progress and remarks.
#[derive(Drop)]
struct Quiet {}

impl Watch for Quiet {
    fn on_read<A: Allocator>(&mut self, _bytes: usize, _lines: u64, _sketch: &ThetaSketch<A>) {}
}

impl GroupWatch for Quiet {
    fn on_line(&mut self, _bytes: usize, _groups: usize) {}
}

impl SumWatch for Quiet {
    fn on_lines(&mut self, _bytes: usize, _lines: u64) {}
}

impl Console for Quiet {
    fn remark(&mut self, _remark: Remark<'_>) {}
}

/// What a command writes under a seed of texts in memory, as the files of what it is given, and the failures
/// of those that it passes over.
fn answered(
    alloc: Global,
    command: Command,
    options: &Options<'_>,
    seed: u64,
    operands: Operands<'_>,
    texts: &[Vec<u8>],
) -> Result<(Vec<u8>, Vec<Failure>), Failure>
    requires seeded { seed_hash seed ≢ 0 }
    requires suits { Suits command operands }
    ensures written { IfOk result (λ v.
        IsCommandAnswer command (options_of options.now) seed (words_in operands.entry) (texts_of texts.now)
        v.0.items v.1.items) }
{
    let mut bytes = Vec::new(alloc);
    let mut console = Quiet {};
    let passed = answer(
        alloc,
        command,
        options,
        seed,
        operands,
        Texts::new(texts),
        &mut console,
        &mut bytes,
    )?;
    Ok((bytes, passed))
}

/// What `count` writes of texts, or of groups of images.
fn count_of(
    alloc: Global,
    options: &Options<'_>,
    seed: u64,
    names: &[String],
    texts: &[Vec<u8>],
) -> Result<Vec<u8>, Failure>
    requires seeded { seed_hash seed ≢ 0 }
    ensures counted { IfOk result (λ v.
        IsCountText options.now.groups (options_of options.now) seed (names_of names.now) (texts_of texts.now) v.items) }
{
    let written = answered(
        alloc,
        Command::Count,
        options,
        seed,
        Operands::Files(names),
        texts,
    )?;
    Ok(written.0)
}

/// What `sketch` writes of texts.
fn sketch_of(
    alloc: Global,
    options: &Options<'_>,
    seed: u64,
    names: &[String],
    texts: &[Vec<u8>],
) -> Result<Vec<u8>, Failure>
    requires seeded { seed_hash seed ≢ 0 }
    ensures sketched { IfOk result (λ v.
        IsSketchText (chosen_amount (options_of options.now)) (chosen_group (options_of options.now))
        (options_of options.now) seed (texts_of texts.now) v.items) }
{
    let written = answered(
        alloc,
        Command::Sketch,
        options,
        seed,
        Operands::Files(names),
        texts,
    )?;
    Ok(written.0)
}

/// What `union` writes of files of images, by groups or not.
fn union_of(
    alloc: Global,
    options: &Options<'_>,
    seed: u64,
    names: &[String],
    texts: &[Vec<u8>],
) -> Result<Vec<u8>, Failure>
    requires seeded { seed_hash seed ≢ 0 }
    ensures united { IfOk result (λ v.
        IsCombinedText options.now.groups Union (options_of options.now) seed (texts_of texts.now) v.items) }
{
    let union = Command::Combine(Operator::Union);
    let written = answered(alloc, union, options, seed, Operands::Files(names), texts)?;
    Ok(written.0)
}

/// What `meet` writes of files of images, by groups or not.
fn meet_of(
    alloc: Global,
    options: &Options<'_>,
    seed: u64,
    names: &[String],
    texts: &[Vec<u8>],
) -> Result<Vec<u8>, Failure>
    requires seeded { seed_hash seed ≢ 0 }
    ensures met { IfOk result (λ v.
        IsCombinedText options.now.groups Meet (options_of options.now) seed (texts_of texts.now) v.items) }
{
    let meet = Command::Combine(Operator::Meet);
    let written = answered(alloc, meet, options, seed, Operands::Files(names), texts)?;
    Ok(written.0)
}

/// What `minus` writes of files of two images, by groups or not.
fn minus_of(
    alloc: Global,
    options: &Options<'_>,
    seed: u64,
    names: &[String],
    texts: &[Vec<u8>],
) -> Result<Vec<u8>, Failure>
    requires seeded { seed_hash seed ≢ 0 }
    ensures difference { IfOk result (λ v.
        IsCombinedText options.now.groups Minus (options_of options.now) seed (texts_of texts.now) v.items) }
{
    let minus = Command::Combine(Operator::Minus);
    let written = answered(alloc, minus, options, seed, Operands::Files(names), texts)?;
    Ok(written.0)
}

/// What `show` writes of files of images, by groups or not, and the failures of those that it passes over.
fn show_of(
    alloc: Global,
    options: &Options<'_>,
    seed: u64,
    names: &[String],
    texts: &[Vec<u8>],
) -> Result<(Vec<u8>, Vec<Failure>), Failure>
    requires seeded { seed_hash seed ≢ 0 }
    ensures shown { IfOk result (λ v.
        IsShowText options.now.groups (options_of options.now) seed (names_of names.now) (texts_of texts.now)
        v.0.items v.1.items) }
{
    answered(
        alloc,
        Command::Show,
        options,
        seed,
        Operands::Files(names),
        texts,
    )
}

/// What `eval` writes of files.
fn eval_of(
    alloc: Global,
    options: &Options<'_>,
    seed: u64,
    names: &[String],
    texts: &[Vec<u8>],
) -> Result<Vec<u8>, Failure>
    requires seeded { seed_hash seed ≢ 0 }
    ensures evaluated { IfOk result (λ v.
        IsEvaluatedOf (options_of options.now) seed (names_of names.now) (texts_of texts.now) v.items) }
{
    let expression = only_expression(alloc, names)?;
    let operands = Operands::Expression(&expression);
    let written = answered(alloc, Command::Eval, options, seed, operands, texts)?;
    Ok(written.0)
}

/// What `visits` writes of texts, or of files of images of sums.
fn visits_of(
    alloc: Global,
    options: &Options<'_>,
    seed: u64,
    names: &[String],
    texts: &[Vec<u8>],
) -> Result<Vec<u8>, Failure>
    requires seeded { seed_hash seed ≢ 0 }
    ensures visited { IfOk result (λ v.
        IsVisitsText options.now.sums (options_of options.now) seed (texts_of texts.now) v.items) }
{
    let written = answered(
        alloc,
        Command::Visits,
        options,
        seed,
        Operands::Files(names),
        texts,
    )?;
    Ok(written.0)
}

/// What `sum` writes of texts.
fn sum_of(
    alloc: Global,
    options: &Options<'_>,
    seed: u64,
    names: &[String],
    texts: &[Vec<u8>],
) -> Result<Vec<u8>, Failure>
    requires seeded { seed_hash seed ≢ 0 }
    ensures summed { IfOk result (λ v.
        IsSumText (chosen_group (options_of options.now)) (options_of options.now) seed (texts_of texts.now)
        v.items) }
{
    let written = answered(
        alloc,
        Command::Sum,
        options,
        seed,
        Operands::Files(names),
        texts,
    )?;
    Ok(written.0)
}

/// What `similarity` writes of files of two images.
fn similarity_of(
    alloc: Global,
    options: &Options<'_>,
    seed: u64,
    names: &[String],
    texts: &[Vec<u8>],
) -> Result<Vec<u8>, Failure>
    requires seeded { seed_hash seed ≢ 0 }
    ensures compared { IfOk result (λ v. IsComparedOf (options_of options.now) seed (texts_of texts.now) v.items) }
{
    let similarity = Command::Similarity;
    let written = answered(
        alloc,
        similarity,
        options,
        seed,
        Operands::Files(names),
        texts,
    )?;
    Ok(written.0)
}

/// What `matrix` writes of files of images.
fn matrix_of(
    alloc: Global,
    options: &Options<'_>,
    seed: u64,
    names: &[String],
    texts: &[Vec<u8>],
) -> Result<Vec<u8>, Failure>
    requires seeded { seed_hash seed ≢ 0 }
    ensures compared { IfOk result (λ v.
        IsMatrixOf (options_of options.now) seed (names_of names.now) (texts_of texts.now) v.items) }
{
    let written = answered(
        alloc,
        Command::Matrix,
        options,
        seed,
        Operands::Files(names),
        texts,
    )?;
    Ok(written.0)
}

/// What a command writes, by its helper.
fn written_by(
    alloc: Global,
    command: Command,
    options: &Options<'_>,
    seed: u64,
    names: &[String],
    texts: &[Vec<u8>],
) -> Result<Vec<u8>, Failure>
    requires seeded { seed_hash seed ≢ 0 }
{
    match command {
        Command::Count => count_of(alloc, options, seed, names, texts),
        Command::Sketch => sketch_of(alloc, options, seed, names, texts),
        Command::Combine(Operator::Union) => union_of(alloc, options, seed, names, texts),
        Command::Combine(Operator::Meet) => meet_of(alloc, options, seed, names, texts),
        Command::Combine(Operator::Minus) => minus_of(alloc, options, seed, names, texts),
        Command::Show => Ok(show_of(alloc, options, seed, names, texts)?.0),
        Command::Eval => eval_of(alloc, options, seed, names, texts),
        Command::Visits => visits_of(alloc, options, seed, names, texts),
        Command::Sum => sum_of(alloc, options, seed, names, texts),
        Command::Similarity => similarity_of(alloc, options, seed, names, texts),
        Command::Matrix => matrix_of(alloc, options, seed, names, texts),
    }
}

/// The same, if the seed can be one.
fn written_by_seed(
    alloc: Global,
    command: Command,
    options: &Options<'_>,
    seed: u64,
    names: &[String],
    texts: &[Vec<u8>],
) -> Result<Vec<u8>, Failure> {
    match compute_seed_hash(seed, SketchError::InvalidArgument) {
        Ok(_) => written_by(alloc, command, options, seed, names, texts),
        Err(_) => Err(Failure::NoFiles),
    }
}

/// What a request writes of texts in memory under a seed, as the files of what it is given.
fn request_written(
    alloc: Global,
    request: Request<'_>,
    seed: u64,
    operands: Operands<'_>,
    texts: &[Vec<u8>],
) -> Result<(Vec<u8>, Vec<Failure>), Failure>
    requires seeded { seed_hash seed ≢ 0 }
    requires suits { SuitsAction (request_action request) operands }
    ensures { IfOk result (λ v.
        Performs (request_action request.entry) seed (words_in operands.entry) (texts_of texts.now) v.1.items
        (Some []) (Some v.0.items)) }
{
    let mut bytes = Vec::new(alloc);
    let mut console = Quiet {};
    let passed = perform(
        alloc,
        request,
        seed,
        operands,
        Texts::new(texts),
        &mut console,
        &mut bytes,
    )?;
    Ok((bytes, passed))
}

/// What the program writes by these arguments of texts in memory, as the files that they name, under a seed.
fn performed(
    alloc: Global,
    words: &[String],
    seed: u64,
    texts: &[Vec<u8>],
) -> Result<(Vec<u8>, Vec<Failure>), Failure>
    requires seeded { seed_hash seed ≢ 0 }
    ensures { IfOk result (λ v.
        Performs (action_of (names_of words.now)) seed (words_for (action_of (names_of words.now))) (texts_of texts.now)
        v.1.items (Some []) (Some v.0.items)) }
{
    let request = read_arguments(words)?;
    match request {
        Request::Print(_) => request_written(alloc, request, seed, Operands::Files(&[]), texts),
        Request::Run(Command::Eval, options, names) => {
            let expression = only_expression(alloc, names)?;
            let eval = Request::Run(Command::Eval, options, names);
            request_written(alloc, eval, seed, Operands::Expression(&expression), texts)
        }
        Request::Run(_, _, names) => {
            request_written(alloc, request, seed, Operands::Files(names), texts)
        }
    }
}

/// Two texts, or the bytes that they spell in hexadecimal digits.
fn two_texts(alloc: Global, spelled: bool, texts: [&str; 2]) -> Result<Vec<Vec<u8>>, AllocError> {
    let mut files = Vec::new(alloc);
    for text in texts {
        let bytes = text.as_bytes();
        if spelled {
            if let Some(image) = read_hex(alloc, bytes)? {
                files.push(image)?;
            }
        } else {
            files.push(Vec::from_clones(alloc, bytes)?)?;
        }
    }
    Ok(files)
}

/// Bytes, or the line of hexadecimal digits of an image.
fn in_digits(alloc: Global, is_image: bool, bytes: Vec<u8>) -> Result<Vec<u8>, AllocError> {
    if is_image {
        hex_line(alloc, bytes.as_slice())
    } else {
        Ok(bytes)
    }
}

/// The number of a seed that was given as one.
fn number_of(seed: Seed<'_>) -> u64 {
    match seed {
        Seed::Number(number) => number,
        Seed::File(_) => 0,
    }
}

/// What the program writes by these arguments of two files: by `perform`, and by the helper of its command. Files are
/// spelled in hexadecimal if the command reads images without `--hex`.
fn both_written(
    alloc: Global,
    arguments: &[&str],
    texts: [&str; 2],
) -> Result<(Vec<u8>, Vec<u8>), Failure> {
    let words = words_of(alloc, arguments)?;
    let Request::Run(command, options, names) = read_arguments(words.as_slice())? else {
        return Err(Failure::NoFiles);
    };
    let seed = number_of(options.seed);
    if compute_seed_hash(seed, SketchError::InvalidArgument).is_err() {
        return Err(Failure::NoFiles);
    }
    let is_sums = command == Command::Visits || command == Command::Sum;
    let compares = command == Command::Similarity || command == Command::Matrix;
    let has_lines = command == Command::Count || command == Command::Sketch || is_sums;
    let reads_lines = options.keys || has_lines && !options.sums;
    let prints = command == Command::Count || command == Command::Show || command == Command::Eval;
    let is_image = !options.hex && !is_sums && !compares && (!prints || options.output.is_some());
    let files = two_texts(alloc, !options.hex && !reads_lines, texts)?;
    let written = performed(alloc, words.as_slice(), seed, files.as_slice())?.0;
    let second = written_by_seed(alloc, command, &options, seed, names, files.as_slice())?;
    Ok((
        in_digits(alloc, is_image, written)?,
        in_digits(alloc, is_image, second)?,
    ))
}

/// Two texts of lines, each cut into lines by itself: three different lines.
const TEXTS: [&str; 2] = ["ann\nbob", "bob\n\nann"];

/// The image of their lines under seed 1.
const THREE_UNDER_1: &str =
    "02030300001a4ac4030000000000000056d802e1dab062185aae7fb7f2550823221ac34464fbcd3b\n";

/// Twenty lines.
const LETTERS: [&str; 2] = [
    "a\nb\nc\nd\ne\nf\ng\nh\ni\nj\n",
    "k\nl\nm\nn\no\np\nq\nr\ns\nt\n",
];

/// Three keys with amounts, whose total is above 64 bits.
const AMOUNTS: [&str; 2] = ["ann;5\nbob;7", "bob;0\n;1\nann;18446744073709551610"];

/// Images of three hashes below a theta of 5 * 10^18, and of two below one of 4 * 10^18, by
/// `checks/expected_answers.py`.
const ESTIMATING: [&str; 2] = [
    "03030300001acc9303000000000000000000f44482916345000064a7b3b6e00d0000c84e676dc11b000042712836733e",
    "03030300001acc9302000000000000000000909dceda82370000c84e676dc11b00002cf61a24a229",
];

/// The images of the sums of `AMOUNTS`, of each text and of both.
const SUMS: [&str; 2] = [
    "02030901001acc9302000000000000005f1032909707cc270700000000000000fc08309e1c5ed36b0500000000000000",
    "02030901001acc930300000000000000dc8d24339151380f01000000000000005f1032909707cc270000000000000000fc08309e1c5ed36bfaffffffffffffff",
];

const BOTH_SUMS: &str =
    "02030901001acc930300000000000000dc8d24339151380f01000000000000005f1032909707cc270700000000000000fc08309e1c5ed36bffffffffffffffff\n";

/// The lines of the groups of `TEXTS` by their first field, cut at an n, each with its image.
const GROUPS: [&str; 2] = [
    "a\t01030300001acc93fc08309e1c5ed36b\nbob\t01030300001acc935f1032909707cc27\n",
    "\t01030300001acc93dc8d24339151380f\na\t01030300001acc93fc08309e1c5ed36b\nbob\t01030300001acc935f1032909707cc27\n",
];

/// Users, each with days.
const DAYS: [&str; 2] = ["x;1\ny;1\nx;2\ny;2", "z;1\ny;3\ny;3\n;5"];

/// Each command; `tests/distinct` has its options. What is to be written of `ESTIMATING` is by
/// `checks/expected_answers.py`, and of the others by a program in Python that knows the public definition of the
/// hash and the formula of bounds.
#[test]
fn writes_each_answer(rt: HostRuntime) -> Result<(), Fail> {
    for (arguments, texts, line) in [
        (
            &["count", "--lg-k=4", "--bounds=3", "a", "b"] as &[&str],
            LETTERS,
            "18 16 23\n",
        ),
        (
            &[
                "count",
                "--by=1",
                "--sort=estimate",
                "--separator=;",
                "--field=2",
                "a",
                "b",
            ],
            DAYS,
            "y\t3\nx\t2\n\t1\nz\t1\n",
        ),
        (&["count", "--per-file", "a", "b"], DAYS, "4\ta\n3\tb\n"),
        (
            &["sketch", "--hex", "--seed", "1", "a", "b"],
            TEXTS,
            THREE_UNDER_1,
        ),
        (
            &[
                "sketch",
                "--field=1",
                "--value=2",
                "--separator=;",
                "a",
                "b",
            ],
            AMOUNTS,
            BOTH_SUMS,
        ),
        (&["union", "--sums", "a", "b"], SUMS, BOTH_SUMS),
        (
            &["union", "--groups", "--hex", "a", "b"],
            GROUPS,
            "\t01030300001acc93dc8d24339151380f\na\t01030300001acc93fc08309e1c5ed36b\nbob\t01030300001acc935f1032909707cc27\n",
        ),
        (
            &["count", "--groups", "--hex", "a", "b"],
            GROUPS,
            "\t1\na\t1\nbob\t1\n",
        ),
        (
            &["meet", "--hex", "--expect=2", "a", "b"],
            ESTIMATING,
            "03030300001acc9301000000000000000000909dceda82370000c84e676dc11b\n",
        ),
        (
            &["minus", "--hex", "a", "b"],
            ESTIMATING,
            "03030300001acc9301000000000000000000909dceda8237000064a7b3b6e00d\n",
        ),
        (
            &["show", "--hex", "--bounds=1", "a", "b"],
            ESTIMATING,
            "a: 6 estimated, from 3 to 9, retained 3, theta 5000000000000000000\nb: 5 estimated, from 2 to 8, retained 2, theta 4000000000000000000\n",
        ),
        (
            &["similarity", "--bounds=1", "a", "b"],
            ESTIMATING,
            "0.333333 0.135643 0.614357\n",
        ),
        (
            &["matrix", "--bounds=1", "a", "b"],
            ESTIMATING,
            "a\tb\t2\t2\t2\t0.333333 0.135643 0.614357\n",
        ),
        (
            &["eval", "--keys", "--lg-k=4", "a + b"],
            LETTERS,
            "a + b: 18 estimated, from 16 to 21, retained 16, theta 8286655706689789920\n",
        ),
        (
            &["eval", "--sums", "--output", "o", "(a + b) - a"],
            SUMS,
            "01030901001acc93dc8d24339151380f0100000000000000\n",
        ),
        (
            &["eval", "--groups", "--hex", "(a + b) - a"],
            GROUPS,
            "\t1\na\t0\nbob\t0\n",
        ),
        (&["visits", "a", "b"], TEXTS, "1: 1\n2: 2\n"),
        (
            &["sum", "--separator=;", "--field=1", "--value=2", "a", "b"],
            AMOUNTS,
            "18446744073709551623\n",
        ),
        (
            &[
                "sum",
                "--separator=;",
                "--by=1",
                "--value=2",
                "--sort=total",
                "a",
                "b",
            ],
            AMOUNTS,
            "ann\t18446744073709551615\nbob\t7\n\t1\n",
        ),
    ] {
        let (first, second) = match both_written(rt.alloc(), arguments, texts) {
            Ok(written) => written,
            Err(_) => (Vec::new(rt.alloc()), Vec::new(rt.alloc())),
        };
        assert_eq!(rt; first.as_slice(), line.as_bytes(), "{arguments:?}");
        assert_eq!(rt; second.as_slice(), line.as_bytes(), "{arguments:?}");
    }
    Ok(())
}
