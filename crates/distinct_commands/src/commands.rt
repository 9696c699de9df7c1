//! What each command writes, over any sources and any writer.
ghost use Rattle.std.specs.Prelude.{◌≡◌, ◌≢◌, ℕ, [], OnOk, IfOk, IfErr, IfSome, codes, length};
ghost use Rattle.distinct_arguments.specs.declared.commands.Command.TheVariants.{Eval, Show};
ghost use Rattle.sketch_base.specs.Seed.{seed_hash};
ghost use Rattle.theta_sketches.specs.Image.{written};
ghost use Rattle.distinct_arguments.specs.Faults.{options_of, request_action};
ghost use Rattle.distinct_arguments.specs.Settings.{chosen_group};
ghost use Rattle.distinct_commands.specs.Answers.{sketch_of, lines_text, IsCountText, IsLinesText, IsSketchText};
ghost use Rattle.distinct_commands.specs.Answers.{IsCommandAnswer, IsLinesCount, IsShowText, IsWholeAnswer, WritesAnswer, Performs};
ghost use Rattle.distinct_commands.specs.Groups.{listing_of};
ghost use Rattle.distinct_commands.specs.Showing.{AreOfOne};
ghost use Rattle.distinct_inputs.specs.Lists.{names_of};
ghost use Rattle.distinct_inputs.specs.Images.{in_form};
ghost use Rattle.distinct_commands.specs.Failing.{IsOfCommand, IsOfCount, IsOfShow, IsOfOperands, IsOfAnswer, IsOfRequest};
ghost use Rattle.distinct_commands.specs.Operands.{words_in, Suits, SuitsAction};
ghost use Rattle.distinct_messages.specs.Failures.{UnreadableIf};
ghost use Rattle.distinct_inputs.specs.Failures.{chosen_amount, IsOfReading, IsOfSketch, IsUnwritten};
ghost use Rattle.distinct_messages.specs.declared.failure.Failure.TheVariants as failure;

use crate::expression::Operands;
use crate::groups::{GroupPrinter, Listing};
use crate::job::{Answer, Job};
use crate::show::{count_text, remark_rough};
use crate::sums::chosen_amount;
use distinct_arguments::{Command, Fault, Options, Request, text_of};
use distinct_inputs::Inputs;
use distinct_messages::{Console, Failure, out_of_memory, put};
use keys_lines::Hashing;
use keys_sketches::{ReadError, Sources, hex_line, image_of, sketch_sources};
use std::alloc::Global;
use std::io::Write;
use theta_sketches::CompactThetaSketch;

/// The name of standard output in messages.
const STANDARD_OUTPUT: &str = "standard output";

/// Runs a command under a seed on what it is given, of which `sources` opens the files, and writes its whole answer
/// and nothing else. Only if the writer fails may a part of the answer have been written. It returns the failures of the
/// files that it passed over, in their order: `show` passes over what is no image and a file that can't be read, any
/// other command nothing.
///
/// Any command may fail with `Memory`, with `Unreadable` if its sources may fail, and with `NotWritten` for standard
/// output. Each other failure has its commands:
///
/// - `NoSketch`, `NoSums`, `NoHex` and `NoLine`: commands that read images, but not `show`; `NoSums` if these are of sums, `NoSketch`
///   if not, `NoHex` and `NoLine` with `--hex`. If contracts know the files' bytes, only if some image is none of the
///   seed: a line that isn't hexadecimal, a file without a line, and an image that something follows count as none;
/// - `NoTab`, `NoHex` and `NoSketch` with `--groups`: for the first line of a file that has a flaw;
/// - `NoFiles`: commands that read images, if no file is named;
/// - `WrongCount`: commands that combine images, if `--expect` names another number than the failure reports to have
///   been found, which is, if contracts know the files' bytes, the number of the images;
/// - `NotTwo`: `minus` and `similarity`. If contracts know the files' bytes, only if the named files aren't two
///   (without `--hex`) or their images aren't two. And `matrix`, if they are fewer than two;
/// - `NotOneEach`: `eval`;
/// - `PastResult`: `eval --sums`. If contracts know the files' bytes, only if sums are added and in some step of the
///   expression two operands of a union or an intersection have a key whose sums are 2^64 or more together;
/// - `PastUnion`: commands on images of sums, if the sum of a key is 2^64 or more, which no clause says;
/// - `SumNeedsValue`: `sum`, if its options have no field of numbers;
/// - `NotANumber` and `PastGreatest`: commands that sum lines, if a line has no number, or if a sum is 2^64 or more.
pub fn answer<S: Sources + Drop, C: Console, O: Write>(
    alloc: Global,
    command: Command,
    options: &Options<'_>,
    seed: u64,
    operands: Operands<'_>,
    sources: S,
    console: &mut C,
    writer: &mut O,
) -> Result<Vec<Failure>, Failure>
    requires seeded { seed_hash seed ≢ 0 }
    requires suits { Suits command operands }
    ensures answered { IfSome (S.texts sources) (λ texts.
        IfOk result (λ v. WritesAnswer command (options_of options.now) seed (words_in operands.entry) texts v.items
        (O.contents writer.old) (O.contents writer.new))) }
    ensures passed { IfOk result (λ v. AreOfOne S.may_fail v.items) }
    ensures failed { IfErr result (IsOfAnswer command (options_of options.now) seed operands.entry (S.texts sources)) }
    ensures fallible { IfErr result (UnreadableIf S.may_fail) }
    ensures unwritten { IfErr result (IsUnwritten (O.contents writer.old) (O.contents writer.new)) }
{
    let made = answer_of(alloc, command, options, seed, operands, sources, console)?;
    match put(alloc, writer, STANDARD_OUTPUT, made.bytes.as_slice()) {
        Ok(()) => Ok(made.passed),
        Err(failure) => Err(failure),
    }
}

/// Does what a request says: prints its text, or runs its command under this seed on what it is given, of which
/// `sources` opens the files. It fails as `answer` does, or if the writer does. Unless the writer fails, a request
/// that fails has written nothing.
pub fn perform<S: Sources + Drop, C: Console, O: Write>(
    alloc: Global,
    request: Request<'_>,
    seed: u64,
    operands: Operands<'_>,
    sources: S,
    console: &mut C,
    writer: &mut O,
) -> Result<Vec<Failure>, Failure>
    requires seeded { seed_hash seed ≢ 0 }
    requires suits { SuitsAction (request_action request) operands }
    ensures performed { IfSome (S.texts sources) (λ texts.
        IfOk result (λ v. Performs (request_action request.entry) seed (words_in operands.entry) texts v.items
        (O.contents writer.old) (O.contents writer.new))) }
    ensures passed { IfOk result (λ v. AreOfOne S.may_fail v.items) }
    ensures failed { IfErr result (IsOfRequest (request_action request.entry) seed operands.entry (S.texts sources)) }
    ensures unwritten { IfErr result (IsUnwritten (O.contents writer.old) (O.contents writer.new)) }
    ensures fallible { IfErr result (UnreadableIf S.may_fail) }
{
    match request {
        Request::Print(topic) => {
            match put(alloc, writer, STANDARD_OUTPUT, text_of(topic).as_bytes()) {
                Ok(()) => Ok(Vec::new(alloc)),
                Err(failure) => Err(failure),
            }
        }
        Request::Run(command, options, _) => {
            answer(
                alloc, command, &options, seed, operands, sources, console, writer,
            )
        }
    }
}

/// What a command writes of what it is given, and passes over.
fn answer_of<S: Sources + Drop, C: Console>(
    alloc: Global,
    command: Command,
    options: &Options<'_>,
    seed: u64,
    operands: Operands<'_>,
    sources: S,
    console: &mut C,
) -> Result<Answer, Failure>
    requires seeded { seed_hash seed ≢ 0 }
    requires suits { Suits command operands }
    ensures answer { IfSome (S.texts sources) (λ texts.
        IfOk result (λ a. IsCommandAnswer command (options_of options.now) seed (words_in operands.entry) texts
        a.bytes.items a.passed.items)) }
    ensures passed { IfOk result (λ a. AreOfOne S.may_fail a.passed.items) }
    ensures failed { IfErr result
        (IsOfOperands command (options_of options.now) seed operands.entry (S.texts sources)) }
    ensures fallible { IfErr result (UnreadableIf S.may_fail) }
{
    match operands {
        Operands::Files(files) => {
            let inputs = Inputs::new(sources, files);
            let job = Job {
                alloc,
                options,
                seed,
                inputs,
            };
            job.answer(command, files, console)
        }
        Operands::Expression(expression) => {
            let inputs = Inputs::new(sources, expression.names.as_slice());
            let job = Job {
                alloc,
                options,
                seed,
                inputs,
            };
            match job.evaluate(expression, console) {
                Ok(bytes) => Ok(whole(alloc, bytes)),
                Err(failure) => Err(failure),
            }
        }
    }
}

/// An answer of a command that passes over no file.
fn whole(alloc: Global, bytes: Vec<u8>) -> Answer
    ensures bytes { result.bytes ≡ bytes }
    ensures passed { result.passed.items ≡ [] }
{
    Answer {
        bytes,
        passed: Vec::new(alloc),
    }
}

/// How groups are listed: by their images, or by their counts.
pub fn listing_of(images: bool) -> Listing
    ensures { result ≡ listing_of images }
{
    if images {
        Listing::Images
    } else {
        Listing::Counts
    }
}

/// What `count` prints of a sketch of lines, or its image as it is written.
fn lines_text<C: Console>(
    alloc: Global,
    options: &Options<'_>,
    images: bool,
    sketch: &CompactThetaSketch,
    console: &mut C,
) -> Result<Vec<u8>, Failure>
    ensures text { IfOk result (λ v. v.items ≡ lines_text images (options_of options.now) sketch.now) }
    ensures memory { IfErr result (λ f. f ≡ failure.Memory) }
{
    if images {
        return image_in_form(alloc, options.hex, sketch);
    }
    remark_rough(options, sketch, console);
    let text = count_text(alloc, options, sketch)?;
    Ok(text.into_bytes())
}

impl<'a, S: Sources + Drop> Job<'a, S> {
    /// What a command, not `eval`, writes of the files of these names, which are those of the sources, and passes over.
    fn answer<C: Console>(
        self,
        command: Command,
        files: &[String],
        console: &mut C,
    ) -> Result<Answer, Failure>
        requires seeded { seed_hash self.seed ≢ 0 }
        requires other { command ≢ Eval }
        requires named { self.inputs.left.now ≡ files.now }
        requires unnamed { self.inputs.current.now ≡ codes "-" }
        ensures answer { IfSome (S.texts self.entry.inputs.sources) (λ texts. IfOk result (λ a.
            IsCommandAnswer command (options_of self.entry.options.now) self.entry.seed (names_of files.now) texts
            a.bytes.items a.passed.items)) }
        ensures passed { IfOk result (λ a. AreOfOne S.may_fail a.passed.items) }
        ensures failed { IfErr result (
            IsOfCommand command (options_of self.entry.options.now) self.entry.seed (length files.now)
            (S.texts self.entry.inputs.sources)) }
        ensures fallible { IfErr result (UnreadableIf S.may_fail) }
    {
        let alloc = self.alloc;
        match command {
            Command::Show => {
                if files.is_empty() {
                    return Err(Failure::NoFiles);
                }
                self.show_either(files, console)
            }
            _ => match self.whole_answer(command, files, console) {
                Ok(bytes) => Ok(whole(alloc, bytes)),
                Err(failure) => Err(failure),
            },
        }
    }

    /// What `show` prints of the files of these names, which are those of the sources, and passes over: of the images in
    /// them, or of the groups of images.
    fn show_either<C: Console>(self, files: &[String], console: &mut C) -> Result<Answer, Failure>
        requires seeded { seed_hash self.seed ≢ 0 }
        requires named { self.inputs.left.now ≡ files.now }
        ensures shown { IfSome (S.texts self.entry.inputs.sources) (λ texts. IfOk result (λ a.
            IsShowText self.entry.options.now.groups (options_of self.entry.options.now) self.entry.seed
            (names_of files.now) texts a.bytes.items a.passed.items)) }
        ensures passed { IfOk result (λ a. AreOfOne S.may_fail a.passed.items) }
        ensures failed { IfErr result
            (IsOfShow self.entry.options.now.groups self.entry.seed (S.texts self.entry.inputs.sources)) }
        ensures fallible { IfErr result (UnreadableIf S.may_fail) }
    {
        let alloc = self.alloc;
        if !self.options.groups {
            return self.show_inputs(files, console);
        }
        match self.list_unions(Listing::Shown, console) {
            Ok(bytes) => Ok(whole(alloc, bytes)),
            Err(failure) => Err(failure),
        }
    }

    /// The bytes that a command, not `eval` and not `show`, writes of the files of these names.
    fn whole_answer<C: Console>(
        self,
        command: Command,
        files: &[String],
        console: &mut C,
    ) -> Result<Vec<u8>, Failure>
        requires seeded { seed_hash self.seed ≢ 0 }
        requires other { command ≢ Eval }
        requires whole { command ≢ Show }
        requires named { self.inputs.left.now ≡ files.now }
        requires unnamed { self.inputs.current.now ≡ codes "-" }
        ensures answer { IfSome (S.texts self.entry.inputs.sources) (λ texts. IfOk result (λ v.
            IsWholeAnswer command (options_of self.entry.options.now) self.entry.seed (names_of files.now) texts v.items)) }
        ensures failed { IfErr result (
            IsOfCommand command (options_of self.entry.options.now) self.entry.seed (length files.now)
            (S.texts self.entry.inputs.sources)) }
        ensures fallible { IfErr result (UnreadableIf S.may_fail) }
    {
        let (alloc, options) = (self.alloc, self.options);
        match command {
            Command::Count => self.count_inputs(files, console),
            Command::Sketch => self.write_sketch(console),
            Command::Combine(operator) => {
                if files.is_empty() {
                    return Err(Failure::NoFiles);
                }
                if options.groups {
                    return self.combine_groups(files.len(), operator, console);
                }
                let combined = self.combine_inputs(files.len(), operator, console)?;
                in_form(alloc, options.hex, combined)
            }
            Command::Show => Err(Failure::NoFiles),
            Command::Eval => Err(Failure::Arguments(Fault::NotOneExpression)),
            Command::Visits => {
                if options.sums && files.is_empty() {
                    return Err(Failure::NoFiles);
                }
                self.visit_inputs(console)
            }
            Command::Sum => self.sum_lines(console),
            Command::Similarity => self.compare_inputs(files.len()),
            Command::Matrix => self.compare_each(files),
        }
    }

    /// What `count` prints of the files of these names, which are those of the sources: of their lines, of all or of
    /// each file by itself, or of the groups of images in them.
    fn count_inputs<C: Console>(self, files: &[String], console: &mut C) -> Result<Vec<u8>, Failure>
        requires seeded { seed_hash self.seed ≢ 0 }
        requires named { self.inputs.left.now ≡ files.now }
        requires unnamed { self.inputs.current.now ≡ codes "-" }
        ensures printed { IfSome (S.texts self.entry.inputs.sources) (λ texts.
            IfOk result (λ v.
            IsCountText self.entry.options.now.groups (options_of self.entry.options.now) self.entry.seed
            (names_of files.now) texts v.items)) }
        ensures failed { IfErr result (
            IsOfCount self.entry.options.now.groups self.entry.seed (length files.now)
            (S.texts self.entry.inputs.sources)) }
        ensures fallible { IfErr result (UnreadableIf S.may_fail) }
    {
        if !self.options.groups {
            return self.count_lines(console);
        }
        if files.is_empty() {
            return Err(Failure::NoFiles);
        }
        self.list_unions(Listing::Counts, console)
    }

    /// What `count` prints of the lines of the sources: of all, or of each by itself.
    fn count_lines<C: Console>(self, console: &mut C) -> Result<Vec<u8>, Failure>
        requires seeded { seed_hash self.seed ≢ 0 }
        requires unnamed { self.inputs.current.now ≡ codes "-" }
        ensures printed { IfSome (S.texts self.entry.inputs.sources) (λ texts.
            IfOk result (λ v.
            IsLinesCount self.entry.options.now.per_file (options_of self.entry.options.now) self.entry.seed
            (names_of self.entry.inputs.left.now) texts v.items)) }
        ensures failed { IfErr result IsOfReading }
        ensures fallible { IfErr result (UnreadableIf S.may_fail) }
    {
        if self.options.per_file {
            self.count_each(console)
        } else {
            self.print_lines(false, console)
        }
    }

    /// What `count` prints, or `sketch` writes, of the lines of all sources in turn, by groups if the options say so.
    fn print_lines<C: Console>(self, images: bool, console: &mut C) -> Result<Vec<u8>, Failure>
        requires seeded { seed_hash self.seed ≢ 0 }
        ensures printed { IfSome (S.texts self.entry.inputs.sources) (λ texts.
            IfOk result (λ v.
            IsLinesText images (chosen_group (options_of self.entry.options.now)) (options_of self.entry.options.now) self.entry.seed texts v.items)) }
        ensures failed { IfErr result IsOfReading }
        ensures fallible { IfErr result (UnreadableIf S.may_fail) }
    {
        let (alloc, options) = (self.alloc, self.options);
        match options.group() {
            Some(by) => {
                let mut groups = self.read_groups(by, console)?;
                let printer = GroupPrinter {
                    alloc,
                    options,
                    listing: listing_of(images),
                };
                printer.table(&mut groups)
            }
            None => {
                let sketch = self.sketch_inputs(console)?;
                lines_text(alloc, options, images, &sketch, console)
            }
        }
    }

    /// What `sketch` writes of the lines of all sources in turn: of the sums of what they add, if they add something.
    fn write_sketch<C: Console>(self, console: &mut C) -> Result<Vec<u8>, Failure>
        requires seeded { seed_hash self.seed ≢ 0 }
        ensures sketched { IfSome (S.texts self.entry.inputs.sources) (λ texts.
            IfOk result (λ v.
            IsSketchText (chosen_amount (options_of self.entry.options.now))
            (chosen_group (options_of self.entry.options.now))
            (options_of self.entry.options.now) self.entry.seed texts v.items)) }
        ensures failed { IfErr result
            (IsOfSketch (options_of self.entry.options.now) self.entry.seed (S.texts self.entry.inputs.sources)) }
        ensures fallible { IfErr result (UnreadableIf S.may_fail) }
    {
        match chosen_amount(self.options) {
            Some(amount) => self.write_sums(amount, console),
            None => self.print_lines(true, console),
        }
    }

    /// The sketch of the lines of all sources in turn. It fails if memory is refused or a source can't be read.
    fn sketch_inputs<C: Console>(self, console: &mut C) -> Result<CompactThetaSketch, Failure>
        requires seeded { seed_hash self.seed ≢ 0 }
        ensures sketch { IfSome (S.texts self.entry.inputs.sources) (λ texts.
            IfOk result (λ s. s ≡ sketch_of (options_of self.entry.options.now) self.entry.seed texts)) }
        ensures failed { IfErr result IsOfReading }
        ensures fallible { IfErr result (UnreadableIf S.may_fail) }
    {
        let (alloc, options, seed) = (self.alloc, self.options, self.seed);
        let mut inputs = self.inputs;
        let hashing = Hashing {
            key: options.key(),
            seed,
        };
        match sketch_sources(alloc, hashing, options.lg_k, &mut inputs, console) {
            Ok(sketch) => Ok(sketch),
            Err(ReadError::Failed(error)) => Err(inputs.read_failure(alloc, error)),
            Err(ReadError::Refused(error)) => Err(out_of_memory(error)),
        }
    }
}

/// An image as it is written: its bytes, or a line of their hexadecimal digits.
pub fn in_form(alloc: Global, hex: bool, image: Vec<u8>) -> Result<Vec<u8>, Failure>
    ensures form { IfOk result (λ v. v.items ≡ in_form hex image.items) }
    ensures memory { IfErr result (λ f. f ≡ failure.Memory) }
{
    if hex {
        Ok(hex_line(alloc, image.as_slice())?)
    } else {
        Ok(image)
    }
}

/// The image of a sketch as it is written.
pub fn image_in_form(
    alloc: Global,
    hex: bool,
    sketch: &CompactThetaSketch,
) -> Result<Vec<u8>, Failure>
    ensures form { IfOk result (λ v. v.items ≡ in_form hex (written sketch.now)) }
    ensures memory { IfErr result (λ f. f ≡ failure.Memory) }
{
    let image = image_to_put(sketch)?;
    in_form(alloc, hex, image)
}

/// The image of a sketch. It fails if memory is refused.
pub fn image_to_put(sketch: &CompactThetaSketch) -> Result<Vec<u8>, Failure>
    ensures image { IfOk result (λ v. v.items ≡ written sketch.now) }
    ensures memory { IfErr result (λ f. f ≡ failure.Memory) }
{
    match image_of(sketch) {
        Ok(image) => Ok(image),
        Err(error) => Err(out_of_memory(error)),
    }
}
