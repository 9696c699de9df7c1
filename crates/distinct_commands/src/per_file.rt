//! What `count --per-file` prints: a count of each file by itself.
ghost use Rattle.std.specs.Prelude.{◌≡◌, ◌≢◌, ◌++◌, IfOk, IfErr, IfSome};
ghost use Rattle.sketch_base.specs.Seed.{seed_hash};
ghost use Rattle.distinct_arguments.specs.Faults.{options_of};
ghost use Rattle.distinct_inputs.specs.Failures.{IsOfReading};
ghost use Rattle.distinct_inputs.specs.Lists.{names_of};
ghost use Rattle.distinct_messages.specs.Failures.{UnreadableIf};
ghost use Rattle.distinct_commands.specs.Answers.{files_text};
ghost use Rattle.distinct_commands.specs.Texts.{head_of};

use crate::eval::next_lines;
use crate::job::Job;
use crate::show::{file_count_text, head_of};
use distinct_messages::{Console, Failure};
use keys_sketches::Sources;

impl<'a, S: Sources + Drop> Job<'a, S> {
    /// A line for each source, with what is counted of its lines alone, after the head of a table if there is to be
    /// one. It fails if memory is refused or a source can't be read.
    pub fn count_each<C: Console>(self, console: &mut C) -> Result<Vec<u8>, Failure>
        requires seeded { seed_hash self.seed ≢ 0 }
        ensures printed { IfSome (S.texts self.entry.inputs.sources) (λ texts. IfOk result (λ v. v.items
            ≡ head_of self.entry.options.now.form
            ++ files_text (options_of self.entry.options.now) self.entry.seed self.entry.inputs.current.now
            (names_of self.entry.inputs.left.now) texts)) }
        ensures failed { IfErr result IsOfReading }
        ensures fallible { IfErr result (UnreadableIf S.may_fail) }
    {
        let (alloc, options, seed) = (self.alloc, self.options, self.seed);
        let mut inputs = self.inputs;
        let head = head_of(alloc, options.form)?;
        let mut text = head.into_bytes();
        for _ in 0..u64::MAX {
            match next_lines(alloc, options, seed, &mut inputs, console)? {
                Some(sketch) => {
                    let line = file_count_text(alloc, options, inputs.name(), &sketch)?;
                    text.extend_from_slice(line.as_bytes())?;
                }
                None => return Ok(text),
            }
        }
        Err(Failure::Memory)
    }
}
