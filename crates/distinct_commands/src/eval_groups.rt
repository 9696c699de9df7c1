//! What `eval --groups` prints or writes: the results of a set expression over the groups of images in files.
ghost use Rattle.std.specs.Prelude.{◌≢◌, IfOk, IfErr, IfSome, Bool};
ghost use Rattle.sketch_base.specs.Seed.{seed_hash};
ghost use Rattle.distinct_arguments.specs.Faults.{options_of};
ghost use Rattle.distinct_commands.specs.EvalGroups.{AreEvaluated};
ghost use Rattle.distinct_commands.specs.Failing.{IsOfGroupsResult};
ghost use Rattle.distinct_commands.specs.Operands.{IsRead};
ghost use Rattle.distinct_messages.specs.Failures.{UnreadableIf};

use crate::commands::listing_of;
use crate::expression::Expression;
use crate::groups::GroupPrinter;
use crate::job::Job;
use crate::united::join_failure;
use distinct_messages::Failure;
use keys_joins::evaluate_groups;
use keys_sketches::Sources;

impl<'a, S: Sources + Drop> Job<'a, S> {
    /// The results of an expression over the groups of the sources, which have its names in their order: what is
    /// printed of each group, or with `--output` the lines of their images.
    pub fn evaluate_groups(self, expression: &Expression<'_>) -> Result<Vec<u8>, Failure>
        requires seeded { seed_hash self.seed ≢ 0 }
        requires read { IsRead expression.now }
        ensures evaluated { IfSome (S.texts self.entry.inputs.sources) (λ texts. IfOk result (λ v.
            AreEvaluated (options_of self.entry.options.now) self.entry.seed expression.now.text.now texts v.items)) }
        ensures failed { IfErr result (IsOfGroupsResult self.entry.seed (S.texts self.entry.inputs.sources)) }
        ensures fallible { IfErr result (UnreadableIf S.may_fail) }
    {
        let (alloc, options, seed) = (self.alloc, self.options, self.seed);
        let mut inputs = self.inputs;
        let steps = expression.steps.as_slice();
        match evaluate_groups(alloc, seed, options.lg_k, steps, &mut inputs) {
            Ok(mut groups) => {
                let found = groups.files();
                let wanted = expression.names.len();
                if found != wanted {
                    return Err(Failure::NotOneEach(found as u64, wanted as u64));
                }
                let printer = GroupPrinter {
                    alloc,
                    options,
                    listing: listing_of(options.output.is_some()),
                };
                printer.table(&mut groups)
            }
            Err(error) => Err(join_failure(alloc, &inputs, error)),
        }
    }
}
