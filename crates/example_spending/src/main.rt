//! Adds up what each customer spent on some days.
#![tactic(auto)]

ghost use Rattle.std.specs.Prelude.{◌≡◌, ◌^◌, IfOk, OnOk};
ghost use Rattle.tuple_sketches.specs.Streams.{least_sums, retained_of, union_state, MAX_THETA};
ghost use Rattle.example_spending.specs.Purchases.{AddsDay, all_amounts};

mod stopped;

use crate::stopped::Stopped;
use std::alloc::Global;
use tuple_sketches::{
    CompactTupleSketch, DefaultUnionPolicy, DefaultUpdatePolicy, Error, TupleSketchBuilder,
    TupleUnion, TupleUnionBuilder,
};

/// Adds the purchases of a day to a union.
fn add_day(
    union: &mut TupleUnion<DefaultUnionPolicy<u64>>,
    alloc: Global,
    purchases: &[(&str, u64)],
) -> Result<(), Error>
    ensures { OnOk result (AddsDay (union_state union.old) (union_state union.new) purchases.now) }
{
    let policy = DefaultUpdatePolicy::<u64>::default();
    let mut sketch = TupleSketchBuilder::new(policy).lg_k(14).build(alloc)?;
    for purchase in purchases {
        sketch.update(purchase.0, purchase.1)?;
    }
    union.update(sketch.as_view())?;
    Ok(())
}

/// What customers spent on all days: the 2^14 least hashes of their names, each with the sum of its amounts, and as
/// theta the next.
fn spent(alloc: Global, days: &[&[(&str, u64)]]) -> Result<CompactTupleSketch<u64>, Error>
    ensures { IfOk result (λ s. retained_of s ≡ least_sums (2 ^ 14) (all_amounts days.now) MAX_THETA) }
{
    let policy = DefaultUnionPolicy::<u64>::default();
    let mut union = TupleUnionBuilder::new(policy).lg_k(14).build(alloc)?;
    for purchases in days {
        add_day(&mut union, alloc, *purchases)?;
    }
    let sums = union.to_sketch(true)?;
    Ok(sums)
}

fn main(rt: HostRuntime) -> Result<(), Stopped> {
    let sums = spent(
        rt.alloc(),
        &[&[("ann", 3), ("bob", 1), ("ann", 4)], &[("bob", 5)]],
    )?;
    for entry in sums.iter() {
        let sum = *entry.summary();
        println!(rt; "{sum}")?;
    }
    Ok(())
}
