//! Calls on tables of any entry.
ghost use Rattle.std.specs.Prelude.{◌≡◌, ◌<◌, IsTrue, true};
ghost use Rattle.std.specs.List.{AllByRecursion};
ghost use Rattle.core_laws.specs.Entries.{ClonesEqual};
ghost use Rattle.core_table.specs.HashTable.{may_insert};

use crate::table_iterators::{put_iterated, put_lent, put_passed};
use calls_language::arguments::{put_number, put_truth, two_words};
use calls_language::entries::{Shown, ShownEntry, put_answer, put_entries, shown, shown_entries};
use calls_language::object::{Call, Memory};
use calls_language::words::{Fault, number, order_flag, small_number};
use sketch_base::Error;
use std::alloc::{AllocError, Allocator, Global};
use theta_core::{MAX_LG_K, MAX_THETA, MIN_LG_K, SketchEntry, SketchHashTable, SlotEntry};

/// The entries of a table, ascending.
pub fn table_entries<E: ShownEntry, A: Allocator>(
    plain: Global,
    table: &SketchHashTable<E, A>,
) -> Result<Vec<Shown>, AllocError> {
    let mut list = Vec::new(plain);
    let mut entries = table.iter_entries();
    for _ in 0..=table.num_retained() {
        let Some(entry) = entries.next() else {
            break;
        };
        list.push(shown(entry))?;
    }
    list.sort_unstable();
    Ok(list)
}

/// Appends all that can be seen of a table.
pub fn put_table<E: ShownEntry, A: Allocator>(
    text: &mut String,
    table: &SketchHashTable<E, A>,
) -> Result<(), AllocError> {
    let count = table.num_retained();
    let theta = table.retention_theta();
    let threshold = table.capacity_threshold();
    let size = table.estimated_size();
    let room = table.has_room();
    write!(
        text,
        "count={count} theta={theta} threshold={threshold} size={size} room={room} "
    )?;
    put_entries(text, table_entries(*text.allocator(), table)?.as_slice())
}

/// Whether a hash may be inserted: it is screened or retained, or there is room.
pub fn may_insert<E: SlotEntry, A: Allocator>(table: &SketchHashTable<E, A>, hash: u64) -> bool
    ensures { result ≡ true → IsTrue (may_insert E.key hash table.now.map) }
{
    if hash == 0 || table.retention_theta() <= hash {
        return true;
    }
    table.has_room() || table.entry(hash).is_some()
}

/// Requests memory of a table's allocator.
fn put_allocated<E: ShownEntry, A: Allocator + Clone>(
    answer: &mut String,
    table: &SketchHashTable<E, A>,
) -> Result<(), Fault> {
    let own = table.allocator().clone().map_err(Error::from)?;
    let bytes: Vec<u8, A> = Vec::with_capacity(own, 1).map_err(Error::from)?;
    put_number(answer, bytes.len() as u64)?;
    Ok(())
}

/// Makes a call that reads a table; returns whether the call is one.
pub fn read<E: ShownEntry, A: Allocator>(
    table: &SketchHashTable<E, A>,
    call: Call<'_>,
    answer: &mut String,
) -> Result<bool, Fault> {
    match (call.verb, call.argument) {
        ("threshold", "") => put_number(answer, table.capacity_threshold() as u64)?,
        ("room", "") => put_truth(answer, table.has_room())?,
        ("count", "") => put_number(answer, table.num_retained() as u64)?,
        ("theta", "") => put_number(answer, table.retention_theta())?,
        ("lg_nom", "") => put_number(answer, table.lg_nom_size() as u64)?,
        ("seed", "") => put_number(answer, table.seed())?,
        ("seed_hash", "") => put_number(answer, table.seed_hash() as u64)?,
        ("size", "") => put_number(answer, table.estimated_size() as u64)?,
        ("iterate", "") => put_iterated(answer, table)?,
        ("lend", "") => put_lent(answer, table)?,
        ("pass", theta) => put_passed(answer, table, number(theta)?)?,
        ("see", "") => put_table(answer, table)?,
        _ => return Ok(false),
    }
    Ok(true)
}

/// Whether all hashes are below theta.
fn all_below<E: SketchEntry>(entries: &[E], theta: u64) -> bool
    ensures { result ≡ true → AllByRecursion (λ x. E.key x < theta) entries.now }
{
    for entry in entries {
        if theta <= entry.hash() {
            return false;
        }
    }
    true
}

/// Sets the theta of a table.
fn set_theta<E: ShownEntry + Clone, A: Allocator + Clone>(
    memory: Memory<'_>,
    table: &mut SketchHashTable<E, A>,
    theta: u64,
) -> Result<(), Fault>
    requires clones_equal { ClonesEqual E.is_clone }
{
    memory.pause();
    let entries = table.sorted_entries()?;
    let is_above = all_below(entries.as_slice(), theta);
    memory.refuse();
    if theta == 0 || theta > MAX_THETA || !is_above {
        return Err(Fault::Condition);
    }
    table.set_retention_theta(theta);
    Ok(())
}

/// Fills a table anew with its own entries.
fn refill<E: ShownEntry + Clone, A: Allocator + Clone>(
    memory: Memory<'_>,
    table: &mut SketchHashTable<E, A>,
) -> Result<(), Fault>
    requires clones_equal { ClonesEqual E.is_clone }
{
    // Called for its contract: the table's entries keep its laws.
    let _ = table.retention_theta();
    if table.lg_nom_size() < 3 {
        return Err(Fault::Condition);
    }
    memory.pause();
    let entries = table.sorted_entries()?;
    memory.refuse();
    table.refill(entries)?;
    Ok(())
}

/// Makes a call that changes a table; returns whether the call is one.
pub fn change<E: ShownEntry + Clone, A: Allocator + Clone>(
    memory: Memory<'_>,
    table: &mut SketchHashTable<E, A>,
    call: Call<'_>,
) -> Result<bool, Fault>
    requires clones_equal { ClonesEqual E.is_clone }
{
    match (call.verb, call.argument) {
        ("trim", "") => table.trim()?,
        ("reset", "") => {
            if table.lg_nom_size() < MIN_LG_K {
                return Err(Fault::Condition);
            }
            table.reset();
        }
        ("clear", "") => table.clear(),
        ("set_theta", theta) => set_theta(memory, table, number(theta)?)?,
        ("clone", "") => *table = cloned(table)?,
        ("smaller", words) => *table = smaller(table, words)?,
        ("refill", "") => refill(memory, table)?,
        _ => return Ok(false),
    }
    Ok(true)
}

/// The clone of a table of a sketch.
fn cloned<E: ShownEntry + Clone, A: Allocator + Clone>(
    table: &SketchHashTable<E, A>,
) -> Result<SketchHashTable<E, A>, Fault>
    requires clones_equal { ClonesEqual E.is_clone }
{
    let lg = table.lg_nom_size();
    if lg < MIN_LG_K || lg > MAX_LG_K {
        return Err(Fault::Condition);
    }
    Ok(table.clone()?)
}

/// The table with fewer nominal entries of an argument.
fn smaller<E: ShownEntry + Clone, A: Allocator + Clone>(
    table: &SketchHashTable<E, A>,
    words: &str,
) -> Result<SketchHashTable<E, A>, Fault>
    requires clones_equal { ClonesEqual E.is_clone }
{
    let (lg, theta) = two_words(words)?;
    let lg = small_number(lg)?;
    let theta = number(theta)?;
    if lg < MIN_LG_K || lg > MAX_LG_K || lg > table.lg_nom_size() {
        return Err(Fault::Condition);
    }
    if theta == 0 || theta > table.retention_theta() {
        return Err(Fault::Condition);
    }
    Ok(table.to_smaller_table(lg, theta)?)
}

/// Appends the compact state of the entries below a theta.
fn put_cut<E: ShownEntry + Clone, A: Allocator + Clone>(
    answer: &mut String,
    table: &SketchHashTable<E, A>,
    words: &str,
) -> Result<(), Fault>
    requires clones_equal { ClonesEqual E.is_clone }
{
    let (theta, order) = two_words(words)?;
    let theta = number(theta)?;
    let ordered = order_flag(order)?;
    if table.lg_nom_size() > MAX_LG_K || theta == 0 || theta > table.retention_theta() {
        return Err(Fault::Condition);
    }
    put_answer(answer, &table.to_cut_state(theta, ordered)?)?;
    Ok(())
}

/// Appends the compact state of a table.
fn put_compact<E: ShownEntry + Clone, A: Allocator + Clone>(
    answer: &mut String,
    table: &SketchHashTable<E, A>,
    order: &str,
) -> Result<(), Fault>
    requires clones_equal { ClonesEqual E.is_clone }
{
    let ordered = order_flag(order)?;
    if table.num_retained() >= 4294967296 {
        return Err(Fault::Condition);
    }
    put_answer(answer, &table.to_non_empty_compact_state(ordered)?)?;
    Ok(())
}

/// Makes a call that copies the entries of a table; returns whether the call is one.
pub fn copy<E: ShownEntry + Clone, A: Allocator + Clone>(
    table: &SketchHashTable<E, A>,
    call: Call<'_>,
    answer: &mut String,
) -> Result<bool, Fault>
    requires clones_equal { ClonesEqual E.is_clone }
{
    match (call.verb, call.argument) {
        ("allocator", "") => put_allocated(answer, table)?,
        ("compact", order) => put_compact(answer, table, order)?,
        ("cut", words) => put_cut(answer, table, words)?,
        ("sorted", "") => {
            let entries = table.sorted_entries()?;
            put_entries(
                answer,
                shown_entries(*answer.allocator(), entries.as_slice())?.as_slice(),
            )?;
        }
        _ => return Ok(false),
    }
    Ok(true)
}
