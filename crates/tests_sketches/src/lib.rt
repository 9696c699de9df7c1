//! Tests over the public calls of the theta sketches, and of the hash below them, which no line of calls can make:
//! the documented example, a closure that captures a value, numbers of each type that a hasher writes, images whose
//! hashes were chosen, a large table, readers of lines that fail once, and readers of parts.
#![tactic(auto)]

#[cfg(test)]
mod audience;
#[cfg(test)]
mod crafted_sets;
#[cfg(test)]
mod failing_reads;
#[cfg(test)]
mod large_table;
#[cfg(test)]
mod mapped;
#[cfg(test)]
mod numbers;
#[cfg(test)]
mod parts;
