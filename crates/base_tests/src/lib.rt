//! Tests of what lies at the bottom: base types, disks, streams, operations of the machine, and records.
#![tactic(auto)]

#[cfg(test)]
mod basics;
#[cfg(test)]
mod calls;
#[cfg(test)]
mod cells;
#[cfg(test)]
mod crafted;
#[cfg(test)]
mod disks;
#[cfg(test)]
mod image;
#[cfg(test)]
mod real;
#[cfg(test)]
mod record_cells;
#[cfg(test)]
mod record_roots;
#[cfg(test)]
mod record_rows;
#[cfg(test)]
mod record_tables;
#[cfg(test)]
mod record_tests;
#[cfg(test)]
mod stopped;
#[cfg(test)]
mod streams;
#[cfg(test)]
mod table;
#[cfg(test)]
mod tests;
