//! Programs, among them the examples of the documents, each with what it writes: through the whole program, or as they go on
//! with lines that are typed; and sessions, each with what the terminals show.
#![tactic(auto)]

#[cfg(test)]
mod code;
#[cfg(test)]
mod endings;
#[cfg(test)]
mod lets;
#[cfg(test)]
mod lines;
#[cfg(test)]
mod meanings;
#[cfg(test)]
mod messages;
#[cfg(test)]
mod outside;
#[cfg(test)]
mod packets;
#[cfg(test)]
mod played;
#[cfg(test)]
mod revived;
#[cfg(test)]
mod row_sizes;
#[cfg(test)]
mod row_values;
#[cfg(test)]
mod rows;
#[cfg(test)]
mod sessions;
#[cfg(test)]
mod spaces;
#[cfg(test)]
mod structures;
#[cfg(test)]
mod table;
#[cfg(test)]
mod tasks;
#[cfg(test)]
mod tests;
#[cfg(test)]
mod texts;
#[cfg(test)]
mod typed;
#[cfg(test)]
mod types;
