//! Tests of the parts of a system of tasks: the ready list, channels, lines and pieces, the tree, names,
//! messages, the commands that lines spell, and rows of which parts are rebuilt.
#![tactic(auto)]

#[cfg(test)]
mod channels;
#[cfg(test)]
mod commands;
#[cfg(test)]
mod directory;
#[cfg(test)]
mod display;
#[cfg(test)]
mod lines;
#[cfg(test)]
mod messages;
#[cfg(test)]
mod notes;
#[cfg(test)]
mod rotation;
#[cfg(test)]
mod rows;
#[cfg(test)]
mod sessions;
#[cfg(test)]
mod tables;
#[cfg(test)]
mod tests;
#[cfg(test)]
mod tree;
