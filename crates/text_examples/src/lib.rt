//! Texts of ELAN, with their tokens and their trees: what the definitions say of them.
#![tactic(auto)]

#[cfg(test)]
mod answers;
#[cfg(test)]
mod deep;
#[cfg(test)]
mod lexed;
#[cfg(test)]
mod parsed;
#[cfg(test)]
mod places;
#[cfg(test)]
mod rows;
#[cfg(test)]
mod shown;
#[cfg(test)]
mod tests;
