// Examples with answers from outside: cases worked by hand, printed figures, and arguments at the
// edges of the rules. A crate with tests is proved twice, so the tests of all libraries stand here.
#![tactic(auto)]

#[cfg(test)]
mod bases;
#[cfg(test)]
mod commands;
#[cfg(test)]
mod contracts;
#[cfg(test)]
mod numbers;
#[cfg(test)]
mod pieces;
#[cfg(test)]
mod plans;
#[cfg(test)]
mod sessions;
#[cfg(test)]
mod sheets;
#[cfg(test)]
mod valuations;
