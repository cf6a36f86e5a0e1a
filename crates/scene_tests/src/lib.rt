//! What no line shows of scenes and trees: copies, the calls of a tree that no session makes, and what
//! frames tell where memory is ample.
#![tactic(auto)]

#[cfg(test)]
mod copies;
#[cfg(test)]
mod told;
#[cfg(test)]
mod tree_calls;
