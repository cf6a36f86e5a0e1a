//! What no line shows: sources that give little or fail, sinks that fail, small limits, and a spent peer.
#![tactic(auto)]

#[cfg(test)]
mod faults;
#[cfg(test)]
mod limits;
#[cfg(test)]
mod line_readers;
#[cfg(test)]
mod peers;
#[cfg(test)]
mod rows;
