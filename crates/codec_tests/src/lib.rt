//! What no line shows of the codecs: packets of each kind as they are written, and the numbers below them.
#![tactic(auto)]

#[cfg(test)]
mod fields;
#[cfg(test)]
mod rows;
#[cfg(test)]
mod sound;
#[cfg(test)]
mod written_packets;
