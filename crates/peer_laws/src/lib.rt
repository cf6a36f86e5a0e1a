//! What each built event makes of the list of events of one peer: its tree, its rows, who is up, what is sent, and why it is refused.
#![tactic(auto)]
