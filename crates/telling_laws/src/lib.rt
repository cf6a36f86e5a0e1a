//! What each peer was told of on-change properties, as plain lists that events change: what is kept
//! says what the definitions say of all events. It has no code.
#![tactic(auto)]
