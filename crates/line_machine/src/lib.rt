//! Scripts of lines and machines that answer them: what it means that bytes given to a sink are a machine's replies to a
//! script, to its end or as far as they go.
//!
//! A machine is a start and a step from a state and a line to a reply and the next state. Nothing here speaks of maps, and
//! nothing here runs: the crate promises the laws by which a reader that gets its script in pieces, and gives its replies in
//! pieces, shows that it answers whole lines in their order.
#![tactic(auto)]
