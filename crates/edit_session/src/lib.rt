//! A run of the program over its words, a vault of maps, a script and a sink for replies.
//!
//! `run` reads a map, answers each line of the script as it comes, and keeps the last map; or it says what a map holds; or it
//! keeps a map as a Wavefront OBJ text. Its contract says what it leaves, whatever the map and the script are and whatever the
//! devices do: replies and kept bytes are those of a machine whose state is a list of whole maps; after a fault the replies
//! are a prefix of the right ones and nothing is kept, except that an OBJ text is kept before its summary is given; and each
//! fault has its cause in a device whose count of faults rose in this call. A run over bytes that open as a map that meets no
//! fault ends, or wants memory.
#![tactic(auto)]

mod begun;
mod check_run;
mod edit_run;
mod export_run;
mod faultless;
mod opening;
mod piece;
mod serve;
mod status;
mod summing;
mod whole_run;
mod words;

pub use faultless::quiet_runs_end;
pub use status::{LIMIT, Status, Which};
pub use whole_run::run;
