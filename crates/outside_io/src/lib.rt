//! The outside of the program: where bytes come from, where replies go, and where texts are
//! fetched from and kept under their names.
//!
//! Each is a trait whose contract says which bytes a call moved, where the object tells what it
//! holds, and that a fault comes only where the object's count of faults rose. Code that is
//! generic over these traits can't raise a count, so it can't make up a fault. There are forms
//! over memory with faults at chosen calls, forms that never fail, and thin adapters over
//! streams and files, which tell nothing of what they hold.
#![tactic(auto)]

mod calls;
mod faults;
mod files;
mod mem_sink;
mod mem_source;
mod mem_vault;
mod sink;
mod source;
mod streams;
mod sure;
mod sure_vault;
mod texts;
mod vault;
mod whole;
mod whole_streams;

pub use faults::{Failed, FetchEnd};
pub use files::FileVault;
pub use mem_sink::MemSink;
pub use mem_source::MemSource;
pub use mem_vault::MemVault;
pub use sink::Sink;
pub use source::Source;
pub use streams::{StdSink, StdSource};
pub use sure::{SureSink, SureSource};
pub use sure_vault::SureVault;
pub use vault::Vault;
pub use whole::give_all;
pub use whole_streams::{read_whole, write_whole};
