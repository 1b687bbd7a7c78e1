//! Participant configurations: JSON that names a participant, its services and its registry.
//!
//! [`read_config`] reads the bytes of a file. What it answers is a function of them: the
//! configuration with the paths of all keys that were passed over, or the first fault in the order
//! of the table of keys, with its path. A [`Config`] keeps the rules of the format in its type, so
//! no layer above checks it again. [`config_text`] writes its one canonical text, which reads back
//! to the same configuration without a warning, and [`apply`] overrides the services of a
//! participant by it.
//!
//! Reading takes memory for the JSON value and the result; each key is looked at once by the
//! reader and once among the keys that an object may have. `serde_json` nests at most 127 deep.
//!
//! ```text
//! match read_config(alloc, bytes) {
//!     Ok(read) => .. read.config .. read.warnings.as_slice() ..,
//!     Err(fault) => .. fault.path() .. fault.rule() ..,
//! }
//! ```
#![tactic(auto)]

mod address;
mod config;
mod fault;
pub mod json;
mod keys;
pub mod laws;
mod overrides;
mod path;
mod read;
mod warning;
mod write;

pub use address::is_address;
pub use config::{Config, ConfigEntry, ConfigRead};
pub use fault::ConfigFault;
pub use overrides::{apply, apply_at};
pub use path::Path;
pub use read::{read_config, read_value};
pub use warning::{Warning, Warnings};
pub use write::config_text;
