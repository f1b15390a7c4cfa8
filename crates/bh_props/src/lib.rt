//! The settings of a service: the groups that a TOML file names, and the properties of each
//! (Hystrix wiki, "Configuration").
#![tactic(auto)]

mod by_group;
mod check;
mod commands;
mod error;
mod in_force;
mod look_up;
mod names;
mod print;
mod property;
mod reading;
mod service;
mod settings;
mod settings_file;
mod subject;
mod value;

pub use by_group::{Further, by_group as commands_by_group};
pub use check::{has_whole_buckets, is_at_fault};
pub use commands::{Commands, further_commands};
pub use error::SettingsError;
pub use in_force::{Given, Sections};
pub use look_up::look_up as value_at;
pub use names::{Names, group_names, is_name};
pub use property::{DottedName, Place, Property, Row};
pub use reading::{read, read_tree};
pub use service::{is_group_key, is_known_member};
pub use settings::Settings;
pub use settings_file::settings_in;
pub use subject::{Scope, Subject, subjects as all_subjects};
pub use value::{Fault, Kind, PropertyValue};
