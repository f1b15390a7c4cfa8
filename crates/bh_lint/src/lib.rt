//! All that is amiss in a settings file: what a check of it refuses, and what is in it to no purpose.
#![tactic(auto)]

mod doubt;
mod errors;
mod finding;
mod form;
mod laws;
mod lines;
mod linting;
mod messages;
mod nearest;
mod objects;
mod path;
mod place;
mod put;
mod report;
mod scan;
mod table;
mod telling;
mod told;
mod unknown;
mod warnings;

pub use doubt::Doubt;
pub use finding::{Finding, MOST_SHOWN, Refusal, Stands};
pub use form::{Form, put_findings};
pub use laws::{unused_changes_nothing, used_can_change};
pub use lines::put_lines;
pub use linting::{Findings, lint_tree};
pub use report::{Report, lint};
pub use table::{Part, Table};
pub use telling::MOST_TOLD;
pub use told::Told;
