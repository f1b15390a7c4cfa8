//! What the program does: a run over a script, a cut and a picture of one, a check of settings, and a service on a port.
#![tactic(auto)]

pub mod check;
pub mod cut;
pub mod draw;
pub mod explain;
pub mod file;
mod folder;
pub mod lint;
pub mod place;
mod record_file;
pub mod report;
pub mod run;
pub mod serve;
pub mod socket;
pub mod streams;
pub mod summary;

pub use check::{check_explained, check_file};
pub use cut::cut_file;
pub use draw::{Drawing, draw_file};
pub use file::{FILE_LIMIT, FileError, Unread, read_file};
pub use lint::{Linting, lint_file};
pub use place::Place;
pub use run::{Explained, run_explained, run_file};
pub use serve::{Service, Serving, serve_file, watch};
pub use streams::StandIns;
pub use summary::{SummaryForm, summary_file};
