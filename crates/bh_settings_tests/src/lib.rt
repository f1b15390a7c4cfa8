//! Tests of settings files: what is read, what is shown, why a file is refused, and what a lint tells.
#![tactic(auto)]

#[cfg(test)]
mod asserts;
#[cfg(test)]
mod further_commands;
#[cfg(test)]
mod lint_findings;
#[cfg(test)]
mod lint_forms;
#[cfg(test)]
mod settings;
