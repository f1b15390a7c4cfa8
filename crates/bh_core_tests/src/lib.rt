//! Tests of the core, in which all groups live, by its public calls.
#![tactic(auto)]

#[cfg(test)]
mod cache;
#[cfg(test)]
mod chains;
#[cfg(test)]
mod commands;
#[cfg(test)]
mod groups;
#[cfg(test)]
mod lives;
#[cfg(test)]
mod looks;
#[cfg(test)]
mod random;
#[cfg(test)]
mod random_lives;
#[cfg(test)]
mod retired_runs;
#[cfg(test)]
mod rules;
#[cfg(test)]
mod samples;
#[cfg(test)]
mod script;
#[cfg(test)]
mod several_commands;
#[cfg(test)]
mod tunes;
