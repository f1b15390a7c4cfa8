//! Tests of what the program does over memory: command lines that are refused, scripts, each line beside its answer, scripts of
//! which some groups are cut out, readers and writers that give and take little or fail, faulty and long lines, and settings
//! that are refused or shown.
#![tactic(auto)]

#[cfg(test)]
mod arguments;
#[cfg(test)]
mod cuts;
#[cfg(test)]
mod explained;
#[cfg(test)]
mod faults;
#[cfg(test)]
mod hostile_settings;
#[cfg(test)]
mod hostile_streams;
#[cfg(test)]
mod lives;
#[cfg(test)]
mod operations;
#[cfg(test)]
mod random_cuts;
#[cfg(test)]
mod runs;
#[cfg(test)]
mod scripts;
#[cfg(test)]
mod settings;
#[cfg(test)]
mod streams;
#[cfg(test)]
mod summaries;
#[cfg(test)]
mod tunes;
