//! Tests of lines: scripts, conversations of control lines, and the names of commands in both.
#![tactic(auto)]

#[cfg(test)]
mod asserts;
#[cfg(test)]
mod changes;
#[cfg(test)]
mod commands;
#[cfg(test)]
mod conversation_order;
#[cfg(test)]
mod conversations;
#[cfg(test)]
mod escapes;
#[cfg(test)]
mod hostile_json;
#[cfg(test)]
mod hostile_talk;
#[cfg(test)]
mod names;
