//! Tests of books and of the service that threads share, and of workers, callers and the timer over it: what threads do beside
//! one another.
#![tactic(auto)]

#[cfg(test)]
mod accounts;
#[cfg(test)]
mod asking;
#[cfg(test)]
mod books;
#[cfg(test)]
mod calls;
#[cfg(test)]
mod collecting;
#[cfg(test)]
mod commands;
#[cfg(test)]
mod driving;
#[cfg(test)]
mod gates;
#[cfg(test)]
mod lives;
#[cfg(test)]
mod mixed;
#[cfg(test)]
mod receipts;
#[cfg(test)]
mod samples;
#[cfg(test)]
mod script;
#[cfg(test)]
mod services;
#[cfg(test)]
mod stress;
#[cfg(test)]
mod threads;
#[cfg(test)]
mod tunes;
#[cfg(test)]
mod waking;
