//! What ends a service: a fault of its own, the word to stop, or first one and then the other.

ghost use Rattle.std.specs.Prelude.{◌≡◌, None, false};
ghost use Rattle.bh_serve.specs.Ending.{after_fault, after_word, due, is_over, status_of};

use crate::serve::ServeError;
use std::marker::Model;

/// The status where the connections were served, or the service was told to stop.
const SERVED: u8 = 0;

/// The status where a fault ended the service.
const FAULT: u8 = 3;

/// What is to be done because a service ends.
#[derive(Clone, Copy, Debug, PartialEq, Eq)]
pub enum Due {
    /// The fault is to be told.
    Fault(ServeError),
    /// The connections are to be closed.
    Close,
}

/// What has ended a service, if anything has. The first fault ends it, unless it was told to stop before; the word to
/// stop counts whatever went before it.
#[derive(Drop)]
pub struct Ending {
    fault: Option<ServeError>,
    told: bool,
}

impl Model for Ending {
    ghost use Rattle.bh_serve.specs.Ending.{EndingView};

    ghost Value = { EndingView };

    ghost view = { λ e. record { fault = e.fault; told = e.told } };
}

impl Ending {
    /// Nothing has ended the service.
    pub fn new() -> Ending
        ensures { result ≡ record { fault = None; told = false } }
    {
        Ending {
            fault: None,
            told: false,
        }
    }

    /// A fault comes. It counts for nothing where the service has been ended.
    pub fn fail(&mut self, error: ServeError)
        ensures { self.new ≡ after_fault error self.old }
    {
        if !self.is_over() {
            self.fault = Some(error);
        }
    }

    /// The service is told to stop.
    pub fn tell(&mut self)
        ensures { self.new ≡ after_word self.old }
    {
        self.told = true;
    }

    /// Whether anything has ended the service.
    pub fn is_over(&self) -> bool
        ensures { result ≡ is_over self.now }
    {
        self.told || self.fault.is_some()
    }

    /// Whether the service was told to stop.
    pub fn was_told(&self) -> bool
        ensures { result ≡ self.now.told }
    {
        self.told
    }

    /// What is to be done next, where so much of the ending has been seen to.
    pub fn due(&self, seen: &Ending) -> Option<Due>
        ensures { result ≡ due seen.now self.now }
    {
        match self.fault {
            Some(error) if seen.fault.is_none() => Some(Due::Fault(error)),
            _ if self.told && !seen.told => Some(Due::Close),
            _ => None,
        }
    }

    /// The exit status of a service that ended so.
    pub fn status(&self) -> u8
        ensures { result ≡ status_of self.now }
    {
        match self.fault {
            Some(_) => FAULT,
            None => SERVED,
        }
    }
}
