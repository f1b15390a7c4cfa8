//! What the clients of one group ask for, one step after another.

use crate::chance::Chance;

/// So many tickets of a group are under way at most.
const MOST_UNDER_WAY: u64 = 6;

/// After so many lines a tenant goes, once nothing of it is under way.
const LIFE: u64 = 90;

/// What a line says.
#[derive(Clone, Copy)]
pub enum Act {
    Register,
    Retire,
    Submit(u64),
    Start,
    Finish(u64),
    Fail { ticket: u64, bad: bool },
    Collect(u64),
    Fallback(u64),
    Close(u64),
    Read,
    Expire,
}

/// What comes next for the ticket that is to end.
#[derive(Clone, Copy)]
enum Stage {
    /// The group is not there.
    Gone,
    /// Nothing of it has ended.
    Open,
    /// A second request asks for the same answer.
    Joining,
    /// An answer is there.
    Collecting,
    /// And another holder of it.
    CollectingAgain,
    /// Its context ends.
    Closing,
    /// It failed.
    NeedsFallback,
    InFallback,
}

/// The clients of a group, who know which tickets they hold.
#[derive(Clone, Copy)]
pub struct Client {
    /// By which the group is named.
    pub number: u64,
    pub is_tenant: bool,
    /// Whether its callers run its requests themselves.
    pub is_inline: bool,
    stage: Stage,
    /// The serial of the next ticket, of the next one to start, and of the next one to end.
    next: u64,
    to_start: u64,
    to_end: u64,
    lines: u64,
}

/// Whether the answer of the ticket is shared within a context.
pub(crate) fn is_cached(ticket: u64) -> bool {
    ticket % 4 == 0
}

/// Whether two requests share it.
fn is_joined(ticket: u64) -> bool {
    ticket % 8 == 0
}

impl Client {
    /// The clients of a group of the settings.
    pub(crate) fn of_group(number: u64) -> Client {
        Client {
            number,
            is_tenant: false,
            is_inline: number % 4 == 3,
            stage: Stage::Open,
            next: 1,
            to_start: 1,
            to_end: 1,
            lines: 0,
        }
    }

    /// The clients of a group that is still to come.
    pub(crate) fn of_tenant() -> Client {
        Client {
            is_tenant: true,
            stage: Stage::Gone,
            ..Client::of_group(0)
        }
    }

    /// Whether the group is not there.
    pub(crate) fn is_gone(&self) -> bool {
        matches!(self.stage, Stage::Gone)
    }

    /// A group of the number comes, like one whose requests are run so.
    pub(crate) fn come(&mut self, number: u64, is_inline: bool) -> Act {
        *self = Client {
            number,
            is_tenant: true,
            is_inline,
            stage: Stage::Open,
            ..*self
        };
        self.next = 1;
        self.to_start = 1;
        self.to_end = 1;
        self.lines = 0;
        Act::Register
    }

    /// What they ask for next. A tenant may go where others may still come.
    pub(crate) fn act(&mut self, chance: &mut Chance, may_go: bool) -> Act {
        self.lines = self.lines.saturating_add(1);
        let ticket = self.to_end;
        match self.stage {
            Stage::Gone | Stage::Open => self.open(chance, may_go),
            Stage::Joining => {
                self.stage = Stage::Open;
                Act::Submit(self.next.saturating_sub(1))
            }
            Stage::Collecting if is_joined(ticket) => {
                self.stage = Stage::CollectingAgain;
                Act::Collect(ticket)
            }
            Stage::Collecting | Stage::CollectingAgain => {
                self.collected();
                Act::Collect(ticket)
            }
            Stage::Closing => {
                self.ended();
                Act::Close(ticket)
            }
            Stage::NeedsFallback => {
                self.stage = Stage::InFallback;
                Act::Collect(ticket)
            }
            Stage::InFallback => {
                self.stage = Stage::Collecting;
                Act::Fallback(ticket)
            }
        }
    }

    /// All answers of the ticket are collected.
    fn collected(&mut self) {
        if is_cached(self.to_end) {
            self.stage = Stage::Closing;
        } else {
            self.ended();
        }
    }

    /// Nobody asks for the ticket any more.
    fn ended(&mut self) {
        self.stage = Stage::Open;
        self.to_end = self.to_end.saturating_add(1);
    }

    /// What they ask for where nothing is half done.
    fn open(&mut self, chance: &mut Chance, may_go: bool) -> Act {
        let under_way = self.next.saturating_sub(self.to_end);
        if may_go && self.is_tenant && under_way == 0 && self.lines > LIFE {
            self.stage = Stage::Gone;
            return Act::Retire;
        }
        match chance.below(16) {
            0 => Act::Read,
            1 => Act::Expire,
            2..=6 if self.to_start < self.next => self.start(),
            7..=11 if under_way < MOST_UNDER_WAY => self.submit(),
            _ if self.to_end < self.to_start => self.end(),
            _ if self.to_start < self.next => self.start(),
            _ => self.submit(),
        }
    }

    fn submit(&mut self) -> Act {
        let ticket = self.next;
        self.next = ticket.saturating_add(1);
        if self.is_inline {
            self.to_start = self.next;
        }
        if is_joined(ticket) {
            self.stage = Stage::Joining;
        }
        Act::Submit(ticket)
    }

    fn start(&mut self) -> Act {
        self.to_start = self.to_start.saturating_add(1);
        Act::Start
    }

    /// The run of the next ticket ends: one in eight fails, and one in thirty-two was a bad request.
    fn end(&mut self) -> Act {
        let ticket = self.to_end;
        if ticket % 8 == 5 {
            self.stage = Stage::NeedsFallback;
            return Act::Fail { ticket, bad: false };
        }
        self.stage = Stage::Collecting;
        if ticket % 32 == 7 {
            return Act::Fail { ticket, bad: true };
        }
        Act::Finish(ticket)
    }
}
