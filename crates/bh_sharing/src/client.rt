//! One connection to a service that is shared: how its lines are answered, and what it gives back at its end.

ghost use Rattle.std.specs.Prelude.{◌≡◌, false, true};
ghost use Rattle.bh_desk.specs.Turns.{IsTurn, IsWaited};
ghost use Rattle.bh_sharing.specs.Client.{IsAttended, MayTell};
ghost use Rattle.bh_sharing.specs.Shared.{IsReturned, IsShared};
ghost use Rattle.bh_share.specs.declared.share_line.ShareLine.TheVariants as lines;
ghost use Rattle.bh_streams.specs.Watched.{bytes_held, bytes_left};

use crate::service::Service;
use crate::shared::SharedGroups;
use crate::waiters::Waiter;
use bh_base::{GroupId, Op};
use bh_control::put_groups;
use bh_desk::{Buffers, Desk, Turn, converse};
use bh_lease::Leases;
use bh_lines::PortError;
use bh_replies::put_error;
use bh_share::{Directory, ShareLine, put_entry};
use bh_streams::{WatchedReader, WatchedWriter};
use bh_turns::put_in_force;
use std::alloc::{AllocError, Global};
use std::io::{Read, Write};
use std::marker::Model;
use std::rt::Clock;
use std::sync::Wait;

/// How long a connection that has leases or is within a context sleeps before it looks whether its client is gone, in
/// milliseconds.
const LOOK: u64 = 5;

/// The same where nothing waits to be given back.
const IDLE_LOOK: u64 = 50;

/// Whether a client is there.
pub trait Presence {
    /// What is so once the client sends nothing more. It is a fact of the type, whatever the value.
    ghost gone: { Type 0 };

    /// Whether the client sends nothing more.
    fn is_gone(&self) -> bool
        ensures { result ≡ true → gone };
}

/// One connection: what it has of tickets and of request contexts, and the service that it asks.
#[derive(Drop)]
pub struct Client<'e, R, S: Service, P, N: Directory> {
    /// What its calls wait by.
    pub rt: &'e R,
    pub alloc: Global,
    /// The groups that it asks.
    pub shared: &'e SharedGroups<S>,
    /// The names of these groups and of their commands.
    pub names: &'e N,
    /// Whether its client is there.
    pub presence: &'e P,
    /// Its number among the connections, which no other one has at the time.
    pub number: usize,
    /// What it has of tickets and of request contexts.
    pub leases: Leases,
}

impl<'e, R, S: Service, P, N: Directory> Model for Client<'e, R, S, P, N> {
    ghost use Rattle.bh_sharing.specs.Client.{ClientView};

    ghost Value = { ClientView };

    ghost view = { λ c. record { names = N.names c.names.now; leases = c.leases } };
}

impl<'e, R: Wait + Clock, S: Service, P: Presence, N: Directory> Client<'e, R, S, P, N> {
    /// Answers a step, or does nothing where it has to wait.
    fn answer_step(
        &mut self,
        group: GroupId,
        op: &Op,
        wait: bool,
        out: &mut Vec<u8>,
    ) -> Result<Turn, AllocError>
        ensures turn { IsShared S.facts self.old.names group op.now wait self.old.leases out.old.items result self.new.leases out.new.items }
        ensures names { self.new.names ≡ self.old.names }
    {
        self.shared.answer(self.rt, self.names, &mut self.leases, group, op, wait, out)
    }

    /// Answers whether the connection is within the request context now.
    fn answer_entry(
        &mut self,
        group: GroupId,
        context: u64,
        out: &mut Vec<u8>,
    ) -> Result<(), AllocError>
        ensures { IsWaited (MayTell S.facts P.gone) self.old (lines.Enter group context) out.old.items result self.new out.new.items }
    {
        let refused = self.shared.enter(self.rt, &mut self.leases, group, context);
        put_entry(self.alloc, out, refused)
    }

    /// Answers what is in force of a command.
    fn answer_in_force(
        &self,
        group: GroupId,
        command: u8,
        out: &mut Vec<u8>,
    ) -> Result<(), AllocError>
        ensures { IsWaited (MayTell S.facts P.gone) self.now (lines.Properties group command) out.old.items result self.now out.new.items }
    {
        let found = self.shared.in_force(self.rt, group, command);
        put_in_force(self.alloc, found, out)
    }

    /// Answers a step that is not to wait.
    fn answer_now(&mut self, group: GroupId, op: &Op, out: &mut Vec<u8>) -> Result<(), AllocError>
        ensures { IsWaited (MayTell S.facts P.gone) self.old (lines.Step group op.now false) out.old.items result self.new out.new.items }
    {
        match self.answer_step(group, op, false, out) {
            Ok(Turn::Answered) => Ok(()),
            Ok(Turn::Waits) => unreachable!(),
            Err(refused) => Err(refused),
        }
    }

    /// Answers a step that is to wait, and is known to wait meanwhile.
    fn answer_waiting(
        &mut self,
        group: GroupId,
        op: &Op,
        out: &mut Vec<u8>,
    ) -> Result<(), AllocError>
        ensures { IsWaited (MayTell S.facts P.gone) self.old (lines.Step group op.now true) out.old.items result self.new out.new.items }
    {
        let waiter = Waiter {
            group,
            ticket: ticket_of(op),
            told: false,
        };
        self.shared.begin_wait(self.rt, self.number, waiter);
        let answered = self.await_step(group, op, out);
        self.shared.end_wait(self.rt, self.number, group);
        answered
    }

    /// Answers a step once it need not wait, the service is stopped or the client is gone; of a client that is gone no step
    /// is made.
    fn await_step(&mut self, group: GroupId, op: &Op, out: &mut Vec<u8>) -> Result<(), AllocError>
        ensures { IsWaited (MayTell S.facts P.gone) self.old (lines.Step group op.now true) out.old.items result self.new out.new.items }
    {
        for _ in self.rt.forever() {
            match self.answer_step(group, op, true, out) {
                Ok(Turn::Answered) => return Ok(()),
                Ok(Turn::Waits) => {}
                Err(refused) => return Err(refused),
            }
            self.shared.sleep(self.rt, self.number, self.patience());
            if !self.shared.service().is_stopped() && self.presence.is_gone() {
                return put_error(self.alloc, out, "gone");
            }
        }
        unreachable!()
    }

    /// How long it sleeps before it looks whether its client is gone.
    fn patience(&self) -> u64 {
        if self.leases.as_slice().is_empty() && self.leases.contexts().is_empty() {
            IDLE_LOOK
        } else {
            LOOK
        }
    }

    /// Gives back all that it has.
    fn end(&mut self)
        ensures returned { IsReturned S.facts self.old.leases self.new.leases }
        ensures names { self.new.names ≡ self.old.names }
    {
        self.shared.give_back(self.rt, &mut self.leases);
    }
}

impl<'e, R: Wait + Clock, S: Service, P: Presence, N: Directory> Desk for Client<'e, R, S, P, N> {
    ghost use Rattle.bh_sharing.specs.Client.{MayTell};

    ghost may = { MayTell S.facts P.gone };

    fn answer(&mut self, line: &ShareLine, out: &mut Vec<u8>) -> Result<Turn, AllocError> {
        match line {
            ShareLine::Groups => match put_groups(self.alloc, self.names.groups(), out) {
                Ok(()) => Ok(Turn::Answered),
                Err(refused) => Err(refused),
            },
            ShareLine::Properties { group, command } => {
                match self.answer_in_force(*group, *command, out) {
                    Ok(()) => Ok(Turn::Answered),
                    Err(refused) => Err(refused),
                }
            }
            ShareLine::Enter { group, context } => {
                match self.answer_entry(*group, *context, out) {
                    Ok(()) => Ok(Turn::Answered),
                    Err(refused) => Err(refused),
                }
            }
            ShareLine::Step { group, op, wait } => self.answer_step(*group, op, *wait, out),
        }
    }

    fn answer_late(&mut self, line: &ShareLine, out: &mut Vec<u8>) -> Result<(), AllocError> {
        match line {
            ShareLine::Groups => put_groups(self.alloc, self.names.groups(), out),
            ShareLine::Properties { group, command } => {
                self.answer_in_force(*group, *command, out)
            }
            ShareLine::Enter { group, context } => self.answer_entry(*group, *context, out),
            ShareLine::Step { group, op, wait } => {
                if *wait {
                    self.answer_waiting(*group, op, out)
                } else {
                    self.answer_now(*group, op, out)
                }
            }
        }
    }
}

/// The ticket whose answer a step asks for.
fn ticket_of(op: &Op) -> Option<u64> {
    match op {
        Op::Collect { serial } => Some(*serial),
        _ => None,
    }
}

/// Answers the lines of a connection to the end of its input, in buffers that further connections may be answered in, and
/// gives back all that it has then, however it ended.
///
/// The errors are those of `converse`.
pub fn attend<R: Wait + Clock, S: Service, P: Presence, N: Directory, I: Read, O: Write>(
    client: Client<'_, R, S, P, N>,
    buffers: &mut Buffers,
    reader: &mut WatchedReader<'_, I>,
    writer: &mut WatchedWriter<'_, O>,
) -> Result<(), PortError>
    ensures { IsAttended S.facts P.gone client.entry (bytes_left I.remaining reader.old) (bytes_held O.contents writer.old) (bytes_held O.contents writer.new) result }
{
    let mut client = client;
    let outcome = converse(
        buffers,
        client.alloc,
        client.names,
        reader,
        writer,
        &mut client,
    );
    client.end();
    outcome
}
