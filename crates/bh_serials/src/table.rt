//! The table of a group.

ghost use Rattle.std.specs.Prelude.{◌≡◌, ◌+◌, ◌<◌, ◌≤◌, length, is_some, true, IfOk};
ghost use Rattle.bh_serials.specs.TableView.{no_entries, slot_of, with_entry, without_serial};

use crate::entries::{Entry, make_room, place_of};
use std::alloc::{AllocError, Global};
use std::marker::Model;

/// The slots of the tickets of one group, by their serials, which rise by one with each ticket.
///
/// All its memory is taken as it is made.
#[derive(Drop)]
pub struct SerialTable {
    /// By rising serial. Those whose ticket left stay until the memory is full.
    entries: Vec<Entry>,
    /// The serial that was added last.
    latest: u64,
    room: u64,
}

impl Model for SerialTable {
    ghost use Rattle.bh_serials.specs.TableView.{TableView};

    ghost Value = { TableView };

    ghost use Rattle.bh_serials.specs.Fields.{table_of, IsTable};

    ghost view = { table_of };

    ghost invariant = { IsTable };
}

impl SerialTable {
    /// No ticket, and room for so many at a time.
    pub fn new(alloc: Global, room: u64) -> Result<Self, AllocError>
        requires { room ≤ 4096 }
        ensures { IfOk result (λ table. table ≡ no_entries room) }
    {
        Ok(SerialTable {
            entries: Vec::with_capacity(alloc, 2 * room as usize)?,
            latest: 0,
            room,
        })
    }

    /// For how many tickets at a time there is room.
    pub fn room(&self) -> u64
        ensures { result ≡ self.now.room }
    {
        self.room
    }

    /// The slot of the ticket of the serial. It looks at one entry where the ticket is new, and at fourteen more at most.
    pub fn find(&self, serial: u64) -> Option<u32>
        ensures { result ≡ slot_of self.now.entries serial }
    {
        let place = place_of(&self.entries, self.latest, serial)?;
        self.entries[place].slot
    }

    /// A ticket of the serial, which is greater than all before it, has come into the slot. Where the memory is full, the
    /// entries of tickets that left go first, which are half of them at least.
    pub fn add(&mut self, serial: u64, slot: u32)
        requires later { self.old.latest < serial }
        requires room { length self.old.entries < self.old.room }
        ensures { self.new ≡ with_entry serial slot self.old }
    {
        make_room(&mut self.entries);
        self.entries.push_reserved(Entry {
            serial,
            slot: Some(slot),
        });
        self.latest = serial;
    }

    /// The ticket of the serial has left, where there was one.
    pub fn remove(&mut self, serial: u64)
        ensures left { self.new ≡ without_serial serial self.old }
        ensures one { is_some (slot_of self.old.entries serial) ≡ true → length self.new.entries + 1 ≡ length self.old.entries }
    {
        if let Some(place) = place_of(&self.entries, self.latest, serial) {
            self.entries[place].slot = None;
        }
    }

    /// All tickets have left, and serials begin anew.
    pub fn clear(&mut self)
        ensures { self.new ≡ no_entries self.old.room }
    {
        self.entries.clear();
        self.latest = 0;
    }
}
