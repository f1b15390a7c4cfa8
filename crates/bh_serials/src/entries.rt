//! The entries of a table, and the place of a serial among them.

ghost use Rattle.std.specs.Prelude.{◌≡◌, ◌≢◌, ℕ, ◌<◌, length, vec_capacity, vec_len, IfSome, None};
ghost use Rattle.bh_serials.specs.Entries.{IsAt, IsRising, alive_in, entry_at};

/// A serial that was added, and the slot of its ticket; None once the ticket has left.
#[derive(Clone, Copy, Debug)]
pub struct Entry {
    pub serial: u64,
    pub slot: Option<u32>,
}

/// The place of the serial among entries of rising serials up to the latest.
pub fn place_of(entries: &[Entry], latest: u64, serial: u64) -> Option<usize>
    requires { IsRising 0 latest entries.now }
    ensures found { IfSome result (λ place. IsAt place serial entries.now) }
    ensures none { result ≡ None → (k : ℕ) → k < length entries.now → (entry_at entries.now k).serial ≢ serial }
{
    if let Some(place) = guessed_place(entries, latest, serial) {
        return Some(place);
    }
    entries
        .binary_search_by_key(&serial, |entry| entry.serial)
        .ok()
}

/// The place of the serial, where the serials from it up to the latest follow on one another, as those of the newest
/// entries do.
fn guessed_place(entries: &[Entry], latest: u64, serial: u64) -> Option<usize>
    ensures { IfSome result (λ place. IsAt place serial entries.now) }
{
    let newer = latest.checked_sub(serial)?;
    let count = entries.len();
    if newer >= count as u64 {
        return None;
    }
    let place = count - 1 - newer as usize;
    if entries[place].serial != serial {
        return None;
    }
    Some(place)
}

/// Where the memory is full, the entries that have no slot go.
pub fn make_room(entries: &mut Vec<Entry>)
    requires { length (alive_in entries.old.items) < vec_capacity entries.old }
    ensures alive { alive_in entries.new.items ≡ alive_in entries.old.items }
    ensures rising { (low high : ℕ) → IsRising low high entries.old.items → IsRising low high entries.new.items }
    ensures room { vec_len entries.new < vec_capacity entries.new }
    ensures memory { vec_capacity entries.new ≡ vec_capacity entries.old }
{
    if entries.len() == entries.capacity() {
        entries.retain(|entry| entry.slot.is_some());
    }
}
