//! Slots that are noted, to be looked at again.

ghost use Rattle.std.specs.Prelude.{◌≡◌, ◌<◌, [], ◌∷◌, ◌++◌, take};
ghost use Rattle.bh_cache.specs.Notes.{IsNoted, most_noted, nothing};

/// How many slots may be noted one by one, as those of tickets that a step left needless.
pub const MOST_NOTED: usize = 8;

/// A few slots: the first `count` entries.
#[derive(Clone, Copy, Debug)]
pub struct FewSlots {
    pub slots: [u32; MOST_NOTED],
    pub count: usize,
}

/// Slots that are noted, to be looked at again.
#[derive(Clone, Copy, Debug)]
pub enum Noted {
    /// These.
    Few(FewSlots),
    /// More than there is room for: it may be any.
    Many,
}

/// No slot.
pub fn nothing() -> Noted
    ensures { result ≡ nothing }
{
    Noted::Few(FewSlots {
        slots: [0; MOST_NOTED],
        count: 0,
    })
}

/// What was noted, and one slot more.
pub fn with_slot(notes: Noted, slot: u32) -> Noted
    ensures { IsNoted slot notes result }
{
    let Noted::Few(few) = notes else {
        return Noted::Many;
    };
    if few.count >= MOST_NOTED {
        return Noted::Many;
    }
    Noted::Few(one_more(few, slot))
}

/// A slot more, where there is room.
fn one_more(few: FewSlots, slot: u32) -> FewSlots
    requires { few.count < most_noted }
    ensures { take result.count result.slots ≡ take few.count few.slots ++ slot ∷ [] }
{
    let mut slots = few.slots;
    slots[few.count] = slot;
    FewSlots {
        slots,
        count: few.count + 1,
    }
}
