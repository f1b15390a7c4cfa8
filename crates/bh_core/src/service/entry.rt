//! What is kept of a group by its number.

ghost use Rattle.std.specs.Prelude.{◌≡◌};
ghost use Rattle.bh_core.specs.Whole.{retired_entry};

use crate::group::Group;
use bh_base::GroupProps;
use std::alloc::Global;
use std::mem;

/// With what a group was registered.
#[derive(Drop)]
pub struct Registration {
    pub props: GroupProps,
    /// How many steps the group might do.
    pub limit: u64,
}

/// What is kept of a group by its number, from its registration on.
#[derive(Drop)]
pub enum Entry {
    Live(Group),
    Retired(Registration),
}

impl Registration {
    /// Stands for a registration while that is moved.
    fn none(alloc: Global) -> Self {
        Registration {
            props: GroupProps {
                slots: 0,
                core: 0,
                max_queue: None,
                queue_threshold: 0,
                commands: Vec::new(alloc),
            },
            limit: 0,
        }
    }
}

impl Entry {
    /// The group is retired: what its steps needed is given up.
    pub fn retire(&mut self, alloc: Global)
        ensures { self.new ≡ retired_entry self.old }
    {
        let was = mem::replace(self, Entry::Retired(Registration::none(alloc)));
        *self = match was {
            Entry::Live(group) => Entry::Retired(group.into_registration()),
            Entry::Retired(registration) => Entry::Retired(registration),
        };
    }
}
