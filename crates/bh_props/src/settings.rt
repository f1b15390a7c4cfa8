//! The settings of a file that nothing refuses.

ghost use Rattle.std.specs.Prelude.{◌≡◌, ◌≤◌, [], ◌∷◌, None, length, map, All, IfOk, IfSome};
ghost use Rattle.std.proofs.Props.{props};
ghost use Rattle.toml.specs.View.{view};
ghost use Rattle.bh_base.specs.Commands.{each_from};
ghost use Rattle.bh_base.specs.Ranges.{IsInRange, IsQueueLength-prop};
ghost use Rattle.bh_props.specs.Commands.{Commands};
ghost use Rattle.bh_props.specs.ByGroup.{AreByGroup};
ghost use Rattle.bh_props.specs.InForce.{in_force};
ghost use Rattle.bh_props.specs.Found.{AreFound, IsFound};
ghost use Rattle.bh_props.specs.Names.{first_twice};
ghost use Rattle.bh_props.specs.Settings.{IsAuditLimit, IsFurther, truth, strategy, optional_number, props_of, command_in_force, group_in_force};

use crate::by_group::Further;
use crate::in_force::{Given, Sections};
use crate::property::Property;
use crate::value::PropertyValue;
use bh_base::{CommandProps, GroupProps, Strategy, Text};
use indexmap::IndexMap;
use std::alloc::{AllocError, Global};

/// The settings of a service. Each number is in its range.
#[derive(Debug, Drop)]
pub struct Settings {
    /// The properties of each group, in listed order.
    pub groups: IndexMap<Text<32>, GroupProps>,
    /// From each further command's name to its group's place, from 0, and its number there, from 1; in the order of the
    /// names' bytes.
    pub commands: IndexMap<Text<32>, (u32, u8)>,
    /// `service.auditSteps`: the steps that an audited service may do in each group, 1 to 1,000,000; None without
    /// audit.
    pub audit_steps: Option<u64>,
    /// The numbers of each group are in their ranges.
    pub ghost in_range: { All (λ group. IsInRange group.1) groups.entries } by { Prim.hlevel (props, IsQueueLength-prop) },
    /// The limit of audited steps is.
    pub ghost audit: { IfSome audit_steps IsAuditLimit } by { Prim.hlevel props },
    /// Each further command is one of a group that is there.
    pub ghost known_commands: { All (λ command. IsFurther groups.entries command.1) commands.entries } by { Prim.hlevel props },
}

/// The groups in listed order, each with its properties in force. The further commands stand by groups.
pub(crate) fn groups_in_force(
    alloc: Global,
    sections: &Sections,
    names: &[Text<32>],
    further: &[Vec<Further>],
) -> Result<IndexMap<Text<32>, GroupProps>, AllocError>
    requires found { AreFound sections.now }
    requires distinct { first_twice [] 1 names.now ≡ None }
    requires few { length names.now ≤ 1000 }
    requires groups { length further.now ≡ length names.now }
    ensures { IfOk result (λ groups. (commands : Commands) → AreByGroup commands further.now
        → groups.entries ≡ each_from 0 (group_in_force (view sections.now.root.now) commands) names.now) }
{
    let mut groups = IndexMap::new(alloc);
    for (place, name) in names.iter().enumerate() {
        let own = commands_in_force(alloc, sections, name.as_str(), &further[place])?;
        groups.insert(*name, props_in_force(sections, name.as_str(), own))?;
    }
    Ok(groups)
}

/// The properties of the commands of a group, by their numbers: its own, then its further ones.
fn commands_in_force(
    alloc: Global,
    sections: &Sections,
    group: &str,
    further: &[Further],
) -> Result<Vec<CommandProps>, AllocError>
    requires { AreFound sections.now }
    ensures { IfOk result (λ own. own.items
        ≡ command_in_force (view sections.now.root.now) group.now ∷ map (λ c. command_in_force (view sections.now.root.now) c.0) further.now) }
{
    let mut own = Vec::with_capacity(alloc, further.len() + 1)?;
    own.push(command_in_force(sections, group))?;
    for command in further {
        own.push(command_in_force(sections, command.0.as_str()))?;
    }
    Ok(own)
}

/// The limit of audited steps.
pub(crate) fn audit_steps_in_force(sections: &Sections) -> Option<u64>
    requires { AreFound sections.now }
    ensures { result ≡ optional_number (in_force Property.AuditSteps [] (view sections.now.root.now)) }
{
    sections.named("").optional_number(Property::AuditSteps)
}

/// The properties of a group with these commands, each by the value in force.
fn props_in_force(sections: &Sections, group: &str, commands: Vec<CommandProps>) -> GroupProps
    requires { AreFound sections.now }
    ensures { result ≡ props_of commands.items (λ p. in_force p group.now (view sections.now.root.now)) }
{
    let given = sections.named(group);
    GroupProps {
        slots: given.number(Property::Slots),
        core: given.number(Property::CoreSize),
        max_queue: given.optional_number(Property::MaxQueue),
        queue_threshold: given.number(Property::QueueThreshold),
        commands,
    }
}

/// The properties of a command, each by the value in force.
fn command_in_force(sections: &Sections, name: &str) -> CommandProps
    requires { AreFound sections.now }
    ensures { result ≡ command_in_force (view sections.now.root.now) name.now }
{
    let given = sections.named(name);
    CommandProps {
        strategy: given.strategy(),
        timeout_ms: given.number(Property::Timeout),
        timeout_on: given.truth(Property::TimeoutOn),
        semaphore: given.number(Property::Semaphore),
        fallback_permits: given.number(Property::FallbackPermits),
        fallback_on: given.truth(Property::FallbackOn),
        circuit_on: given.truth(Property::CircuitOn),
        volume: given.number(Property::Volume),
        sleep_ms: given.number(Property::SleepWindow),
        percent: given.number(Property::ErrorPercent),
        force_open: given.truth(Property::ForceOpen),
        force_closed: given.truth(Property::ForceClosed),
        window_ms: given.number(Property::Window),
        buckets: given.number(Property::Buckets),
        health_ms: given.number(Property::HealthInterval),
        cache_on: given.truth(Property::CacheOn),
    }
}

impl Given<'_> {
    /// The truth value in force of a property that is one and has no fault.
    fn truth(&self, property: Property) -> bool
        requires { IsFound self.now }
        ensures { result ≡ truth (in_force property self.now.name.now (view self.now.sections.root.now)) }
    {
        match self.in_force(property) {
            Ok(PropertyValue::Truth(b)) => b,
            _ => false,
        }
    }

    /// The strategy in force.
    fn strategy(&self) -> Strategy
        requires { IsFound self.now }
        ensures { result ≡ strategy (in_force Property.Strategy self.now.name.now (view self.now.sections.root.now)) }
    {
        match self.in_force(Property::Strategy) {
            Ok(PropertyValue::Strategy(strategy)) => strategy,
            _ => Strategy::Thread,
        }
    }

    /// The number in force of a property that may be left out.
    fn optional_number(&self, property: Property) -> Option<u64>
        requires { IsFound self.now }
        ensures { result ≡ optional_number (in_force property self.now.name.now (view self.now.sections.root.now)) }
    {
        match self.in_force(property) {
            Ok(PropertyValue::Number(n)) => Some(n),
            _ => None,
        }
    }
}
