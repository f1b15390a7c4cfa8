//! Settings, and the groups of a core.

use crate::refusing::{assert_told, give_up};
use crate::worked::{SLOTS, assert_new, props_of_two, two_groups};
use bh_base::{CommandProps, GroupId};
use bh_core::{Act, Core, Outcome, RegisterError, RetireError};
use bh_props::{SettingsError, read};
use bh_scripts::refusing::{MANY, none_refused, refuse};
use bh_scripts::worked::{replies, steps};
use std::alloc::AllocError;
use std::process::Abort;

/// Each section and each kind of value comes in it.
const EXAMPLE: &str = "service.groups = [\"orders\", \"mail\"]
service.auditSteps = 1000
service.slots.mail = 16
service.command.invoice.group = \"orders\"
hystrix.command.default.execution.isolation.thread.timeoutInMilliseconds = 500
hystrix.command.mail.execution.isolation.strategy = \"SEMAPHORE\"
hystrix.command.mail.requestCache.enabled = false
hystrix.threadpool.orders.coreSize = 4
";

#[test]
fn settings_are_read_or_not(rt: HostRuntime) {
    for nth in 1..MANY {
        refuse(rt.alloc(), nth);
        let told = read(rt.alloc(), EXAMPLE);
        assert_told(&rt, nth, told.is_ok());
        match told {
            Ok(settings) => {
                assert_eq!(rt; settings.groups.len(), 2);
                assert_eq!(rt; settings.commands.len(), 1);
                assert_eq!(rt; settings.audit_steps, Some(1000));
                return;
            }
            Err(error) => assert_eq!(rt; error, SettingsError::Memory),
        }
    }
    give_up(&rt);
}

/// The further commands of the example are gathered in a list of the one group that has some, which lies in another.
const LISTS: usize = 2;

/// Where there is no room for a list of the further commands, the lines are written without, so that the refusal of each is
/// passed over. No other is.
#[test]
fn settings_are_shown_or_not(rt: HostRuntime) {
    let settings = read(rt.alloc(), EXAMPLE).expect(&rt, "settings");
    let right = settings.to_string(rt.alloc()).expect(&rt, "memory");
    let mut passed_over: usize = 0;
    for nth in 1..MANY {
        refuse(rt.alloc(), nth);
        let told = settings.to_string(rt.alloc());
        let none_refused = none_refused(rt.alloc(), nth);
        if let Ok(shown) = told {
            assert_eq!(rt; shown.as_str(), right.as_str());
            if none_refused {
                return assert!(rt; nth == 1 || passed_over == LISTS, "{passed_over}");
            }
            passed_over = passed_over.saturating_add(1);
        } else {
            assert!(rt; !none_refused, "allocation {nth}");
        }
    }
    give_up(&rt);
}

/// Asserts that the third group was registered, and has the commands.
fn assert_third<R: Abort>(
    rt: &R,
    core: &Core,
    told: Result<GroupId, RegisterError>,
    commands: &[CommandProps],
) {
    assert_eq!(rt; told, Ok(GroupId(2)));
    let (shown, _) = core.props(GroupId(2)).expect(rt, "a third group");
    assert!(rt; shown.commands.as_slice() == commands);
}

/// The core has room for just the slots of three groups, so that slots counted for a refused one would be missed.
#[test]
fn a_group_of_two_commands_is_registered_or_not(rt: HostRuntime) {
    let third = props_of_two(&rt);
    for nth in 1..MANY {
        let mut core = two_groups(&rt, 100);
        refuse(rt.alloc(), nth);
        let told = core.register(&third, 100);
        assert_told(&rt, nth, told.is_ok());
        if told.is_ok() {
            return assert_third(&rt, &core, told, third.commands.as_slice());
        }
        assert_eq!(rt; told, Err(RegisterError::Memory));
        assert_new(&rt, &mut core);
        let again = core.register(&third, 100);
        assert_third(&rt, &core, again, third.commands.as_slice());
    }
    give_up(&rt);
}

/// What a registration and the retirement of the new group are told.
const MADE: [Outcome; 2] = [Outcome::Registered(GroupId(2)), Outcome::Retired];

/// What they are told where the registration is refused its memory: the act behind it is made all the same.
const REFUSED: [Outcome; 2] = [
    Outcome::NotRegistered(RegisterError::Memory),
    Outcome::NotRetired(RetireError::NoGroup),
];

fn are_told(told: &Result<Vec<Outcome>, AllocError>, want: &[Outcome]) -> bool {
    match told {
        Ok(outcomes) => outcomes.as_slice() == want,
        Err(_) => false,
    }
}

/// The first allocation is the room for the outcomes: where it is refused no act is made.
#[test]
fn acts_are_made_or_refused(rt: HostRuntime) {
    let kinds = [props_of_two(&rt)];
    let acts = [
        Act::Register {
            place: 0,
            step_limit: 100,
        },
        Act::Retire(GroupId(2)),
    ];
    for nth in 1..MANY {
        let mut core = two_groups(&rt, 100);
        refuse(rt.alloc(), nth);
        let told = core.run_acts(&kinds, &acts);
        let are_made = are_told(&told, &MADE);
        assert_told(&rt, nth, are_made);
        if are_made {
            return;
        }
        assert_eq!(rt; told.is_err(), nth == 1, "allocation {nth}");
        assert!(rt;
            told.is_err() || are_told(&told, &REFUSED),
            "allocation {nth}"
        );
        assert_new(&rt, &mut core);
    }
    give_up(&rt);
}

#[test]
fn all_steps_are_made_or_none(rt: HostRuntime) {
    for nth in 1..MANY {
        let mut core = two_groups(&rt, 100);
        refuse(rt.alloc(), nth);
        let told = core.run(&steps());
        assert_told(&rt, nth, told.is_ok());
        if let Ok(made) = told {
            assert!(rt; made.as_slice() == replies(SLOTS).as_slice());
            return;
        }
        assert_new(&rt, &mut core);
    }
    give_up(&rt);
}
