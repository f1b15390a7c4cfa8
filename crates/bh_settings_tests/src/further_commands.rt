//! Settings that name further commands: their numbers and their properties.

use crate::asserts::{assert_number, assert_text};
use crate::settings::shown;
use bh_base::GroupProps;
use bh_props::{Settings, read};
use std::alloc::{AllocError, Global};
use std::process::Abort;

// In another order than that of the names' bytes, in which digits come before large letters, and those before small ones.
const NUMBERED: &str = r#"service.groups = ["a", "b"]
service.command.c9.group = "b"
service.command.c.group = "a"
service.command.c10.group = "b"
service.command.Z.group = "b"
service.command.1.group = "a"
service.command."-".group = "b"
service.command._.group = "a"
"#;

// Each further command, with its group's place and its number there.
const NUMBERS: &str = "- 1 1
1 0 1
Z 1 2
_ 0 2
c 0 3
c10 1 3
c9 1 4
";

// The further commands of the settings, each in a line of its own.
fn numbers_text(alloc: Global, settings: &Settings) -> Result<String, AllocError> {
    let mut text = String::new(alloc);
    for (name, (place, number)) in settings.commands.iter() {
        let line = format!(in alloc; "{} {place} {number}\n", name.as_str())?;
        text.push_str(line.as_str())?;
    }
    Ok(text)
}

fn settings_of<R: Abort + AllocGlobal>(rt: &R, file: &str) -> Settings {
    read(rt.alloc(), file).expect(rt, "settings")
}

// The properties of the group at the place.
fn group_at<'s, R: Abort>(rt: &R, settings: &'s Settings, place: usize) -> &'s GroupProps {
    let (_, props) = settings.groups.get_index(place).expect(rt, "a group");
    props
}

#[test]
fn commands_are_numbered_in_the_order_of_their_bytes(rt: HostRuntime) {
    let settings = settings_of(&rt, NUMBERED);
    assert_text(
        &rt,
        numbers_text(rt.alloc(), &settings),
        NUMBERS,
        "the numbers",
    );
    let first = group_at(&rt, &settings, 0);
    let second = group_at(&rt, &settings, 1);
    assert_number(&rt, first.commands.len() as u64, 4);
    assert_number(&rt, second.commands.len() as u64, 5);
}

// A file of the groups a and b, of which each has so many further commands.
fn crowded<R: Abort + AllocGlobal>(rt: &R, further: u64) -> String {
    let mut file = String::new(rt.alloc());
    file.push_str("service.groups = [\"a\", \"b\"]\n")
        .expect(rt, "memory");
    for number in 0..further {
        let lines = format!(in rt.alloc();
            "service.command.c{number}.group = \"a\"\nservice.command.d{number}.group = \"b\"\n"
        ).expect(rt, "memory");
        file.push_str(lines.as_str()).expect(rt, "memory");
    }
    file
}

#[test]
fn each_group_has_sixteen_commands(rt: HostRuntime) {
    let settings = settings_of(&rt, crowded(&rt, 15).as_str());
    assert_number(&rt, settings.commands.len() as u64, 30);
    for props in settings.groups.values() {
        assert_number(&rt, props.commands.len() as u64, 16);
    }
    let seventeen = crowded(&rt, 16);
    let told = shown(rt.alloc(), seventeen.as_str());
    let want = "settings refused: 10 bad command at 16";
    assert_text(&rt, told, want, "seventeen");
}

// Of the timeout of c its own value is in force, of its percentage the default one, and of its volume the built-in one.
// Its group has others.
const IN_FORCE: &str = r#"service.groups = ["a"]
service.command.c.group = "a"
hystrix.command.default.execution.isolation.thread.timeoutInMilliseconds = 1
hystrix.command.default.circuitBreaker.errorThresholdPercentage = 60
hystrix.command.a.execution.isolation.thread.timeoutInMilliseconds = 2
hystrix.command.a.circuitBreaker.errorThresholdPercentage = 70
hystrix.command.a.circuitBreaker.requestVolumeThreshold = 7
hystrix.command.c.execution.isolation.thread.timeoutInMilliseconds = 3
"#;

#[test]
fn a_command_has_its_own_values_or_those_by_default(rt: HostRuntime) {
    let settings = settings_of(&rt, IN_FORCE);
    let commands = &group_at(&rt, &settings, 0).commands;
    let own = commands.first().expect(&rt, "a command");
    assert_eq!(rt; (own.timeout_ms, own.percent, own.volume), (2, 70, 7));
    let further = commands.get(1).expect(&rt, "a further command");
    assert_eq!(rt;
        (further.timeout_ms, further.percent, further.volume),
        (3, 60, 20)
    );
}
