//! The names of further commands in the lines of scripts.

use crate::asserts::assert_text;
use bh_base::{GroupId, Reply, Text};
use bh_port::commands::{command_name, command_number, told_command};
use bh_port::groups::Groups;
use bh_props::{Settings, read};
use bh_scripts::samples::text;
use std::alloc::{AllocError, Global};
use std::process::Abort;

// In another order than that of the names' bytes, in which digits come before large letters, and those before small ones.
const NUMBERED: &str = r#"service.groups = ["a", "b"]
service.command.c9.group = "b"
service.command.c.group = "a"
service.command.c10.group = "b"
service.command.Z.group = "b"
service.command.1.group = "a"
service.command."-".group = "b"
service.command._.group = "a"
"#;

fn settings_of<R: Abort + AllocGlobal>(rt: &R, file: &str) -> Settings {
    read(rt.alloc(), file).expect(rt, "settings")
}

// Of each name its number in the groups a and b, and in one that there is not.
const LOOKED_UP: &str = "a 0 none none
b none 0 none
_ 2 none none
c9 none 4 none
c 3 none none
d none none none
default none none none
0123456789012345678901234567890-_ none none none";

// The number of the command, or `none`.
fn number_text(alloc: Global, number: Option<u8>) -> Result<String, AllocError> {
    match number {
        Some(number) => format!(in alloc; " {number}"),
        None => format!(in alloc; " none"),
    }
}

// The name with its numbers.
fn looked_up(alloc: Global, settings: &Settings, name: &str) -> Result<String, AllocError> {
    let mut line = String::from_str(alloc, name)?;
    for group in 0..3 {
        let number = command_number(settings, GroupId(group), name);
        line.push_str(number_text(alloc, number)?.as_str())?;
    }
    Ok(line)
}

#[test]
fn a_name_is_looked_up_in_its_own_group(rt: HostRuntime) {
    let settings = settings_of(&rt, NUMBERED);
    for line in LOOKED_UP.lines() {
        let (name, _) = line.split_once(' ').unwrap_or((line, ""));
        assert_text(&rt, looked_up(rt.alloc(), &settings, name), line, name);
    }
}

// Of a group and a number the name of its further command, or `none`.
const NAMES: [(u64, u8, &str); 7] = [
    (0, 0, "none"),
    (0, 1, "1"),
    (0, 3, "c"),
    (0, 4, "none"),
    (1, 1, "-"),
    (1, 4, "c9"),
    (2, 1, "none"),
];

// Asserts that the name is this, or `none` that there is none.
fn assert_name<R: Abort>(rt: &R, name: Option<&Text<32>>, want: &str) {
    let name = match name {
        Some(name) => name.as_str(),
        None => "none",
    };
    assert_eq!(rt; name, want);
}

#[test]
fn a_further_command_has_a_name_by_its_number(rt: HostRuntime) {
    let settings = settings_of(&rt, NUMBERED);
    for (group, number, want) in NAMES {
        assert_name(&rt, command_name(&settings, GroupId(group), number), want);
    }
}

// Asserts by which name of a command the reply of the group is told.
fn assert_told<R: Abort>(
    rt: &R,
    settings: &Settings,
    groups: &Groups,
    group: u64,
    reply: &Reply,
    want: &str,
) {
    let told = told_command(settings, groups, GroupId(group), reply);
    assert_name(rt, told.as_ref(), want);
}

#[test]
fn an_assigned_run_alone_is_told_with_a_name(rt: HostRuntime) {
    let settings = settings_of(&rt, NUMBERED);
    let groups = Groups::open(rt.alloc(), &settings).expect(&rt, "memory");
    let assigned = Reply::Assigned {
        serial: 1,
        command: 4,
        arg: text("x"),
    };
    assert_told(&rt, &settings, &groups, 1, &assigned, "c9");
    assert_told(&rt, &settings, &groups, 0, &assigned, "none");
    assert_told(&rt, &settings, &groups, 1, &Reply::Queued(1), "none");
}
