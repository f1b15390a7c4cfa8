//! The values of arguments that a parse found.

ghost use Rattle.std.specs.Prelude.{◌≡◌, [], map, unwrap_or, codes};
ghost use Rattle.clap.specs.Words.{all_of, found_of, rows_of};
ghost use Rattle.bh_arguments.specs.Invocations.{IsFlag, IsNumber, IsText};

use clap::ArgMatches;

/// The path of the settings file.
pub(crate) fn path_in<'a>(found: &ArgMatches<'a>) -> &'a str
    ensures { IsText (codes "FILE") (rows_of (found_of found.now)) result.now }
{
    match found.get_str("FILE") {
        Some(path) => path,
        None => "",
    }
}

/// The names of groups that were given.
pub(crate) fn groups_in<'a>(found: &'a ArgMatches<'_>) -> &'a [&'a str]
    ensures { map (λ name. name.now) result.now ≡ unwrap_or (all_of (codes "group") (rows_of (found_of found.now))) [] }
{
    found.get_strs("group").unwrap_or(&[])
}

/// Whether the flag was given.
pub(crate) fn flag_in(found: &ArgMatches<'_>, id: &str) -> bool
    ensures { IsFlag id.now (rows_of (found_of found.now)) result }
{
    found.get_flag(id)
}

/// The number that was given, or the usual one.
pub(crate) fn u64_in(found: &ArgMatches<'_>, id: &str, usual: u64) -> u64
    ensures { IsNumber 64 id.now (rows_of (found_of found.now)) usual result }
{
    found.get_one::<u64>(id).unwrap_or(usual)
}

/// The number that was given, or the usual one.
pub(crate) fn u32_in(found: &ArgMatches<'_>, id: &str, usual: u32) -> u32
    ensures { IsNumber 32 id.now (rows_of (found_of found.now)) usual result }
{
    found.get_one::<u32>(id).unwrap_or(usual)
}

/// The number that was given, or the usual one.
pub(crate) fn u16_in(found: &ArgMatches<'_>, id: &str, usual: u16) -> u16
    ensures { IsNumber 16 id.now (rows_of (found_of found.now)) usual result }
{
    found.get_one::<u16>(id).unwrap_or(usual)
}
