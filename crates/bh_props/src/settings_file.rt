//! Settings, from the bytes of a file.

ghost use Rattle.std.specs.Prelude.{◌≡◌, ◌≢◌, Err, IfErr, IfOk, Ok};
ghost use Rattle.bh_props.specs.Shown.{settings_view};
ghost use Rattle.bh_props.specs.SettingsFile.{settings_in};

use crate::error::SettingsError;
use crate::reading::read;
use crate::settings::Settings;
use std::alloc::Global;
use std::str;

/// The settings that the bytes of a file give, or the first refusal. Bytes that are not UTF-8 are refused as
/// `Syntax`; `Memory` can come in place of any answer.
pub fn settings_in(alloc: Global, bytes: &[u8]) -> Result<Settings, SettingsError>
    ensures ok { IfOk result (λ settings. settings_in bytes.now ≡ Ok (settings_view settings)) }
    ensures refused { IfErr result (λ e. e ≢ SettingsError.Memory → settings_in bytes.now ≡ Err e) }
{
    let Ok(text) = str::from_utf8(bytes) else {
        return Err(SettingsError::Syntax);
    };
    read(alloc, text)
}
