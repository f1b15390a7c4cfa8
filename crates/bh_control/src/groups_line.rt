//! The line of the names of the groups: the JSON library's writer puts it straight behind what stands there.

ghost use Rattle.std.specs.Prelude.{◌≡◌, ◌++◌, ℕ, List, map, OnOk, OnErr};
ghost use Rattle.json.specs.Token.{Token};
ghost use Rattle.json.specs.Tree.{json_tokens};
ghost use Rattle.serde_json.specs.Written.{outline};
ghost use Rattle.bh_control.specs.AnswerLine.{groups_data, groups_line};

use bh_base::Text;
use json::Writer;
use std::alloc::{AllocError, Global};
use std::mem;

/// Puts the line of the names of the groups behind what is in `out`. It fails only for want of memory, and leaves the bytes
/// as they were then.
pub fn put_groups(alloc: Global, names: &[Text<32>], out: &mut Vec<u8>) -> Result<(), AllocError>
    ensures ok { OnOk result (out.new.items ≡ out.old.items ++ groups_line names.now) }
    ensures err { OnErr result (out.new.items ≡ out.old.items) }
{
    let start = out.len();
    let put = put_line(alloc, names, out);
    if put.is_err() {
        out.truncate(start);
    }
    put
}

/// The same, but that some of the line may be there where it fails.
fn put_line(alloc: Global, names: &[Text<32>], out: &mut Vec<u8>) -> Result<(), AllocError>
    ensures kept { (more : List ℕ) × (out.new.items ≡ out.old.items ++ more) }
    ensures ok { OnOk result (out.new.items ≡ out.old.items ++ groups_line names.now) }
{
    let mut writer = Writer::new(mem::replace(out, Vec::new(alloc)));
    let sent = send_groups(&mut writer, names);
    *out = writer.into_inner();
    sent?;
    out.push(b'\n')?;
    Ok(())
}

/// The object of the names.
fn send_groups(writer: &mut Writer, names: &[Text<32>]) -> Result<(), AllocError>
    ensures before { writer.new.before ≡ writer.old.before }
    ensures sent { OnOk result (writer.new.tokens ≡ writer.old.tokens ++ json_tokens (outline (groups_data names.now))) }
{
    writer.begin_object()?;
    writer.key("groups")?;
    writer.begin_array()?;
    send_names(writer, names)?;
    writer.end_array()?;
    writer.key("reply")?;
    writer.string("groups")?;
    writer.end_object()
}

/// The names, in their order.
fn send_names(writer: &mut Writer, names: &[Text<32>]) -> Result<(), AllocError>
    ensures before { writer.new.before ≡ writer.old.before }
    ensures sent { OnOk result (writer.new.tokens ≡ writer.old.tokens ++ map (λ name. Token.string name) names.now) }
{
    for name in names {
        writer.string(name.as_str())?;
    }
    Ok(())
}
