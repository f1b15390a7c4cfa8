//! The lines that answer faulty lines.

ghost use Rattle.std.specs.Prelude.{◌≡◌, ◌++◌, OnErr, OnOk};
ghost use Rattle.bh_replies.specs.FaultLine.{fault_line};

use bh_faults::Fault;
use std::alloc::{AllocError, Global};

/// Puts the line that answers a faulty line, with its line feed, behind the bytes: an object whose one member `error` has
/// the fault's word. It fails only for want of memory, and leaves the bytes as they were then.
pub fn put_fault(alloc: Global, bytes: &mut Vec<u8>, fault: Fault) -> Result<(), AllocError>
    ensures ok { OnOk result (bytes.new.items ≡ bytes.old.items ++ fault_line fault) }
    ensures err { OnErr result (bytes.new.items ≡ bytes.old.items) }
{
    bytes.extend_from_slice(fault_text(fault).as_bytes())
}

/// The line of a fault.
#[tactic(auto, unfolding(crate::specs::FaultLine::fault_line, json::specs::Print::escape_byte))]
fn fault_text(fault: Fault) -> &'static str
    ensures { result.now ≡ fault_line fault }
{
    match fault {
        Fault::Syntax => "{\"error\":\"syntax\"}\n",
        Fault::Field => "{\"error\":\"field\"}\n",
        Fault::Op => "{\"error\":\"op\"}\n",
        Fault::Group => "{\"error\":\"group\"}\n",
        Fault::Command => "{\"error\":\"command\"}\n",
        Fault::Long => "{\"error\":\"long\"}\n",
        Fault::Property => "{\"error\":\"property\"}\n",
        Fault::Range => "{\"error\":\"range\"}\n",
        Fault::Name => "{\"error\":\"name\"}\n",
        Fault::Like => "{\"error\":\"like\"}\n",
        Fault::Groups => "{\"error\":\"groups\"}\n",
    }
}
