ghost use Rattle.std.specs.Prelude.{IfOk, IfErr};
ghost use Rattle.serde_json.specs.View.{view};
ghost use Rattle.vl_vschema.specs.Document.{IsJson, IsUnread};

use crate::vschema_fault::VschemaFault;
use serde_json::Value;
use std::alloc::Global;

/// The value that a file says.
pub(crate) fn parse(alloc: Global, bytes: &[u8]) -> Result<Value, VschemaFault>
    ensures ok { IfOk result (λ value. IsJson bytes.now (view value)) }
    ensures err { IfErr result (IsUnread bytes.now) }
{
    match Value::from_slice(alloc, bytes) {
        Ok(value) => Ok(value),
        Err(error) => {
            if error.is_memory() {
                return Err(VschemaFault::Memory);
            }
            Err(VschemaFault::NotJson)
        }
    }
}
