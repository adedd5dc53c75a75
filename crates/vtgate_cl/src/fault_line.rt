ghost use Rattle.std.specs.Prelude.{◌≡◌, IfOk, string_bytes};
ghost use Rattle.vtgate_cl.specs.Script.{fault_line};

use std::alloc::{AllocError, Global};

/// The line that tells which line is no script line, with its end. Lines are numbered from 1.
pub fn line_of_fault(alloc: Global, number: u64) -> Result<String, AllocError>
    ensures { IfOk result (λ text. string_bytes text ≡ fault_line number) }
{
    format!(in alloc; "line {number} is not a script line\n")
}
