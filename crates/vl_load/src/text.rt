ghost use Rattle.std.specs.Prelude.{◌≡◌, ◌++◌, IfOk, OnOk};
ghost use Rattle.vl_load.specs.Text.{joined};

use std::alloc::{AllocError, Global};

/// Adds texts behind a text, one after another.
pub(crate) fn add(text: &mut Vec<u8>, parts: &[&[u8]]) -> Result<(), AllocError>
    ensures { OnOk result (text.new.items ≡ text.old.items ++ joined parts.now) }
{
    for part in parts {
        text.extend_from_slice(part)?;
    }
    Ok(())
}

/// Texts, one after another.
pub(crate) fn joined(alloc: Global, parts: &[&[u8]]) -> Result<Vec<u8>, AllocError>
    ensures { IfOk result (λ text. text.items ≡ joined parts.now) }
{
    let mut text = Vec::new(alloc);
    add(&mut text, parts)?;
    Ok(text)
}
