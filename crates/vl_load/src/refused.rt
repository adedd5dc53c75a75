ghost use Rattle.std.specs.Prelude.{◌≡◌, ◌++◌, codes, decimal, IfOk};
ghost use Rattle.hex.specs.Hex.{encode_lower};

use crate::text::joined;
use std::alloc::{AllocError, Global};
use vl_rules::CatalogRule;
use vl_values::bytes::Bytes;
use vl_vindex::Side;
use vl_vschema::VschemaRule;

/// Why a catalog is refused: the first fault.
#[derive(Drop)]
pub enum Refused {
    NotJson { file: Bytes },
    /// What has this path, which begins with the file's name, breaks the rule.
    Broken { path: Bytes, rule: VschemaRule },
    /// The schema file has a syntax error at this byte.
    Syntax { file: Bytes, at: usize },
    Unsupported { file: Bytes, at: usize },
    /// The text is no key range, at this byte.
    Range { text: Bytes, at: usize },
    /// No range of the keyspace holds this keyspace id.
    Gap { keyspace: Bytes, after: Side },
    /// Several ranges of the keyspace hold this keyspace id.
    Overlap { keyspace: Bytes, at: Side },
    /// The table breaks the rule.
    Rule { table: Bytes, rule: CatalogRule },
}

// `catalog refused: `, then these texts and a number.
fn numbered(
    alloc: Global,
    front: &[u8],
    name: &[u8],
    what: &[u8],
    n: u64,
) -> Result<Vec<u8>, AllocError>
    ensures { IfOk result (λ line. line.items ≡ codes "catalog refused: " ++ ((front.now ++ (name.now ++ (what.now ++ decimal n))) ++ codes "\n")) }
{
    let mut buffer = itoa::Buffer::new();
    let mut line = joined(alloc, &[b"catalog refused: ", front, name, what])?;
    line.extend_from_slice(buffer.format(n).as_bytes())?;
    line.push(b'\n')?;
    Ok(line)
}

// `catalog refused: keyspace `, then these texts and a keyspace id.
fn ring_line(alloc: Global, keyspace: &[u8], what: &[u8], id: &Side) -> Result<Vec<u8>, AllocError>
    ensures { IfOk result (λ line. line.items ≡ codes "catalog refused: " ++ ((codes "keyspace " ++ (keyspace.now ++ (what.now ++ encode_lower id.now))) ++ codes "\n")) }
{
    let digits = format!(in alloc; "{id}")?;
    joined(
        alloc,
        &[
            b"catalog refused: ",
            b"keyspace ",
            keyspace,
            what,
            digits.as_bytes(),
            b"\n",
        ],
    )
}

impl Refused {
    ghost use Rattle.std.specs.Prelude.{◌≡◌, IfOk};
    ghost use Rattle.vl_load.specs.Lines.{refusal_line};

    /// The line that tells the fault, with its LF.
    pub fn line(&self, alloc: Global) -> Result<Vec<u8>, AllocError>
        ensures { IfOk result (λ line. line.items ≡ refusal_line self.now) }
    {
        match self {
            Refused::NotJson { file } => joined(
                alloc,
                &[b"catalog refused: ", file.as_slice(), b" is not JSON\n"],
            ),
            Refused::Broken { path, rule } => {
                numbered(
                    alloc,
                    b"",
                    path.as_slice(),
                    b" breaks V",
                    u64::from(rule.number()),
                )
            }
            Refused::Syntax { file, at } => numbered(
                alloc,
                b"",
                file.as_slice(),
                b" has a syntax error at byte ",
                *at as u64,
            ),
            Refused::Unsupported { file, at } => numbered(
                alloc,
                b"",
                file.as_slice(),
                b" has something unsupported at byte ",
                *at as u64,
            ),
            Refused::Range { text, at } => numbered(
                alloc,
                b"range ",
                text.as_slice(),
                b" is wrong at byte ",
                *at as u64,
            ),
            Refused::Gap { keyspace, after } => {
                ring_line(alloc, keyspace.as_slice(), b" has a gap after ", after)
            }
            Refused::Overlap { keyspace, at } => {
                ring_line(alloc, keyspace.as_slice(), b" has an overlap at ", at)
            }
            Refused::Rule { table, rule } => {
                numbered(
                    alloc,
                    b"table ",
                    table.as_slice(),
                    b" breaks C",
                    u64::from(rule.number()),
                )
            }
        }
    }
}
