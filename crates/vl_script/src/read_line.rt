ghost use Rattle.std.specs.Prelude.{IfOk, IfErr};
ghost use Rattle.vl_script.specs.Script.{IsLine, IsSame};
ghost use Rattle.vl_script.specs.declared.line.Line.{Line as ALine};

use crate::bad_line::BadLine;
use crate::line::Line;
use crate::session_line::session_line;
use crate::shard_line::shard_line;
use crate::whole_line::whole_line;

/// The line that a text says; its LF, and a CR before that, are not part of the text.
///
/// The text is judged alone. A shard that no catalog has, or a session that hasn't joined, is the
/// caller's to refuse.
pub fn read_line(line: &[u8]) -> Result<Line<'_>, BadLine>
    ensures ok { IfOk result (λ said. IsLine line.now said) }
    ensures only { IfOk result (λ said. (other : ALine) → IsLine line.now other → IsSame said other) }
    ensures err { IfErr result (λ _. (said : ALine) → IsLine line.now said → ⊥) }
{
    if let Some(said) = whole_line(line) {
        return Ok(said);
    }
    if let Some(said) = session_line(line) {
        return Ok(said);
    }
    if let Some(said) = shard_line(line) {
        return Ok(said);
    }
    Err(BadLine)
}
