ghost use Rattle.std.specs.Prelude.{◌≡◌, IsTrue, ◌↔◌, IfSome, IfNone};
ghost use Rattle.vl_script.specs.Script.{IsLine, IsSkipped, NamesNeither, pick_name};
ghost use Rattle.vl_script.specs.declared.line.Line.{Line as ALine};
ghost use Rattle.vl_script.specs.declared.pick.Pick.{Pick as APick};

use crate::line::Line;
use crate::pick::Pick;
use crate::words::{is_text, without_front};

/// A line that names neither a session nor a shard.
pub fn whole_line(text: &[u8]) -> Option<Line<'_>>
    ensures some { IfSome result (λ line. IsLine text.now line) }
    ensures none { IfNone result ((line : ALine) → NamesNeither line → IsLine text.now line → ⊥) }
{
    if is_skipped(text) {
        return Some(Line::Skipped);
    }
    if is_text(text, b"dump") {
        return Some(Line::Dump);
    }
    if is_text(text, b"audit") {
        return Some(Line::Audit);
    }
    let Some(rest) = without_front(text, b"crash ") else {
        return None;
    };
    let Some(pick) = pick_of(rest) else {
        return None;
    };
    Some(Line::CrashNow { pick })
}

fn is_skipped(text: &[u8]) -> bool
    ensures { IsTrue result ↔ IsSkipped text.now }
{
    match text {
        [] => true,
        [first, ..] => *first == b'#',
    }
}

/// The pick of this name.
pub fn pick_of(name: &[u8]) -> Option<Pick>
    ensures some { IfSome result (λ pick. name.now ≡ pick_name pick) }
    ensures none { IfNone result ((pick : APick) → name.now ≡ pick_name pick → ⊥) }
{
    if is_text(name, b"none") {
        return Some(Pick::None_);
    }
    if is_text(name, b"all") {
        return Some(Pick::All);
    }
    if is_text(name, b"half") {
        return Some(Pick::Half);
    }
    if is_text(name, b"gates") {
        return Some(Pick::Gates);
    }
    None
}
