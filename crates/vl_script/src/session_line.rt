ghost use Rattle.std.specs.Prelude.{◌≡◌, ℕ, List, IfSome, IfNone};
ghost use Rattle.vl_script.specs.Script.{IsDrop, IsLine, IsOfSession, NamesSession, Says};
ghost use Rattle.vl_values.specs.Group.{group_name};
ghost use Rattle.vl_values.specs.declared.group.Group.{Group as AGroup};
ghost use Rattle.vl_script.specs.declared.line.Line.{Line as ALine};

use crate::line::Line;
use crate::number::session_of;
use crate::words::{first_word, is_text, is_word, without_front};
use vl_values::group::Group;

/// A line that begins with a keyword and a session.
pub fn session_line(text: &[u8]) -> Option<Line<'_>>
    ensures some { IfSome result (λ line. IsLine text.now line) }
    ensures none { IfNone result ((line : ALine) → NamesSession line → IsLine text.now line → ⊥) }
{
    if let Some((session, sql)) = said_behind(text, b"run ") {
        return Some(Line::Run { session, sql });
    }
    if let Some((session, sql)) = said_behind(text, b"ask ") {
        return Some(Line::Ask { session, sql });
    }
    if let Some(session) = session_behind(text, b"step ") {
        return Some(Line::Step { session });
    }
    if let Some(session) = session_behind(text, b"go ") {
        return Some(Line::Go { session });
    }
    if let Some(session) = session_behind(text, b"close ") {
        return Some(Line::Close { session });
    }
    if let Some(session) = session_behind(text, b"visited ") {
        return Some(Line::Visited { session });
    }
    let Some((session, group, shard)) = drop_of(text) else {
        return None;
    };
    Some(Line::DropSession {
        session,
        group,
        shard,
    })
}

// The session behind a keyword.
fn session_behind(text: &[u8], keyword: &[u8]) -> Option<u16>
    ensures some { IfSome result (λ n. IsOfSession text.now keyword.now n) }
    ensures none { IfNone result ((n : ℕ) → IsOfSession text.now keyword.now n → ⊥) }
{
    let Some(name) = without_front(text, keyword) else {
        return None;
    };
    session_of(name)
}

// The session behind a keyword, and the text behind that.
fn said_behind<'a>(text: &'a [u8], keyword: &[u8]) -> Option<(u16, &'a [u8])>
    ensures some { IfSome result (λ said. Says text.now keyword.now said.0 said.1.now) }
    ensures none { IfNone result ((n : ℕ) (sql : List ℕ) → Says text.now keyword.now n sql → ⊥) }
{
    let Some((name, sql)) = first_word(text, keyword) else {
        return None;
    };
    let Some(session) = session_of(name) else {
        return None;
    };
    Some((session, sql))
}

// `drop SESSION GROUP SHARD`
fn drop_of(text: &[u8]) -> Option<(u16, Group, &[u8])>
    ensures some { IfSome result (λ parts. IsDrop text.now parts.0 parts.1 parts.2.now) }
    ensures none { IfNone result ((n : ℕ) (group : AGroup) (shard : List ℕ) → IsDrop text.now n group shard → ⊥) }
{
    let Some((name, rest)) = first_word(text, b"drop ") else {
        return None;
    };
    let Some(session) = session_of(name) else {
        return None;
    };
    let Some((word, shard)) = first_word(rest, b"") else {
        return None;
    };
    let Some(group) = group_of(word) else {
        return None;
    };
    if !is_word(shard) {
        return None;
    }
    Some((session, group, shard))
}

// The group of this name.
fn group_of(name: &[u8]) -> Option<Group>
    ensures some { IfSome result (λ group. name.now ≡ group_name group) }
    ensures none { IfNone result ((group : AGroup) → name.now ≡ group_name group → ⊥) }
{
    if is_text(name, b"pre") {
        return Some(Group::Pre);
    }
    if is_text(name, b"main") {
        return Some(Group::Main);
    }
    if is_text(name, b"post") {
        return Some(Group::Post);
    }
    None
}
