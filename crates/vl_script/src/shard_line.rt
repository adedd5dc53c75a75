ghost use Rattle.std.specs.Prelude.{◌≡◌, ℕ, List, ◌++◌, codes, IfSome, IfNone};
ghost use Rattle.std.specs.Fmt.{decimal};
ghost use Rattle.vl_script.specs.Script.{IsCount, IsCrash, IsFailure, IsLine, IsLoss, IsOfShard, NamesShard, side_name};
ghost use Rattle.vl_script.specs.declared.line.Line.{Line as ALine};
ghost use Rattle.vl_script.specs.declared.pick.Pick.{Pick as APick};
ghost use Rattle.vl_script.specs.declared.side.Side.{Side as ASide};

use crate::line::Line;
use crate::number::count_of;
use crate::pick::Pick;
use crate::side::Side;
use crate::whole_line::pick_of;
use crate::words::{first_word, is_word, without_front};

/// A line that begins with a keyword and a shard.
pub fn shard_line(text: &[u8]) -> Option<Line<'_>>
    ensures some { IfSome result (λ line. IsLine text.now line) }
    ensures none { IfNone result ((line : ALine) → NamesShard line → IsLine text.now line → ⊥) }
{
    if let Some((shard, side, carry)) = loss_of(text) {
        return Some(Line::Lose { shard, side, carry });
    }
    if let Some(shard) = shard_behind(text, b"restart ") {
        return Some(Line::Restart { shard });
    }
    if let Some((shard, call)) = failure_of(text) {
        return Some(Line::Fail { shard, call });
    }
    if let Some((shard, call, pick)) = crash_of(text) {
        return Some(Line::CrashAt { shard, call, pick });
    }
    let Some(shard) = shard_behind(text, b"checkpoint ") else {
        return None;
    };
    Some(Line::Checkpoint { shard })
}

// The shard behind a keyword.
fn shard_behind<'a>(text: &'a [u8], keyword: &[u8]) -> Option<&'a [u8]>
    ensures some { IfSome result (λ shard. IsOfShard text.now keyword.now shard.now) }
    ensures none { IfNone result ((shard : List ℕ) → IsOfShard text.now keyword.now shard → ⊥) }
{
    let Some(shard) = without_front(text, keyword) else {
        return None;
    };
    if !is_word(shard) {
        return None;
    }
    Some(shard)
}

// `lose SHARD before N` and `lose SHARD after N`
fn loss_of(text: &[u8]) -> Option<(&[u8], Side, u32)>
    ensures some { IfSome result (λ parts. IsLoss text.now parts.0.now parts.1 parts.2) }
    ensures none { IfNone result ((shard : List ℕ) (side : ASide) (n : ℕ) → IsLoss text.now shard side n → ⊥) }
{
    let Some((shard, rest)) = first_word(text, b"lose ") else {
        return None;
    };
    let Some((side, carry)) = carry_of(rest) else {
        return None;
    };
    Some((shard, side, carry))
}

// `before N` and `after N`
fn carry_of(text: &[u8]) -> Option<(Side, u32)>
    ensures some { IfSome result (λ parts. (text.now ≡ side_name parts.0 ++ (codes " " ++ decimal parts.1)) × IsCount parts.1) }
    ensures none { IfNone result ((side : ASide) (n : ℕ) → IsCount n → text.now ≡ side_name side ++ (codes " " ++ decimal n) → ⊥) }
{
    if let Some(carry) = count_behind(text, b"before ") {
        return Some((Side::Before, carry));
    }
    let Some(carry) = count_behind(text, b"after ") else {
        return None;
    };
    Some((Side::After, carry))
}

// The count behind a keyword.
fn count_behind(text: &[u8], keyword: &[u8]) -> Option<u32>
    ensures some { IfSome result (λ n. (text.now ≡ keyword.now ++ decimal n) × IsCount n) }
    ensures none { IfNone result ((n : ℕ) → IsCount n → text.now ≡ keyword.now ++ decimal n → ⊥) }
{
    let Some(digits) = without_front(text, keyword) else {
        return None;
    };
    count_of(digits)
}

// `fail SHARD N`
fn failure_of(text: &[u8]) -> Option<(&[u8], u32)>
    ensures some { IfSome result (λ parts. IsFailure text.now parts.0.now parts.1) }
    ensures none { IfNone result ((shard : List ℕ) (n : ℕ) → IsFailure text.now shard n → ⊥) }
{
    let Some((shard, digits)) = first_word(text, b"fail ") else {
        return None;
    };
    let Some(call) = count_of(digits) else {
        return None;
    };
    Some((shard, call))
}

// `crash SHARD N PICK`
fn crash_of(text: &[u8]) -> Option<(&[u8], u32, Pick)>
    ensures some { IfSome result (λ parts. IsCrash text.now parts.0.now parts.1 parts.2) }
    ensures none { IfNone result ((shard : List ℕ) (n : ℕ) (pick : APick) → IsCrash text.now shard n pick → ⊥) }
{
    let Some((shard, rest)) = first_word(text, b"crash ") else {
        return None;
    };
    let Some((digits, name)) = first_word(rest, b"") else {
        return None;
    };
    let Some(call) = count_of(digits) else {
        return None;
    };
    let Some(pick) = pick_of(name) else {
        return None;
    };
    Some((shard, call, pick))
}
