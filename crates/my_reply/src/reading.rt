ghost use Rattle.std.specs.Prelude.{◌≡◌, ◌≤◌, length};
ghost use Rattle.my_reply.specs.Reading.{Gives, two_at, three_at, eight_at, number_at, bytes_at, ends_with, ok_at, state_at, err_at};

use crate::wire::{Fault, Wire};
use vl_values::error_text::ErrorText;

/// The most bytes of an error text.
const LONGEST_TEXT: usize = 512;

pub(crate) fn two_of(bytes: &[u8]) -> Result<(u16, &[u8]), Fault>
    ensures { Gives (λ x. (x.0, x.1.now)) result (two_at bytes.now) }
{
    if bytes.len() < 2 {
        return Err(Fault { left: 0 });
    }
    let (front, rest) = bytes.split_at(2);
    let number = u16::from_le_bytes([front[0], front[1]]);
    Ok((number, rest))
}

fn three_of(bytes: &[u8]) -> Result<(u64, &[u8]), Fault>
    ensures { Gives (λ x. (x.0, x.1.now)) result (three_at bytes.now) }
{
    if bytes.len() < 3 {
        return Err(Fault { left: 0 });
    }
    let (front, rest) = bytes.split_at(3);
    let number = u32::from_le_bytes([front[0], front[1], front[2], 0]);
    Ok((u64::from(number), rest))
}

fn eight_of(bytes: &[u8]) -> Result<(u64, &[u8]), Fault>
    ensures { Gives (λ x. (x.0, x.1.now)) result (eight_at bytes.now) }
{
    if bytes.len() < 8 {
        return Err(Fault { left: 0 });
    }
    let (front, rest) = bytes.split_at(8);
    let number = u64::from_le_bytes([
        front[0], front[1], front[2], front[3], front[4], front[5], front[6], front[7],
    ]);
    Ok((number, rest))
}

#[tactic(auto, unfolding(crate::specs::Reading::number_at))]
pub(crate) fn number_of(bytes: &[u8]) -> Result<(u64, &[u8]), Fault>
    ensures { Gives (λ x. (x.0, x.1.now)) result (number_at bytes.now) }
{
    match bytes {
        [] => Err(Fault { left: 0 }),
        [first, rest @ ..] if *first < 251 => Ok((u64::from(*first), rest)),
        [0xfc, rest @ ..] => {
            let (number, rest) = two_of(rest)?;
            Ok((u64::from(number), rest))
        }
        [0xfd, rest @ ..] => three_of(rest),
        [0xfe, rest @ ..] => eight_of(rest),
        [_, ..] => Err(Fault { left: bytes.len() }),
    }
}

pub(crate) fn ended<T: Drop>(value: T, rest: &[u8]) -> Result<T, Fault>
    ensures { Gives (λ x. x) result (ends_with value rest.now) }
{
    if rest.is_empty() {
        Ok(value)
    } else {
        Err(Fault { left: rest.len() })
    }
}

/// As many bytes as this, and those behind them.
pub(crate) fn bytes_of(n: u64, bytes: &[u8]) -> Result<(&[u8], &[u8]), Fault>
    ensures { Gives (λ x. (x.0.now, x.1.now)) result (bytes_at n bytes.now) }
{
    if (bytes.len() as u64) < n {
        return Err(Fault { left: 0 });
    }
    Ok(bytes.split_at(n as usize))
}

#[tactic(auto, unfolding(crate::specs::Reading::ok_at))]
pub(crate) fn ok_of(bytes: &[u8]) -> Result<Wire, Fault>
    ensures { Gives (λ x. x) result (ok_at bytes.now) }
{
    let (affected, rest) = number_of(bytes)?;
    let (insert_id, rest) = number_of(rest)?;
    let (status, rest) = two_of(rest)?;
    let (warnings, rest) = two_of(rest)?;
    ended(
        Wire::Ok {
            affected,
            insert_id,
            status,
            warnings,
        },
        rest,
    )
}

#[tactic(auto, unfolding(crate::specs::Reading::state_at))]
fn state_of(bytes: &[u8]) -> Result<(Option<[u8; 5]>, &[u8]), Fault>
    ensures { Gives (λ x. (x.0, x.1.now)) result (state_at bytes.now) }
{
    match bytes {
        [b'#', rest @ ..] => {
            if rest.len() < 5 {
                return Err(Fault { left: 0 });
            }
            let (front, rest) = rest.split_at(5);
            let state = [front[0], front[1], front[2], front[3], front[4]];
            Ok((Some(state), rest))
        }
        _ => Ok((None, bytes)),
    }
}

fn text_of(bytes: &[u8]) -> ErrorText
    requires { length bytes.now ≤ 512 }
    ensures { result ≡ bytes.now }
{
    let mut text = ErrorText::new();
    text.push(bytes);
    text
}

#[tactic(auto, unfolding(crate::specs::Reading::err_at))]
pub(crate) fn err_of(bytes: &[u8]) -> Result<Wire, Fault>
    ensures { Gives (λ x. x) result (err_at bytes.now) }
{
    let (code, rest) = two_of(bytes)?;
    let (state, rest) = state_of(rest)?;
    if rest.len() > LONGEST_TEXT {
        return Err(Fault {
            left: rest.len() - LONGEST_TEXT,
        });
    }
    let text = text_of(rest);
    Ok(Wire::Err { code, state, text })
}
