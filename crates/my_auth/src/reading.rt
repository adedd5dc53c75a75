// Reading a response: each function gives a field and the bytes behind it.
ghost use Rattle.std.specs.Prelude.{◌≡◌};
ghost use Rattle.std.specs.Option.{option_map};
ghost use Rattle.my_auth.specs.Reading.{Gives, attributes_at, byte_at, bytes_at, capabilities_at, counted_at, eight_at, four_at, not_empty, number_at, response_at, short_at, text_at, text_if, three_at, token_at, two_at, viewed};

use crate::capabilities::{
    CONNECT_ATTRS, CONNECT_WITH_DB, LENENC_CLIENT_DATA, PLUGIN_AUTH, PROTOCOL_41,
    SECURE_CONNECTION, SSL, has,
};
use crate::fault::Fault;
use crate::response_fields::ResponseFields;

/// How many bytes behind the character set aren't looked at.
const FILLER_LEN: u64 = 23;

fn bytes_of(n: u64, bytes: &[u8]) -> Result<(&[u8], &[u8]), Fault>
    ensures { Gives (λ x. (x.0.now, x.1.now)) result (bytes_at n bytes.now) }
{
    if (bytes.len() as u64) < n {
        return Err(Fault { left: 0 });
    }
    Ok(bytes.split_at(n as usize))
}

fn byte_of(bytes: &[u8]) -> Result<(u8, &[u8]), Fault>
    ensures { Gives (λ x. (x.0, x.1.now)) result (byte_at bytes.now) }
{
    match bytes {
        [] => Err(Fault { left: 0 }),
        [byte, rest @ ..] => Ok((*byte, rest)),
    }
}

fn two_of(bytes: &[u8]) -> Result<(u64, &[u8]), Fault>
    ensures { Gives (λ x. (x.0, x.1.now)) result (two_at bytes.now) }
{
    if bytes.len() < 2 {
        return Err(Fault { left: 0 });
    }
    let (front, rest) = bytes.split_at(2);
    let number = u16::from_le_bytes([front[0], front[1]]);
    Ok((u64::from(number), rest))
}

fn three_of(bytes: &[u8]) -> Result<(u64, &[u8]), Fault>
    ensures { Gives (λ x. (x.0, x.1.now)) result (three_at bytes.now) }
{
    if bytes.len() < 3 {
        return Err(Fault { left: 0 });
    }
    let (front, rest) = bytes.split_at(3);
    let number = u32::from_le_bytes([front[0], front[1], front[2], 0]);
    Ok((u64::from(number), rest))
}

fn four_of(bytes: &[u8]) -> Result<(u32, &[u8]), Fault>
    ensures { Gives (λ x. (x.0, x.1.now)) result (four_at bytes.now) }
{
    if bytes.len() < 4 {
        return Err(Fault { left: 0 });
    }
    let (front, rest) = bytes.split_at(4);
    let number = u32::from_le_bytes([front[0], front[1], front[2], front[3]]);
    Ok((number, rest))
}

fn eight_of(bytes: &[u8]) -> Result<(u64, &[u8]), Fault>
    ensures { Gives (λ x. (x.0, x.1.now)) result (eight_at bytes.now) }
{
    if bytes.len() < 8 {
        return Err(Fault { left: 0 });
    }
    let (front, rest) = bytes.split_at(8);
    let number = u64::from_le_bytes([
        front[0], front[1], front[2], front[3], front[4], front[5], front[6], front[7],
    ]);
    Ok((number, rest))
}

#[tactic(auto, unfolding(crate::specs::Reading::number_at))]
fn number_of(bytes: &[u8]) -> Result<(u64, &[u8]), Fault>
    ensures { Gives (λ x. (x.0, x.1.now)) result (number_at bytes.now) }
{
    match bytes {
        [] => Err(Fault { left: 0 }),
        [first, rest @ ..] if *first < 251 => Ok((u64::from(*first), rest)),
        [0xfc, rest @ ..] => two_of(rest),
        [0xfd, rest @ ..] => three_of(rest),
        [0xfe, rest @ ..] => eight_of(rest),
        [_, ..] => Err(Fault { left: bytes.len() }),
    }
}

/// Bytes behind their length, which is length-encoded.
fn counted_of(bytes: &[u8]) -> Result<(&[u8], &[u8]), Fault>
    ensures { Gives (λ x. (x.0.now, x.1.now)) result (counted_at bytes.now) }
{
    let (len, rest) = number_of(bytes)?;
    bytes_of(len, rest)
}

/// Bytes behind their length, which is one byte.
fn short_of(bytes: &[u8]) -> Result<(&[u8], &[u8]), Fault>
    ensures { Gives (λ x. (x.0.now, x.1.now)) result (short_at bytes.now) }
{
    let (len, rest) = byte_of(bytes)?;
    bytes_of(u64::from(len), rest)
}

/// A text up to the first 0.
fn text_of(bytes: &[u8]) -> Result<(&[u8], &[u8]), Fault>
    ensures { Gives (λ x. (x.0.now, x.1.now)) result (text_at bytes.now) }
{
    for (i, byte) in bytes.iter().enumerate() {
        if *byte == 0 {
            return Ok((&bytes[..i], &bytes[i + 1..]));
        }
    }
    Err(Fault { left: 0 })
}

#[tactic(auto, unfolding(crate::specs::Reading::capabilities_at))]
fn capabilities_of(bytes: &[u8]) -> Result<(u32, &[u8]), Fault>
    ensures { Gives (λ x. (x.0, x.1.now)) result (capabilities_at bytes.now) }
{
    let (capabilities, rest) = four_of(bytes)?;
    if has(capabilities, PROTOCOL_41) && !has(capabilities, SSL) {
        Ok((capabilities, rest))
    } else {
        Err(Fault { left: bytes.len() })
    }
}

fn token_of(capabilities: u32, bytes: &[u8]) -> Result<(&[u8], &[u8]), Fault>
    ensures { Gives (λ x. (x.0.now, x.1.now)) result (token_at capabilities bytes.now) }
{
    if has(capabilities, LENENC_CLIENT_DATA) {
        return counted_of(bytes);
    }
    if has(capabilities, SECURE_CONNECTION) {
        return short_of(bytes);
    }
    text_of(bytes)
}

fn not_empty(text: Option<&[u8]>) -> Option<&[u8]>
    ensures { option_map (λ x. x.now) result ≡ not_empty (option_map (λ x. x.now) text.entry) }
{
    match text {
        Some([]) => None,
        _ => text,
    }
}

/// A text where the capabilities have this flag.
fn text_where(capabilities: u32, flag: u32, bytes: &[u8]) -> Result<(Option<&[u8]>, &[u8]), Fault>
    ensures { Gives (λ x. (option_map (λ y. y.now) x.0, x.1.now)) result (text_if capabilities flag bytes.now) }
{
    if !has(capabilities, flag) {
        return Ok((None, bytes));
    }
    let (text, rest) = text_of(bytes)?;
    Ok((Some(text), rest))
}

/// The attributes where the capabilities have them.
fn attributes_of(capabilities: u32, bytes: &[u8]) -> Result<(Option<&[u8]>, &[u8]), Fault>
    ensures { Gives (λ x. (option_map (λ y. y.now) x.0, x.1.now)) result (attributes_at capabilities bytes.now) }
{
    if !has(capabilities, CONNECT_ATTRS) {
        return Ok((None, bytes));
    }
    let (attributes, rest) = counted_of(bytes)?;
    Ok((Some(attributes), rest))
}

/// The fields of a response.
#[tactic(auto, unfolding(crate::specs::Reading::response_at))]
pub(crate) fn fields_of(bytes: &[u8]) -> Result<ResponseFields<'_>, Fault>
    ensures { Gives viewed result (response_at bytes.now) }
{
    let (capabilities, rest) = capabilities_of(bytes)?;
    let (greatest_packet, rest) = four_of(rest)?;
    let (charset, rest) = byte_of(rest)?;
    let (_, rest) = bytes_of(FILLER_LEN, rest)?;
    let (user, rest) = text_of(rest)?;
    let (token, rest) = token_of(capabilities, rest)?;
    let (database, rest) = text_where(capabilities, CONNECT_WITH_DB, rest)?;
    let (plugin, rest) = text_where(capabilities, PLUGIN_AUTH, rest)?;
    let (attributes, _) = attributes_of(capabilities, rest)?;
    Ok(ResponseFields {
        capabilities,
        greatest_packet,
        charset,
        user,
        token,
        database: not_empty(database),
        plugin,
        attributes,
    })
}
