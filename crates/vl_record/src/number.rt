ghost use Rattle.std.specs.Prelude.{◌≡◌};
ghost use Rattle.std.specs.Int.{w8, w16, w32, w64};
ghost use Rattle.vl_record.specs.Reading.{cut_at, number_at, number_within, text_at};
ghost use Rattle.vl_record.specs.Readers.{Gives, rest_of};

use crate::read_error::ReadError;
use crate::reader::Reader;

// The offset that is told of a field that is cut.
pub(crate) fn cut_at(first: usize, r: Reader<'_>) -> usize
    ensures { result ≡ cut_at first (rest_of r.entry) }
{
    if r.is_body {
        first
    } else {
        r.offset + r.bytes.len()
    }
}

pub(crate) fn u8_at(first: usize, r: Reader<'_>) -> Result<(u8, Reader<'_>), ReadError>
    ensures { Gives (λ x. (x.0, rest_of x.1)) result (number_at w8 first (rest_of r.entry)) }
{
    if r.bytes.is_empty() {
        return Err(ReadError::NotOurs(cut_at(first, r)));
    }
    let (front, rest) = r.bytes.split_at(1);
    Ok((
        front[0],
        Reader {
            bytes: rest,
            offset: r.offset + 1,
            is_body: r.is_body,
        },
    ))
}

pub(crate) fn u16_at(first: usize, r: Reader<'_>) -> Result<(u16, Reader<'_>), ReadError>
    ensures { Gives (λ x. (x.0, rest_of x.1)) result (number_at w16 first (rest_of r.entry)) }
{
    if r.bytes.len() < 2 {
        return Err(ReadError::NotOurs(cut_at(first, r)));
    }
    let (front, rest) = r.bytes.split_at(2);
    Ok((
        u16::from_le_bytes([front[0], front[1]]),
        Reader {
            bytes: rest,
            offset: r.offset + 2,
            is_body: r.is_body,
        },
    ))
}

pub(crate) fn u32_at(first: usize, r: Reader<'_>) -> Result<(u32, Reader<'_>), ReadError>
    ensures { Gives (λ x. (x.0, rest_of x.1)) result (number_at w32 first (rest_of r.entry)) }
{
    if r.bytes.len() < 4 {
        return Err(ReadError::NotOurs(cut_at(first, r)));
    }
    let (front, rest) = r.bytes.split_at(4);
    Ok((
        u32::from_le_bytes([front[0], front[1], front[2], front[3]]),
        Reader {
            bytes: rest,
            offset: r.offset + 4,
            is_body: r.is_body,
        },
    ))
}

pub(crate) fn u64_at(first: usize, r: Reader<'_>) -> Result<(u64, Reader<'_>), ReadError>
    ensures { Gives (λ x. (x.0, rest_of x.1)) result (number_at w64 first (rest_of r.entry)) }
{
    if r.bytes.len() < 8 {
        return Err(ReadError::NotOurs(cut_at(first, r)));
    }
    let (front, rest) = r.bytes.split_at(8);
    Ok((
        u64::from_le_bytes([
            front[0], front[1], front[2], front[3], front[4], front[5], front[6], front[7],
        ]),
        Reader {
            bytes: rest,
            offset: r.offset + 8,
            is_body: r.is_body,
        },
    ))
}

pub(crate) fn text_at(
    len: usize,
    first: usize,
    r: Reader<'_>,
) -> Result<(&[u8], Reader<'_>), ReadError>
    ensures { Gives (λ x. (x.0.now, rest_of x.1)) result (text_at len first (rest_of r.entry)) }
{
    if r.bytes.len() < len {
        return Err(ReadError::NotOurs(cut_at(first, r)));
    }
    let (front, rest) = r.bytes.split_at(len);
    Ok((
        front,
        Reader {
            bytes: rest,
            offset: r.offset + len,
            is_body: r.is_body,
        },
    ))
}

// A number that is a field of its own, from least to most.
#[tactic(auto, unfolding(crate::specs::Reading::number_within))]
pub(crate) fn u8_within(least: u8, most: u8, r: Reader<'_>) -> Result<(u8, Reader<'_>), ReadError>
    ensures { Gives (λ x. (x.0, rest_of x.1)) result (number_within w8 least most (rest_of r.entry)) }
{
    let (number, rest) = u8_at(r.offset, r)?;
    if least <= number && number <= most {
        Ok((number, rest))
    } else {
        Err(ReadError::NotOurs(r.offset))
    }
}

#[tactic(auto, unfolding(crate::specs::Reading::number_within))]
pub(crate) fn u16_within(
    least: u16,
    most: u16,
    r: Reader<'_>,
) -> Result<(u16, Reader<'_>), ReadError>
    ensures { Gives (λ x. (x.0, rest_of x.1)) result (number_within w16 least most (rest_of r.entry)) }
{
    let (number, rest) = u16_at(r.offset, r)?;
    if least <= number && number <= most {
        Ok((number, rest))
    } else {
        Err(ReadError::NotOurs(r.offset))
    }
}

#[tactic(auto, unfolding(crate::specs::Reading::number_within))]
pub(crate) fn u32_within(
    least: u32,
    most: u32,
    r: Reader<'_>,
) -> Result<(u32, Reader<'_>), ReadError>
    ensures { Gives (λ x. (x.0, rest_of x.1)) result (number_within w32 least most (rest_of r.entry)) }
{
    let (number, rest) = u32_at(r.offset, r)?;
    if least <= number && number <= most {
        Ok((number, rest))
    } else {
        Err(ReadError::NotOurs(r.offset))
    }
}

#[tactic(auto, unfolding(crate::specs::Reading::number_within))]
pub(crate) fn u64_within(
    least: u64,
    most: u64,
    r: Reader<'_>,
) -> Result<(u64, Reader<'_>), ReadError>
    ensures { Gives (λ x. (x.0, rest_of x.1)) result (number_within w64 least most (rest_of r.entry)) }
{
    let (number, rest) = u64_at(r.offset, r)?;
    if least <= number && number <= most {
        Ok((number, rest))
    } else {
        Err(ReadError::NotOurs(r.offset))
    }
}
