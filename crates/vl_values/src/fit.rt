ghost use Rattle.std.specs.Prelude.{◌≡◌, ◌<◌, ◌≤◌, ◌^◌, ◌<ℤ◌, pos, neg_ℤ, IsTrue, MatchOption, length};
ghost use Rattle.std.specs.Char.{is_ascii_digit};
ghost use Rattle.std.specs.List.{list_all};
ghost use Rattle.std.specs.Str.Parse.{digits_value};
ghost use Rattle.vl_values.specs.declared.col_type.ColType.TheVariants.{VarChar as AVarChar};
ghost use Rattle.vl_values.specs.Fit.{Answers, are_digits, fit_bytes, fit_integer, fit_spelled, fit_text, fitted, integer_in, is_number_type};

use crate::bytes::Bytes;
use crate::col_type::ColType;
use crate::fit_fault::FitFault;
use crate::value::Value;
use std::alloc::Global;

// ---- bytes

fn bytes_within(bytes: Vec<u8>, most: u16) -> Result<Value, FitFault>
    ensures { result ≡ fit_bytes most bytes.items }
{
    if bytes.len() > usize::from(most) {
        return Err(FitFault::TooLong);
    }
    Ok(Value::Bytes(Bytes::from_vec(bytes)))
}

// A text that is too long isn't copied.
fn copy_within(alloc: Global, text: &[u8], most: u16) -> Result<Value, FitFault>
    ensures { Answers result (fit_bytes most text.now) }
{
    if text.len() > usize::from(most) {
        return Err(FitFault::TooLong);
    }
    let bytes = Bytes::from_slice(alloc, text)?;
    Ok(Value::Bytes(bytes))
}

// ---- numbers

fn decimal_within(alloc: Global, n: u64, most: u16) -> Result<Value, FitFault>
    ensures { Answers result (fit_integer (AVarChar most) (pos n)) }
{
    let text = format!(in alloc; "{n}")?;
    bytes_within(text.into_bytes(), most)
}

fn signed_decimal_within(alloc: Global, n: i64, most: u16) -> Result<Value, FitFault>
    ensures { Answers result (fit_integer (AVarChar most) n) }
{
    let text = format!(in alloc; "{n}")?;
    bytes_within(text.into_bytes(), most)
}

// A number that isn't negative.
fn fit_unsigned(alloc: Global, n: u64, ty: ColType) -> Result<Value, FitFault>
    ensures { Answers result (fit_integer ty (pos n)) }
{
    match ty {
        ColType::BigInt => match i64::try_from(n) {
            Ok(n) => Ok(Value::Int(n)),
            Err(_) => Err(FitFault::Range),
        },
        ColType::BigUint => Ok(Value::Uint(n)),
        ColType::Int => match i32::try_from(n) {
            Ok(n) => Ok(Value::Int(i64::from(n))),
            Err(_) => Err(FitFault::Range),
        },
        ColType::Uint32 => {
            if n > u64::from(u32::MAX) {
                return Err(FitFault::Range);
            }
            Ok(Value::Uint(n))
        }
        ColType::VarChar(most) | ColType::VarBinary(most) => decimal_within(alloc, n, most),
    }
}

fn fit_negative(alloc: Global, n: i64, ty: ColType) -> Result<Value, FitFault>
    requires { n <ℤ pos 0 }
    ensures { Answers result (fit_integer ty n) }
{
    match ty {
        ColType::BigInt => Ok(Value::Int(n)),
        ColType::Int => match i32::try_from(n) {
            Ok(n) => Ok(Value::Int(i64::from(n))),
            Err(_) => Err(FitFault::Range),
        },
        ColType::BigUint | ColType::Uint32 => Err(FitFault::Range),
        ColType::VarChar(most) | ColType::VarBinary(most) => signed_decimal_within(alloc, n, most),
    }
}

fn fit_signed(alloc: Global, n: i64, ty: ColType) -> Result<Value, FitFault>
    ensures { Answers result (fit_integer ty n) }
{
    match u64::try_from(n) {
        Ok(n) => fit_unsigned(alloc, n, ty),
        Err(_) => fit_negative(alloc, n, ty),
    }
}

// ---- numbers that texts spell

fn are_all_digits(bytes: &[u8]) -> bool
    ensures { result ≡ list_all is_ascii_digit bytes.now }
{
    bytes.iter().all(|byte| byte.is_ascii_digit())
}

fn are_digits(bytes: &[u8]) -> bool
    ensures { result ≡ are_digits bytes.now }
{
    !bytes.is_empty() && are_all_digits(bytes)
}

// What decimal digits spell, where it is below 2^64.
fn value_of(digits: &[u8]) -> Option<u64>
    requires { IsTrue (are_digits digits.now) }
    ensures { MatchOption result (2 ^ 64 ≤ digits_value 10 digits.now) (λ n. n ≡ digits_value 10 digits.now) }
{
    let Ok(text) = str::from_utf8(digits) else {
        return None;
    };
    match text.parse::<u64>() {
        Ok(n) => Some(n),
        Err(_) => None,
    }
}

fn fit_digits(alloc: Global, digits: &[u8], ty: ColType) -> Result<Value, FitFault>
    requires digits { IsTrue (are_digits digits.now) }
    requires number { IsTrue (is_number_type ty) }
    ensures { Answers result (fit_integer ty (pos (digits_value 10 digits.now))) }
{
    match value_of(digits) {
        Some(n) => fit_unsigned(alloc, n, ty),
        None => Err(FitFault::Range),
    }
}

// A minus and digits.
fn fit_negated(alloc: Global, digits: &[u8], ty: ColType) -> Result<Value, FitFault>
    requires digits { IsTrue (are_digits digits.now) }
    requires number { IsTrue (is_number_type ty) }
    ensures { Answers result (fit_integer ty (neg_ℤ (pos (digits_value 10 digits.now)))) }
{
    let Some(n) = value_of(digits) else {
        return Err(FitFault::Range);
    };
    match 0_i64.checked_sub_unsigned(n) {
        Some(n) => fit_signed(alloc, n, ty),
        None => Err(FitFault::Range),
    }
}

// The number that a text spells, into a column of numbers.
fn fit_spelled(alloc: Global, text: &[u8], ty: ColType) -> Result<Value, FitFault>
    requires { IsTrue (is_number_type ty) }
    ensures { Answers result (fit_spelled ty (integer_in text.now)) }
{
    match text {
        [b'-', digits @ ..] => {
            if !are_digits(digits) {
                return Err(FitFault::NotNumber);
            }
            fit_negated(alloc, digits, ty)
        }
        _ => {
            if !are_digits(text) {
                return Err(FitFault::NotNumber);
            }
            fit_digits(alloc, text, ty)
        }
    }
}

fn fit_text(alloc: Global, text: &[u8], ty: ColType) -> Result<Value, FitFault>
    ensures { Answers result (fit_text ty text.now) }
{
    match ty {
        ColType::BigInt | ColType::BigUint | ColType::Int | ColType::Uint32 => {
            fit_spelled(alloc, text, ty)
        }
        ColType::VarChar(most) | ColType::VarBinary(most) => copy_within(alloc, text, most),
    }
}

/// The value that a column of this type takes for a given one: a signed number for BIGINT and INT, an
/// unsigned one for their unsigned forms, bytes for VARCHAR and VARBINARY. A text into a column of
/// numbers is read as `[-]digits`; a number into a column of bytes is its decimal text. NULL is taken
/// where the column may hold it.
pub fn fit(alloc: Global, value: &Value, ty: &ColType, nullable: bool) -> Result<Value, FitFault>
    ensures { Answers result (fitted value.now ty.now nullable) }
{
    match value {
        Value::Null => {
            if nullable {
                return Ok(Value::Null);
            }
            Err(FitFault::Null)
        }
        Value::Int(n) => fit_signed(alloc, *n, *ty),
        Value::Uint(n) => fit_unsigned(alloc, *n, *ty),
        Value::Bytes(text) => fit_text(alloc, text.as_slice(), *ty),
    }
}
