ghost use Rattle.std.specs.Prelude.{◌≡◌, ◌∷◌, [], true, false, IfOk, IfErr, Ok};
ghost use Rattle.vl_values.specs.declared.cause.Cause.TheVariants.{NotNull, OutOfRange};
ghost use Rattle.vl_values.specs.Fit.{fitted};
ghost use Rattle.vl_model.specs.Columns.{is_negative, misfit, most_bytes, taken};
ghost use Rattle.vl_model.specs.Refusals.{IsFirst, faults};

use crate::asks::Asks;
use std::alloc::Global;
use vl_catalog::Column;
use vl_values::cause::Cause;
use vl_values::col_type::ColType;
use vl_values::fit::fit;
use vl_values::fit_fault::FitFault;
use vl_values::value::Value;

fn is_negative(value: &Value) -> bool
    ensures { result ≡ is_negative value.now }
{
    match value {
        Value::Int(n) => *n < 0,
        Value::Null | Value::Uint(_) | Value::Bytes(_) => false,
    }
}

fn most_bytes(ty: ColType) -> u16
    ensures { result ≡ most_bytes ty }
{
    match ty {
        ColType::VarChar(most) | ColType::VarBinary(most) => most,
        ColType::BigInt | ColType::BigUint | ColType::Int | ColType::Uint32 => 0,
    }
}

fn not_null(alloc: Global, column: &Column) -> Cause
    ensures { IsFirst result (NotNull column.now.name ∷ []) }
{
    match column.name.copy(alloc) {
        Ok(column) => Cause::NotNull { column },
        Err(_) => Cause::OutOfMemory,
    }
}

fn out_of_range(alloc: Global, column: &Column) -> Cause
    ensures { IsFirst result (OutOfRange column.now.name ∷ []) }
{
    match column.name.copy(alloc) {
        Ok(column) => Cause::OutOfRange { column },
        Err(_) => Cause::OutOfMemory,
    }
}

// Why the column doesn't take a value that doesn't fit it.
fn misfit(alloc: Global, column: &Column, fault: FitFault) -> Cause
    ensures { IsFirst result (misfit column.now fault ∷ []) }
{
    let Ok(name) = column.name.copy(alloc) else {
        return Cause::OutOfMemory;
    };
    match fault {
        FitFault::Null => Cause::NotNull { column: name },
        FitFault::Range => Cause::OutOfRange { column: name },
        FitFault::NotNumber => Cause::NotNumber { column: name },
        FitFault::TooLong => Cause::TooLong {
            column: name,
            most: most_bytes(column.ty),
        },
        FitFault::Memory => Cause::OutOfMemory,
    }
}

// What fits the column's type is looked at by its vindexes.
fn taken(alloc: Global, asks: Asks, column: &Column, value: Value) -> Result<Value, Cause>
    ensures refused { IfErr result (λ cause. IsFirst cause (faults (taken asks.needs_value asks.numbered column.now (Ok value) ∷ []))) }
    ensures value { IfOk result (λ taken_value. taken asks.needs_value asks.numbered column.now (Ok value) ≡ Ok taken_value) }
{
    if asks.needs_value && value.is_null() {
        return Err(not_null(alloc, column));
    }
    if asks.numbered && is_negative(&value) {
        return Err(out_of_range(alloc, column));
    }
    Ok(value)
}

fn fitted(
    alloc: Global,
    asks: Asks,
    column: &Column,
    nullable: bool,
    value: &Value,
) -> Result<Value, Cause>
    ensures refused { IfErr result (λ cause. IsFirst cause (faults (taken asks.needs_value asks.numbered column.now (fitted value.now column.now.ty nullable) ∷ []))) }
    ensures value { IfOk result (λ taken_value. taken asks.needs_value asks.numbered column.now (fitted value.now column.now.ty nullable) ≡ Ok taken_value) }
{
    match fit(alloc, value, &column.ty, nullable) {
        Ok(value) => taken(alloc, asks, column, value),
        Err(fault) => Err(misfit(alloc, column, fault)),
    }
}

/// The value that is stored in a column for a given one.
pub(crate) fn stored(
    alloc: Global,
    asks: Asks,
    column: &Column,
    value: &Value,
) -> Result<Value, Cause>
    ensures refused { IfErr result (λ cause. IsFirst cause (faults (taken asks.needs_value asks.numbered column.now (fitted value.now column.now.ty column.now.nullable) ∷ []))) }
    ensures value { IfOk result (λ taken_value. taken asks.needs_value asks.numbered column.now (fitted value.now column.now.ty column.now.nullable) ≡ Ok taken_value) }
{
    fitted(alloc, asks, column, column.nullable, value)
}

/// The value that a column is tested against for a given one. NULL may stand there.
pub(crate) fn compared(
    alloc: Global,
    asks: Asks,
    column: &Column,
    value: &Value,
) -> Result<Value, Cause>
    ensures refused { IfErr result (λ cause. IsFirst cause (faults (taken false asks.numbered column.now (fitted value.now column.now.ty true) ∷ []))) }
    ensures value { IfOk result (λ taken_value. taken false asks.numbered column.now (fitted value.now column.now.ty true) ≡ Ok taken_value) }
{
    let asks = Asks {
        needs_value: false,
        numbered: asks.numbered,
    };
    fitted(alloc, asks, column, true, value)
}
