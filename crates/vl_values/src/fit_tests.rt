use crate::bytes::Bytes;
use crate::col_type::ColType;
use crate::fit::fit;
use crate::fit_fault::FitFault;
use crate::value::Value;
use std::alloc::{AllocError, Global};
use std::test::Fail;

fn fits(alloc: Global, value: &Value, ty: ColType, right: &Value) -> bool {
    match fit(alloc, value, &ty, false) {
        Ok(value) => value == *right,
        Err(_) => false,
    }
}

fn fault(alloc: Global, value: &Value, ty: ColType) -> Option<FitFault> {
    match fit(alloc, value, &ty, false) {
        Ok(_) => None,
        Err(fault) => Some(fault),
    }
}

fn text(alloc: Global, bytes: &[u8]) -> Result<Value, AllocError> {
    Ok(Value::Bytes(Bytes::from_slice(alloc, bytes)?))
}

#[test]
fn numbers_at_the_ends_of_their_ranges(rt: HostRuntime) {
    let alloc = rt.alloc();
    let signed: [(ColType, i64, u64); 2] = [
        (ColType::BigInt, -9223372036854775808, 9223372036854775807),
        (ColType::Int, -2147483648, 2147483647),
    ];
    for (ty, least, most) in signed {
        assert!(rt; fits(alloc, &Value::Int(least), ty, &Value::Int(least)));
        assert!(rt; fits(alloc, &Value::Int(-1), ty, &Value::Int(-1)));
        assert_eq!(rt; fault(alloc, &Value::Uint(most), ty), None);
        assert_eq!(rt;
            fault(alloc, &Value::Uint(most + 1), ty),
            Some(FitFault::Range)
        );
    }
    let unsigned: [(ColType, u64); 2] = [
        (ColType::BigUint, 18446744073709551615),
        (ColType::Uint32, 4294967295),
    ];
    for (ty, most) in unsigned {
        assert!(rt; fits(alloc, &Value::Uint(most), ty, &Value::Uint(most)));
        assert!(rt; fits(alloc, &Value::Int(7), ty, &Value::Uint(7)));
        assert_eq!(rt; fault(alloc, &Value::Int(-1), ty), Some(FitFault::Range));
    }
    assert_eq!(rt;
        fault(alloc, &Value::Int(-2147483649), ColType::Int),
        Some(FitFault::Range)
    );
    assert_eq!(rt;
        fault(alloc, &Value::Uint(4294967296), ColType::Uint32),
        Some(FitFault::Range)
    );
}

#[test]
fn texts_into_columns_of_numbers(rt: HostRuntime) -> Result<(), Fail> {
    let alloc = rt.alloc();
    let texts: [(&[u8], Option<FitFault>); 13] = [
        (b"0", None),
        (b"-0", None),
        (b"007", None),
        (b"-9223372036854775808", None),
        (b"9223372036854775807", None),
        (b"9223372036854775808", Some(FitFault::Range)),
        (b"-9223372036854775809", Some(FitFault::Range)),
        (b"99999999999999999999999", Some(FitFault::Range)),
        (b"", Some(FitFault::NotNumber)),
        (b"-", Some(FitFault::NotNumber)),
        (b"+1", Some(FitFault::NotNumber)),
        (b" 1", Some(FitFault::NotNumber)),
        (b"1e3", Some(FitFault::NotNumber)),
    ];
    for (bytes, right) in texts {
        let value = text(alloc, bytes)?;
        assert_eq!(rt; fault(alloc, &value, ColType::BigInt), right);
    }
    let value = text(alloc, b"-0")?;
    assert!(rt; fits(alloc, &value, ColType::BigUint, &Value::Uint(0)));
    let value = text(alloc, b"-12")?;
    assert!(rt; fits(alloc, &value, ColType::Int, &Value::Int(-12)));
    Ok(())
}

#[test]
fn values_into_columns_of_bytes(rt: HostRuntime) -> Result<(), Fail> {
    let alloc = rt.alloc();
    let minus = text(alloc, b"-12")?;
    assert!(rt; fits(alloc, &Value::Int(-12), ColType::VarChar(3), &minus));
    assert_eq!(rt;
        fault(alloc, &Value::Int(-12), ColType::VarBinary(2)),
        Some(FitFault::TooLong)
    );
    let most = text(alloc, b"18446744073709551615")?;
    assert!(rt;
        fits(
            alloc,
            &Value::Uint(18446744073709551615),
            ColType::VarChar(20),
            &most
        )
    );
    assert!(rt; fits(alloc, &most, ColType::VarBinary(20), &most));
    assert_eq!(rt;
        fault(alloc, &most, ColType::VarChar(19)),
        Some(FitFault::TooLong)
    );
    assert_eq!(rt;
        fault(alloc, &Value::Null, ColType::VarChar(19)),
        Some(FitFault::Null)
    );
    let null = fit(alloc, &Value::Null, &ColType::Int, true);
    assert!(rt; matches!(null, Ok(Value::Null)));
    Ok(())
}
