use crate::{
    Writer, bit, called, charset, count, digits, key, literal, mark, name, starts_key, starts_mark,
    starts_variable, variable,
};
use std::test::Fail;
use vl_token::lex;
use vl_values::bytes::Bytes;
use vl_values::value::Value;

#[test]
fn terminals_are_read(rt: HostRuntime) -> Result<(), Fail> {
    let alloc = rt.alloc();
    let lexed = lex(alloc, b"select count ( from `a` , -7 12 1 1 @@V utf8 'x'")?;
    let rest = key(b"SELECT", lexed.tokens.as_slice())?;
    assert!(rt; starts_key(b"COUNT", rest));
    let rest = called(b"COUNT", rest).ok_or("COUNT and a bracket")?;
    let (word, rest) = name(alloc, rest)?;
    assert_eq!(rt; word.as_slice(), b"from".as_slice());
    let (word, rest) = name(alloc, rest)?;
    assert_eq!(rt; word.as_slice(), b"a".as_slice());
    assert!(rt; starts_mark(b',', rest));
    let rest = mark(b',', rest)?;
    let (value, rest) = literal(alloc, rest)?;
    assert!(rt; matches!(value, Value::Int(-7)));
    let (n, rest) = count(rest)?;
    assert_eq!(rt; n, 12);
    let (on, rest) = bit(rest)?;
    assert!(rt; on);
    let rest = digits(b"1", rest)?;
    assert!(rt; starts_variable(b"v", rest));
    let rest = variable(b"v", rest)?;
    let (word, rest) = charset(alloc, rest)?;
    assert_eq!(rt; word.as_slice(), b"utf8".as_slice());
    let (word, rest) = charset(alloc, rest)?;
    assert_eq!(rt; word.as_slice(), b"x".as_slice());
    assert_eq!(rt; rest.len(), 0);
    Ok(())
}

#[test]
fn items_are_written(rt: HostRuntime) -> Result<(), Fail> {
    let alloc = rt.alloc();
    let mut writer = Writer::new(alloc);
    writer.key(b"IN")?;
    writer.sign(b'(')?;
    writer.name(b"a b")?;
    writer.sign(b',')?;
    writer.literal(alloc, &Value::Int(-7))?;
    writer.sign(b')')?;
    writer.count(alloc, 12)?;
    writer.digits(b"1")?;
    writer.variable(b"v")?;
    writer.charset(b"it's")?;
    let text: Bytes = writer.into_text();
    assert_eq!(rt;
        text.as_slice(),
        b"IN (`a b`, -7) 12 1 @@v 'it\\'s'".as_slice()
    );
    Ok(())
}
