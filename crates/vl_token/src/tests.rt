use crate::{Token, lex, number, unescape, unhex};
use std::test::Fail;

#[test]
fn a_text_is_cut_into_tokens(rt: HostRuntime) -> Result<(), Fail> {
    let text = b"x1 `a b`,'it''s' /* ; */ X'0A' -7-- no\n@@v2 #";
    let lexed = lex(rt.alloc(), text)?;
    assert_eq!(rt;
        lexed.left.as_slice(),
        [45, 42, 37, 36, 20, 14, 6, 1].as_slice()
    );
    assert_eq!(rt; lexed.tokens.len(), 8);
    assert!(rt; matches!(lexed.tokens[0], Token::Word(_)));
    assert!(rt; matches!(lexed.tokens[1], Token::Quoted(_)));
    assert!(rt; matches!(lexed.tokens[2], Token::Mark(b',')));
    assert!(rt; matches!(lexed.tokens[3], Token::Text(b'\'', _)));
    assert!(rt; matches!(lexed.tokens[4], Token::Hex(_)));
    assert!(rt; matches!(lexed.tokens[5], Token::Number(true, _)));
    assert!(rt; matches!(lexed.tokens[6], Token::Variable(_)));
    assert!(rt; matches!(lexed.tokens[7], Token::Bad));
    Ok(())
}

#[test]
fn escapes_are_undone(rt: HostRuntime) -> Result<(), Fail> {
    let cases: [(&[u8], &[u8]); 13] = [
        (b"\\0", b"\x00"),
        (b"\\b", b"\x08"),
        (b"\\n", b"\n"),
        (b"\\r", b"\r"),
        (b"\\t", b"\t"),
        (b"\\Z", b"\x1a"),
        (b"\\\\", b"\\"),
        (b"\\'", b"'"),
        (b"\\\"", b"\""),
        (b"\\%", b"\\%"),
        (b"\\_", b"\\_"),
        (b"\\x", b"x"),
        (b"it''s", b"it's"),
    ];
    for (raw, bytes) in cases {
        assert_eq!(rt; unescape(rt.alloc(), b'\'', raw)?.as_slice(), bytes);
    }
    Ok(())
}

#[test]
fn numbers_and_hexadecimal_digits(rt: HostRuntime) -> Result<(), Fail> {
    assert_eq!(rt; number(b"007"), Some(7));
    assert_eq!(rt; number(b"18446744073709551615"), Some(u64::MAX));
    assert_eq!(rt; number(b"18446744073709551616"), None);
    assert_eq!(rt;
        unhex(rt.alloc(), b"00fFa9")?.as_slice(),
        b"\x00\xff\xa9".as_slice()
    );
    Ok(())
}
