use super::*;
use std::alloc::Global;
use std::test::Fail;

// The salt of the examples: 0x01 to 0x14.
static SALT: [u8; 20] = [
    1, 2, 3, 4, 5, 6, 7, 8, 9, 10, 11, 12, 13, 14, 15, 16, 17, 18, 19, 20,
];

static GREETING: &[u8] =
    b"\x0a8.0.30-vtgate_cl\x00\x01\x00\x00\x00\x01\x02\x03\x04\x05\x06\x07\x08\x00\
\x0b\xa2\x2d\x02\x00\x38\x00\x15\x00\x00\x00\x00\x00\x00\x00\x00\x00\x00\
\x09\x0a\x0b\x0c\x0d\x0e\x0f\x10\x11\x12\x13\x14\x00mysql_native_password\x00";

static SWITCH_REQUEST: &[u8] = b"\xfemysql_native_password\x00\
\x01\x02\x03\x04\x05\x06\x07\x08\x09\x0a\x0b\x0c\x0d\x0e\x0f\x10\x11\x12\x13\x14\x00";

#[test]
fn a_greeting_has_the_bytes_of_the_protocol(rt: HostRuntime) -> Result<(), Fail> {
    let payload = greeting(rt.alloc(), SALT, 1)?;
    assert!(rt; payload.as_slice() == GREETING);
    let payload = greeting(rt.alloc(), SALT, 0x0403_0201)?;
    assert!(rt; &payload[18..22] == [1, 2, 3, 4].as_slice());
    let payload = switch_request(rt.alloc(), SALT)?;
    assert!(rt; payload.as_slice() == SWITCH_REQUEST);
    Ok(())
}

#[test]
fn a_salt_has_seven_bits_and_no_zero(rt: HostRuntime) {
    let mut random = SALT;
    assert!(rt; salt_of(random) == SALT);
    random[0] = 0;
    random[1] = 0x24;
    random[2] = 0x80;
    random[3] = 0xa4;
    random[4] = 0xff;
    random[5] = 0x7f;
    random[19] = 0x25;
    let salt = salt_of(random);
    assert!(rt; &salt[..7] == [1, 0x25, 1, 0x25, 0x7f, 0x7f, 7].as_slice());
    assert_eq!(rt; salt[19], 0x25);
}

// ---- responses

static RESPONSE: &[u8] = b"\x09\xa2\x08\x00\x00\x00\x00\x01\x2d\
\x00\x00\x00\x00\x00\x00\x00\x00\x00\x00\x00\x00\x00\x00\x00\x00\x00\x00\x00\x00\x00\x00\x00\
app\x00\x00commerce\x00mysql_native_password\x00";

// The bytes that stand before the user in the tables below, behind the capabilities.
static FRONT: &[u8] = b"\x00\x00\x00\x01\x2d\
\x00\x00\x00\x00\x00\x00\x00\x00\x00\x00\x00\x00\x00\x00\x00\x00\x00\x00\x00\x00\x00\x00\x00";

// The length of a field, or 255 where there is none.
fn len_of(field: &Option<Field>) -> usize {
    match field {
        Some(field) => field.as_slice().len(),
        None => 255,
    }
}

// The lengths of the user, the token, the database, the plugin and the attributes.
fn lengths(response: &Response) -> [usize; 5] {
    [
        response.user.as_slice().len(),
        response.token.as_slice().len(),
        len_of(&response.database),
        len_of(&response.plugin),
        len_of(&response.attributes),
    ]
}

fn is_same(field: &Option<Field>, other: &Option<Field>) -> bool {
    match (field, other) {
        (Some(field), Some(other)) => field.as_slice() == other.as_slice(),
        (None, None) => true,
        _ => false,
    }
}

// Which fields differ: 1 stands for the capabilities, 2, 4, 8 and so on for the next ones.
fn differences(a: &Response, b: &Response) -> [bool; 7] {
    [
        a.capabilities != b.capabilities,
        a.greatest_packet != b.greatest_packet,
        a.charset != b.charset,
        a.user.as_slice() != b.user.as_slice(),
        a.token.as_slice() != b.token.as_slice(),
        !is_same(&a.database, &b.database),
        !is_same(&a.plugin, &b.plugin),
    ]
}

// The field in which each byte of `RESPONSE` stands; 23 bytes are in none.
static FIELDS: [(usize, usize); 8] = [
    (4, 0),
    (8, 1),
    (9, 2),
    (32, 7),
    (36, 3),
    (37, 4),
    (46, 5),
    (68, 6),
];

// The bytes that can't be 255, and the fault that is named then.
static BROKEN: [(usize, usize); 6] = [(1, 0), (2, 68), (35, 68), (36, 68), (45, 68), (67, 68)];

fn field_at(at: usize) -> usize {
    for (end, field) in FIELDS.iter() {
        if at < *end {
            return *field;
        }
    }
    7
}

fn fault_at(at: usize) -> Option<usize> {
    for (place, fault) in BROKEN.iter() {
        if at == *place {
            return Some(*fault);
        }
    }
    None
}

// Whether one field alone differs, the one of this number; none of 7.
fn is_alone(differences: [bool; 7], field: usize) -> bool {
    for (i, differs) in differences.iter().enumerate() {
        if *differs != (i == field) {
            return false;
        }
    }
    true
}

#[test]
fn each_front_and_each_changed_byte_of_a_response(rt: HostRuntime) -> Result<(), Fail> {
    let alloc = rt.alloc();
    let whole = Response::read(alloc, RESPONSE)?;
    assert!(rt; lengths(&whole) == [3, 0, 8, 21, 255]);
    assert_eq!(rt; whole.capabilities, 0x0008_a209);
    assert_eq!(rt; whole.greatest_packet, 0x0100_0000);
    assert_eq!(rt; whole.charset, 45);
    let mut bytes = RESPONSE.to_vec(alloc)?;
    for at in 0..bytes.len() {
        let cut = Response::read(alloc, &bytes[..at]).err();
        assert!(rt; cut == Some(BadHandshake::Wrong { at }));
        let kept = bytes[at];
        bytes[at] = 255;
        match Response::read(alloc, &bytes) {
            Ok(changed) => {
                assert!(rt; fault_at(at).is_none());
                assert!(rt; is_alone(differences(&whole, &changed), field_at(at)));
            }
            Err(BadHandshake::Wrong { at: fault }) => {
                assert!(rt; fault_at(at) == Some(fault));
            }
            Err(BadHandshake::Memory) => return Err("no memory".into()),
        }
        bytes[at] = kept;
    }
    Ok(())
}

// Capabilities, what stands behind the 23 bytes, and the lengths of what is read or the place of the fault.
type Form = (u32, &'static [u8], Result<[usize; 5], usize>);

static FORMS: [Form; 18] = [
    // One length byte, nothing, and a length-encoded length before the token.
    (0x8200, b"u\x00\x02ab", Ok([1, 2, 255, 255, 255])),
    (0x8200, b"\x00\x00", Ok([0, 0, 255, 255, 255])),
    (0x0200, b"u\x00abc\x00", Ok([1, 3, 255, 255, 255])),
    (0x0200, b"u\x00abc", Err(37)),
    (0x20_8200, b"u\x00\x02ab", Ok([1, 2, 255, 255, 255])),
    (0x20_8200, b"u\x00\xfc\x02\x00ab", Ok([1, 2, 255, 255, 255])),
    (
        0x20_0200,
        b"u\x00\xfd\x01\x00\x00a",
        Ok([1, 1, 255, 255, 255]),
    ),
    (
        0x20_0200,
        b"u\x00\xfe\x01\x00\x00\x00\x00\x00\x00\x00a",
        Ok([1, 1, 255, 255, 255]),
    ),
    // 251 and 255 begin no length; a length that is cut, or too long, ends with the payload.
    (0x20_8200, b"u\x00\xfb", Err(34)),
    (0x20_8200, b"u\x00\xffab", Err(34)),
    (0x20_8200, b"u\x00\xfc\x02", Err(36)),
    (
        0x20_8200,
        b"u\x00\xfe\xff\xff\xff\xff\xff\xff\xff\xffab",
        Err(45),
    ),
    // An empty database is none, an empty plugin is one; what stands behind the last field isn't looked at.
    (0x8_8208, b"u\x00\x00\x00\x00more", Ok([1, 0, 255, 0, 255])),
    (0x10_8200, b"u\x00\x00\x03abcmore", Ok([1, 0, 255, 255, 3])),
    (0x10_8200, b"u\x00\x00\xff", Err(35)),
    (0x10_8200, b"u\x00\x00\x03ab", Err(38)),
    // SSL, and PROTOCOL_41 missing.
    (0x8a00, b"u\x00\x00", Err(0)),
    (0x8000, b"", Err(0)),
];

#[test]
fn the_forms_of_a_response(rt: HostRuntime) -> Result<(), Fail> {
    let alloc = rt.alloc();
    for (capabilities, fields, expected) in FORMS {
        let mut payload = capabilities.to_le_bytes().to_vec(alloc)?;
        payload.extend_from_slice(FRONT)?;
        payload.extend_from_slice(fields)?;
        match Response::read(alloc, &payload) {
            Ok(response) => assert!(rt; expected == Ok(lengths(&response))),
            Err(BadHandshake::Wrong { at }) => assert!(rt; expected == Err(at)),
            Err(BadHandshake::Memory) => return Err("no memory".into()),
        }
    }
    Ok(())
}

// ---- tokens

static USERS: &[u8] = br#"{"users":[
 {"name":"app","native":""},
 {"name":"root","native":"2470c0c06dee42fd1618bb99005adca2ec9d1e19","comment":1},
 {"native":"14E65567ABDB5135D0CFD9A70B3032C179A49EE7","name":"upper"},
 {"name":"root","native":""}
]}"#;

// The tokens of the passwords `password` and `secret` for the salt.
const PASSWORD: &[u8] =
    b"\xc1\x7d\x60\x09\xa5\xcb\x47\xe5\x9f\x74\x83\xfc\xf0\x55\x53\xbb\xbf\x7d\xd0\xd6";

const SECRET: &[u8] =
    b"\xb3\x2b\xb3\xa5\x83\xe1\x34\x0c\x0a\x11\x08\xd5\x8b\x1b\xe4\x97\x81\xad\x8c\x2f";

const NATIVE: Option<&[u8]> = Some(b"mysql_native_password");

static LOGINS: [(&[u8], &[u8], Option<&[u8]>, Verdict); 14] = [
    (b"app", b"", NATIVE, Verdict::Accept),
    (b"app", PASSWORD, NATIVE, Verdict::Deny),
    (b"root", PASSWORD, NATIVE, Verdict::Accept),
    (b"root", PASSWORD, None, Verdict::Accept),
    (b"root", b"", NATIVE, Verdict::Deny),
    (b"root", SECRET, NATIVE, Verdict::Deny),
    (b"root", b"\xc1\x7d\x60", NATIVE, Verdict::Deny),
    (
        b"root",
        b"\xc1\x7d\x60\x09\xa5\xcb\x47\xe5\x9f\x74\x83\xfc\xf0\x55\x53\xbb\xbf\x7d\xd0\xd6\x00",
        NATIVE,
        Verdict::Deny,
    ),
    (b"upper", SECRET, NATIVE, Verdict::Accept),
    (b"Root", PASSWORD, NATIVE, Verdict::Deny),
    (b"", b"", NATIVE, Verdict::Deny),
    (
        b"root",
        PASSWORD,
        Some(b"caching_sha2_password"),
        Verdict::Switch,
    ),
    (b"nobody", b"", Some(b""), Verdict::Switch),
    (b"nobody", b"", None, Verdict::Deny),
];

// A type that may be shared among threads.
fn shared<T: Sync>(value: &T) -> &T {
    value
}

fn login(
    alloc: Global,
    user: &[u8],
    token: &[u8],
    plugin: Option<&[u8]>,
) -> Result<Response, Fail> {
    Ok(Response {
        capabilities: 0x0008_8200,
        greatest_packet: 0,
        charset: 45,
        user: Field::from_slice(alloc, user)?,
        token: Field::from_slice(alloc, token)?,
        database: None,
        plugin: match plugin {
            Some(plugin) => Some(Field::from_slice(alloc, plugin)?),
            None => None,
        },
        attributes: None,
    })
}

#[test]
fn tokens_are_checked(rt: HostRuntime) -> Result<(), Fail> {
    let alloc = rt.alloc();
    assert!(rt; token(alloc, b"password", SALT)?.as_slice() == PASSWORD);
    assert!(rt; token(alloc, b"secret", SALT)?.as_slice() == SECRET);
    let users = read_users(alloc, USERS)?;
    assert_eq!(rt; users.as_slice().len(), 4);
    for (user, token, plugin, verdict) in LOGINS {
        let response = login(alloc, user, token, plugin)?;
        assert!(rt; check(shared(&users), SALT, &response) == verdict);
    }
    let foreign = login(alloc, b"root", b"", Some(b"caching_sha2_password"))?;
    let switched = foreign.switched(Field::from_slice(alloc, PASSWORD)?);
    assert!(rt; check(&users, SALT, &switched) == Verdict::Accept);
    Ok(())
}

// ---- users files

static REFUSED: [(&[u8], usize); 14] = [
    (b"", 0),
    (b"{\"users\":[]", 0),
    (b"{\"users\":[]}\xff", 0),
    (b"[]", 0),
    (b"{}", 0),
    (b"{\"users\":{}}", 0),
    (b"{\"users\":[1]}", 1),
    (b"{\"users\":[{\"native\":\"\"}]}", 1),
    (b"{\"users\":[{\"name\":\"a\"}]}", 1),
    (b"{\"users\":[{\"name\":1,\"native\":\"\"}]}", 1),
    (
        b"{\"users\":[{\"name\":\"a\",\"native\":\"\"},{\"name\":\"b\",\"native\":null},{}]}",
        2,
    ),
    (
        b"{\"users\":[{\"name\":\"a\",\"native\":\"2470c0c06dee42fd1618bb99005adca2ec9d1e1\"}]}",
        1,
    ),
    (
        b"{\"users\":[{\"name\":\"a\",\"native\":\"2470c0c06dee42fd1618bb99005adca2ec9d1e1g\"}]}",
        1,
    ),
    (
        b"{\"users\":[{\"name\":\"a\",\"native\":\"2470c0c06dee42fd1618bb99005adca2ec9d1e1900\"}]}",
        1,
    ),
];

#[test]
fn a_users_file_is_refused_at_its_first_fault(rt: HostRuntime) -> Result<(), Fail> {
    let alloc = rt.alloc();
    for (text, user) in REFUSED {
        let fault = read_users(alloc, text).err();
        assert!(rt; fault == Some(UsersFault::Refused { user }));
    }
    let none = read_users(alloc, b"{\"users\":[]}")?;
    assert!(rt; none.as_slice().is_empty());
    Ok(())
}
