ghost use Rattle.std.specs.Prelude.{◌≡◌, ◌++◌, IfOk, OnOk};
ghost use Rattle.my_auth.specs.Handshake.{ended_by_zero, greeting, greeting_end, greeting_front, greeting_middle, switch_request};

use crate::capabilities::OFFERED;
use std::alloc::{AllocError, Global};

const VERSION: &[u8] = b"8.0.30-vtgate_cl";

/// The one method of authentication.
pub(crate) const NATIVE_PLUGIN: &[u8] = b"mysql_native_password";

/// The number of the protocol's greeting.
const PROTOCOL: u8 = 10;

/// The character set utf8mb4.
const CHARSET: u8 = 45;

/// Autocommit is on, and no transaction is open.
const STATUS: u16 = 2;

/// The length of a salt and the 0 behind it.
const SALT_LEN: u8 = 21;

/// The mark of a switch request.
const SWITCH: u8 = 0xfe;

/// How many bytes a greeting and a switch request have.
const GREETING_LEN: usize = 84;

const SWITCH_LEN: usize = 44;

/// Adds the bytes, and a 0 behind them.
fn push_ended(payload: &mut Vec<u8>, bytes: &[u8]) -> Result<(), AllocError>
    ensures { OnOk result (payload.new.items ≡ payload.old.items ++ ended_by_zero bytes.now) }
{
    payload.extend_from_slice(bytes)?;
    payload.extend_from_slice(&[0])
}

fn push_front(payload: &mut Vec<u8>, salt: &[u8; 20], thread: u32) -> Result<(), AllocError>
    ensures { OnOk result (payload.new.items ≡ payload.old.items ++ greeting_front salt.now thread) }
{
    payload.extend_from_slice(&[PROTOCOL])?;
    push_ended(payload, VERSION)?;
    payload.extend_from_slice(&thread.to_le_bytes())?;
    push_ended(payload, &salt[..8])
}

fn push_middle(payload: &mut Vec<u8>) -> Result<(), AllocError>
    ensures { OnOk result (payload.new.items ≡ payload.old.items ++ greeting_middle) }
{
    let [first, second, third, fourth] = OFFERED.to_le_bytes();
    payload.extend_from_slice(&[first, second, CHARSET])?;
    payload.extend_from_slice(&STATUS.to_le_bytes())?;
    payload.extend_from_slice(&[third, fourth, SALT_LEN])?;
    payload.extend_from_slice(&[0; 10])
}

fn push_end(payload: &mut Vec<u8>, salt: &[u8; 20]) -> Result<(), AllocError>
    ensures { OnOk result (payload.new.items ≡ payload.old.items ++ greeting_end salt.now) }
{
    let (_, rest) = salt.split_at(8);
    push_ended(payload, rest)?;
    push_ended(payload, NATIVE_PLUGIN)
}

/// The first payload of a connection (HandshakeV10), with the salt and the number of the connection's
/// thread, which is that of its session.
pub fn greeting(alloc: Global, salt: [u8; 20], thread: u32) -> Result<Vec<u8>, AllocError>
    ensures { IfOk result (λ payload. payload.items ≡ greeting salt thread) }
{
    let mut payload = Vec::with_capacity(alloc, GREETING_LEN)?;
    push_front(&mut payload, &salt, thread)?;
    push_middle(&mut payload)?;
    push_end(&mut payload, &salt)?;
    Ok(payload)
}

/// What a client is sent that named another plugin (AuthSwitchRequest), with the salt of its greeting.
pub fn switch_request(alloc: Global, salt: [u8; 20]) -> Result<Vec<u8>, AllocError>
    ensures { IfOk result (λ payload. payload.items ≡ switch_request salt) }
{
    let mut payload = Vec::with_capacity(alloc, SWITCH_LEN)?;
    payload.extend_from_slice(&[SWITCH])?;
    push_ended(&mut payload, NATIVE_PLUGIN)?;
    push_ended(&mut payload, &salt)?;
    Ok(payload)
}
