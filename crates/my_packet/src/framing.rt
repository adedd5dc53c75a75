ghost use Rattle.std.specs.Prelude.{◌≡◌, ◌<◌, ◌^◌, ◌++◌, length, IfOk};
ghost use Rattle.my_packet.specs.Bytes.{header};

use std::alloc::{AllocError, Global};

/// The header of a packet whose payload has `len` bytes.
pub fn header_of(len: usize, seq: u8) -> [u8; 4]
    requires { len < 2 ^ 24 }
    ensures { result ≡ header len seq }
{
    [
        (len % 256) as u8,
        (len / 256 % 256) as u8,
        (len / 65536) as u8,
        seq,
    ]
}

/// The packet with this payload and number, as bytes. A payload of 16,777,215 bytes or more would take
/// several packets.
pub fn frame(alloc: Global, payload: &[u8], seq: u8) -> Result<Vec<u8>, AllocError>
    requires { length payload.now < 16777215 }
    ensures { IfOk result (λ bytes. bytes.items ≡ header (length payload.now) seq ++ payload.now) }
{
    let mut bytes = Vec::with_capacity(alloc, payload.len() + 4)?;
    bytes.extend_from_slice(&header_of(payload.len(), seq))?;
    bytes.extend_from_slice(payload)?;
    Ok(bytes)
}
