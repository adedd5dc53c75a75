ghost use Rattle.std.specs.Prelude.{◌≡◌, IfOk, None};
ghost use Rattle.std.specs.Option.{option_map};
ghost use Rattle.my_auth.specs.Reading.{Reads, viewed};
ghost use Rattle.my_auth.specs.Spelling.{ReadsWritten};

use crate::bad_handshake::BadHandshake;
use crate::field::Field;
use crate::reading::fields_of;
use crate::response_fields::ResponseFields;
use std::alloc::{AllocError, Global};

/// A client's response to the greeting (HandshakeResponse41).
#[derive(Drop)]
pub struct Response {
    /// The flags as the client sent them; those that weren't offered mean nothing.
    pub capabilities: u32,
    /// The most bytes of a packet that the client takes.
    pub greatest_packet: u32,
    /// The number of the client's character set.
    pub charset: u8,
    pub user: Field,
    pub token: Field,
    /// The database to begin with; an empty one is none.
    pub database: Option<Field>,
    /// The method of authentication, where the client names one.
    pub plugin: Option<Field>,
    /// The connection's attributes as they came, without their length.
    pub attributes: Option<Field>,
}

fn copied(alloc: Global, bytes: Option<&[u8]>) -> Result<Option<Field>, AllocError>
    ensures { IfOk result (λ field. field ≡ option_map (λ x. x.now) bytes.entry) }
{
    match bytes {
        Some(bytes) => Ok(Some(Field::from_slice(alloc, bytes)?)),
        None => Ok(None),
    }
}

fn response_of(alloc: Global, fields: &ResponseFields<'_>) -> Result<Response, AllocError>
    ensures { IfOk result (λ response. response ≡ viewed fields.now) }
{
    Ok(Response {
        capabilities: fields.capabilities,
        greatest_packet: fields.greatest_packet,
        charset: fields.charset,
        user: Field::from_slice(alloc, fields.user)?,
        token: Field::from_slice(alloc, fields.token)?,
        database: copied(alloc, fields.database)?,
        plugin: copied(alloc, fields.plugin)?,
        attributes: copied(alloc, fields.attributes)?,
    })
}

impl Response {
    /// Reads a payload. The place of a fault is that of a length byte that begins none, 0 for capabilities
    /// without PROTOCOL_41 or with SSL, and the payload's length where a field is cut.
    pub fn read(alloc: Global, bytes: &[u8]) -> Result<Response, BadHandshake>
        ensures exact { Reads bytes.now result }
        // What clients write is read.
        ensures written { ReadsWritten bytes.now result }
    {
        match fields_of(bytes) {
            Err(fault) => Err(BadHandshake::Wrong {
                at: bytes.len().saturating_sub(fault.left),
            }),
            Ok(fields) => match response_of(alloc, &fields) {
                Ok(response) => Ok(response),
                Err(_) => Err(BadHandshake::Memory),
            },
        }
    }

    /// The response with the token that came for a switch request: it names no other plugin.
    pub fn switched(self, token: Field) -> Response
        ensures { result ≡ record self { token = token; plugin = None } }
    {
        Response {
            token,
            plugin: None,
            ..self
        }
    }
}
