// The capability flags of the protocol that the handshake speaks of, as its manual numbers them.
ghost use Rattle.std.specs.Prelude.{◌≡◌};
ghost use Rattle.my_auth.specs.Capabilities.{has as has_flag};

const LONG_PASSWORD: u32 = 0x1;

const FOUND_ROWS: u32 = 0x2;

pub(crate) const CONNECT_WITH_DB: u32 = 0x8;

pub(crate) const PROTOCOL_41: u32 = 0x200;

pub(crate) const SSL: u32 = 0x800;

const TRANSACTIONS: u32 = 0x2000;

pub(crate) const SECURE_CONNECTION: u32 = 0x8000;

pub(crate) const PLUGIN_AUTH: u32 = 0x8_0000;

pub(crate) const CONNECT_ATTRS: u32 = 0x10_0000;

pub(crate) const LENENC_CLIENT_DATA: u32 = 0x20_0000;

/// The capabilities that the greeting offers. Others in a response mean nothing.
pub const OFFERED: u32 = LONG_PASSWORD
    | FOUND_ROWS
    | CONNECT_WITH_DB
    | PROTOCOL_41
    | TRANSACTIONS
    | SECURE_CONNECTION
    | PLUGIN_AUTH
    | CONNECT_ATTRS
    | LENENC_CLIENT_DATA;

/// Whether the flag is among the capabilities.
pub(crate) fn has(capabilities: u32, flag: u32) -> bool
    ensures { result ≡ has_flag capabilities flag }
{
    capabilities & flag != 0
}
