ghost use Rattle.std.specs.Prelude.{◌≡◌};

use crate::packet::Packet;
use std::marker::Model;

/// Packets in the order in which they came. Contracts see them as a list.
#[derive(Drop)]
pub struct Packets {
    packets: Vec<Packet>,
}

impl Model for Packets {
    ghost use Rattle.std.specs.Prelude.{List};
    ghost use Rattle.my_packet.specs.declared.packet.Packet.{Packet};

    ghost Value = { List Packet };

    ghost view = { λ p. p.packets.items };
}

impl Packets {
    /// These packets. It takes no memory.
    pub fn from_vec(packets: Vec<Packet>) -> Packets
        ensures { result ≡ packets.items }
    {
        Packets { packets }
    }

    /// The packets, given back as they lie. It takes no memory.
    pub fn into_vec(self) -> Vec<Packet>
        ensures { result.items ≡ self }
    {
        self.packets
    }

    /// The packets, in the order in which they came.
    pub fn as_slice(&self) -> &[Packet]
        ensures { result.now ≡ self.now }
    {
        self.packets.as_slice()
    }
}
