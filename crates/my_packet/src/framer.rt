ghost use Rattle.std.specs.Prelude.{◌≡◌, ◌≢◌, ℕ, ◌+◌, ◌<◌, ◌≤◌, List, [], ◌∷◌, ◌++◌, length, None, Some, IfOk, IfErr, OnOk, OnErr, IsErrAnd, MatchResult};
ghost use Rattle.my_packet.specs.Bytes.{longest_payload};
ghost use Rattle.my_packet.specs.Stream.{Spells, Breaks, IsUnfinished, lacking, due_after};
ghost use Rattle.my_packet.specs.Framing.{started, expecting, Reads, EndsAtMostOne};
ghost use Rattle.my_packet.specs.Feeding.{Takes, Midway};
ghost use Rattle.my_packet.specs.declared.packet.Packet.{Packet};
ghost use Rattle.my_packet.specs.declared.fault.FaultCause.{FaultCause};
ghost use Rattle.my_packet.specs.declared.fault.FaultCause.TheVariants.{Memory};

use crate::fault::{FaultCause, FrameFault};
use crate::header::{HEADER_LEN, Header};
use crate::packet::Packet;
use crate::packets::Packets;
use crate::payload::Payload;
use std::alloc::Global;
use std::marker::Model;
use std::mem;

/// Reads packets from a stream of bytes that comes in pieces.
#[derive(Drop)]
pub struct Framer {
    alloc: Global,
    due: u8,
    header: Header,
    // What a whole header announces.
    len: usize,
    payload: Vec<u8>,
    fault: Option<FaultCause>,
}

impl Model for Framer {
    ghost use Rattle.std.specs.Prelude.{◌++◌};
    ghost use Rattle.my_packet.specs.Framing.{Framing};
    ghost use Rattle.my_packet.specs.Holding.{IsHeld};

    ghost Value = { Framing };

    ghost view = { λ f. record { due = f.due; held = f.header ++ f.payload.items; fault = f.fault } };

    ghost invariant = { λ f. IsHeld f.due f.header f.len f.payload.items };
}

impl Framer {
    /// A framer at the start of a stream, where number 0 is due. It takes no memory.
    pub fn new(alloc: Global) -> Framer
        ensures { result ≡ started }
    {
        Framer {
            alloc,
            due: 0,
            header: Header::new(),
            len: 0,
            payload: Vec::new(alloc),
            fault: None,
        }
    }

    /// Sets the number that is due in the header that is not whole yet. Where the header in hand is whole, its
    /// number was looked at already, and nothing changes: behind its packet 0 is due.
    pub fn expect(&mut self, seq: u8)
        ensures { self.new ≡ expecting self.old seq }
    {
        if self.header.len() < HEADER_LEN {
            self.due = seq;
        }
    }

    /// How many bytes the header or the payload in hand still lacks, at least 1.
    pub fn need(&self) -> usize
        ensures exact { result ≡ lacking self.now.held }
        ensures some { 1 ≤ result }
        ensures most { result ≤ longest_payload }
        ensures unfinished { IsUnfinished self.now.due self.now.held }
    {
        if self.header.len() < HEADER_LEN {
            return HEADER_LEN - self.header.len();
        }
        self.len - self.payload.len()
    }

    /// Takes a piece that goes no further than the header or payload in hand.
    fn take(&mut self, piece: &[u8]) -> Result<Option<Packet>, FaultCause>
        requires going { self.old.fault ≡ None }
        requires fits { length piece.now ≤ lacking self.old.held }
        ensures { Takes self.old piece.now result self.new }
    {
        if self.header.len() < HEADER_LEN {
            return self.take_header(piece);
        }
        self.take_payload(piece)
    }

    fn take_header(&mut self, piece: &[u8]) -> Result<Option<Packet>, FaultCause>
        requires going { self.old.fault ≡ None }
        requires part { length self.old.held < 4 }
        requires fits { length self.old.held + length piece.now ≤ 4 }
        ensures { Takes self.old piece.now result self.new }
    {
        self.header.extend(piece);
        if self.header.len() < HEADER_LEN {
            return Ok(None);
        }
        let header = mem::replace(&mut self.header, Header::new());
        let len = header.judged(self.due)?;
        let Ok(payload) = Vec::with_capacity(self.alloc, len) else {
            return Err(FaultCause::Memory);
        };
        if len == 0 {
            return Ok(Some(self.packet_of(payload)));
        }
        self.header = header;
        self.len = len;
        self.payload = payload;
        Ok(None)
    }

    fn take_payload(&mut self, piece: &[u8]) -> Result<Option<Packet>, FaultCause>
        requires going { self.old.fault ≡ None }
        requires whole { 4 ≤ length self.old.held }
        requires fits { length piece.now ≤ lacking self.old.held }
        ensures { Takes self.old piece.now result self.new }
    {
        if self.payload.extend_from_slice(piece).is_err() {
            return Err(FaultCause::Memory);
        }
        if self.payload.len() < self.len {
            return Ok(None);
        }
        self.header = Header::new();
        let payload = mem::replace(&mut self.payload, Vec::new(self.alloc));
        Ok(Some(self.packet_of(payload)))
    }

    /// The packet in hand, whose payload this is; the next one has number 0.
    fn packet_of(&mut self, payload: Vec<u8>) -> Packet
        requires { self.old.held ≡ [] }
        ensures seq { result.seq ≡ self.old.due }
        ensures payload { result.payload ≡ payload.items }
        ensures next { self.new ≡ record self.old { due = 0 } }
    {
        let seq = self.due;
        self.due = 0;
        Packet {
            seq,
            payload: Payload::from_vec(payload),
        }
    }

    /// Takes a piece, and adds the packet that it ends, if it does.
    fn advance(&mut self, packets: &mut Vec<Packet>, piece: &[u8]) -> Result<(), FaultCause>
        requires going { self.old.fault ≡ None }
        requires fits { length piece.now ≤ lacking self.old.held }
        ensures ok { OnOk result ((due : ℕ) (bytes rest : List ℕ) → Midway due bytes packets.old.items self.old (piece.now ++ rest)
            → Midway due bytes packets.new.items self.new rest) }
        ensures err { IfErr result (λ cause. (due : ℕ) (bytes rest : List ℕ) → Midway due bytes packets.old.items self.old (piece.now ++ rest)
            → Breaks due bytes packets.new.items cause) }
    {
        match self.take(piece) {
            Err(cause) => Err(cause),
            Ok(None) => Ok(()),
            Ok(Some(packet)) => {
                if packets.push(packet).is_err() {
                    return Err(FaultCause::Memory);
                }
                Ok(())
            }
        }
    }

    /// Ends the stream with a fault.
    fn stop(&mut self, packets: Vec<Packet>, cause: FaultCause) -> FrameFault
        ensures before { result.before ≡ packets.items }
        ensures cause { result.cause ≡ cause }
        ensures stopped { self.new.fault ≡ Some cause }
    {
        self.fault = Some(cause);
        FrameFault {
            before: Packets::from_vec(packets),
            cause,
        }
    }

    /// The packets that end in this piece of the stream; what is left of it stays in hand. A fault is found
    /// when the fourth byte of its header has come, and no byte is read behind it: each later feed answers
    /// it again, with no packets. So it is with want of memory, behind which bytes are lost.
    pub fn feed(&mut self, bytes: &[u8]) -> Result<Vec<Packet>, FrameFault>
        // What it gives, and what it refuses.
        ensures read { IfOk result (λ packets. Reads self.old bytes.now packets.items self.new) }
        ensures fault { IfErr result (λ fault. self.old.fault ≡ None
            → Breaks self.old.due (self.old.held ++ bytes.now) fault.before fault.cause) }

        // The bytes have no other packets and no other fault.
        ensures only { self.old.fault ≡ None → (packets : List Packet) (rest : List ℕ)
            → Spells self.old.due (self.old.held ++ bytes.now) packets rest
            → MatchResult result (λ got. got.items ≡ packets) (λ fault. fault.cause ≡ Memory) }
        ensures only_fault { self.old.fault ≡ None → (packets : List Packet) (cause : FaultCause) → cause ≢ Memory
            → Breaks self.old.due (self.old.held ++ bytes.now) packets cause
            → IsErrAnd result (λ fault. fault.cause ≢ Memory → (fault.before ≡ packets) × (fault.cause ≡ cause)) }

        // Behind a fault comes nothing but that fault.
        ensures stopped { IfErr result (λ fault. self.new.fault ≡ Some fault.cause) }
        ensures over { (cause : FaultCause) → self.old.fault ≡ Some cause
            → IsErrAnd result (λ fault. (fault.before ≡ []) × (fault.cause ≡ cause)) }

        // Whatever comes behind the piece is read as if it came with it.
        ensures cut { IfOk result (λ packets. (more : List ℕ) (others : List Packet) (rest : List ℕ)
            → Spells self.new.due (self.new.held ++ more) others rest
            → Spells self.old.due (self.old.held ++ bytes.now ++ more) (packets.items ++ others) rest) }
        ensures cut_fault { IfOk result (λ packets. (more : List ℕ) (others : List Packet) (cause : FaultCause)
            → Breaks self.new.due (self.new.held ++ more) others cause
            → Breaks self.old.due (self.old.held ++ bytes.now ++ more) (packets.items ++ others) cause) }

        // A piece of at most `need` bytes ends at most one packet, and then nothing is in hand.
        // No packet ends before its fault.
        ensures one { IfOk result (λ packets. length bytes.now ≤ lacking self.old.held
            → EndsAtMostOne packets.items self.new.held) }
        ensures alone { IfErr result (λ fault. length bytes.now ≤ lacking self.old.held → fault.cause ≢ Memory
            → fault.before ≡ []) }
    {
        let mut packets = Vec::new(self.alloc);
        if let Some(cause) = self.fault {
            return Err(self.stop(packets, cause));
        }
        let mut rest = bytes;
        while !rest.is_empty() {
            let (piece, behind) = rest.split_at(rest.len().min(self.need()));
            if let Err(cause) = self.advance(&mut packets, piece) {
                return Err(self.stop(packets, cause));
            }
            rest = behind;
        }
        Ok(packets)
    }
}
