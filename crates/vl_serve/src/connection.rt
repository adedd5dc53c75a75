ghost use Rattle.std.specs.Prelude.{◌≡◌, ◌≢◌, ◌<◌, ◌≤◌, ℕ, List, ◌++◌, length, Some};
ghost use Rattle.std.specs.Io.KnownBytes.{IsAtEnd};
ghost use Rattle.my_packet.specs.Stream.{lacking};
ghost use Rattle.vl_base.specs.Faults.{Rose};
ghost use Rattle.vl_serve.specs.Connection.{Connection};
ghost use Rattle.vl_serve.specs.History.{Deed, IsLast};
ghost use Rattle.vl_serve.specs.Serving.{Step, Serves, Goes, Gave, Turn, Talked};
ghost use Rattle.vl_serve.specs.declared.end.ConnEnd.TheVariants.{Ended, ReadFault, WriteFault, Strayed, Spent};

use crate::answer::{answer_packet, tell_fault};
use crate::end::ConnEnd;
use crate::gate::Gate;
use my_packet::Framer;
use my_reply::ShortBuf;
use std::alloc::Global;
use vl_base::{Sink, Source};
use vl_cluster::pass::Pass;

/// The most bytes that one read asks for.
const PIECE: usize = 4096;

/// The most reads of a connection that give bytes.
const MOST_READS: u64 = 4_611_686_018_427_387_903;

/// Takes a piece of the stream, and answers the packet that it ends.
fn hear<G: Gate, O: Sink>(
    alloc: Global,
    framer: &mut Framer,
    gate: &mut G,
    pass: Pass,
    out: &mut O,
    short: &mut ShortBuf,
    piece: &[u8],
) -> (Pass, Option<ConnEnd>)
    requires within { length piece.now ≤ lacking framer.old.held }
    ensures step { (read : List ℕ) (says : List Deed) (bytes : List ℕ) → Serves framer.old read says bytes
        → Step pass result.0 (G.seen gate.old) (G.seen gate.new) (O.held out.old) (O.held out.new)
        (λ more text. Goes result.1 framer.new (read ++ piece.now) (says ++ more) (bytes ++ text)) }
    ensures due { G.is_due gate.old pass → G.is_due gate.new result.0 }
    ensures stray { G.is_due gate.old pass → result.1 ≡ Some Strayed → IsLast (G.seen gate.new) }
    ensures later { O.faults out.old ≤ O.faults out.new }
    ensures fault { result.1 ≡ Some WriteFault → Rose (O.faults out.old) (O.faults out.new) }
    ensures heard { (result.1 ≢ Some Ended) × (result.1 ≢ Some ReadFault) × (result.1 ≢ Some Spent) }
{
    match framer.feed(piece) {
        Ok(packets) => answer_packet(alloc, gate, pass, out, short, packets.as_slice()),
        Err(fault) => (pass, Some(tell_fault(out, short, fault.cause))),
    }
}

/// Makes one read into this room, and answers the packet that its bytes end.
fn turn<G: Gate, S: Source, O: Sink>(
    alloc: Global,
    framer: &mut Framer,
    gate: &mut G,
    pass: Pass,
    src: &mut S,
    out: &mut O,
    short: &mut ShortBuf,
    room: &mut [u8],
) -> (Pass, Option<ConnEnd>)
    requires some { 0 < length room.old }
    requires within { length room.old ≤ lacking framer.old.held }
    ensures turn { (read : List ℕ) (says : List Deed) (bytes : List ℕ) → Serves framer.old read says bytes
        → Turn result.1 framer.new read says bytes pass result.0 (S.left src.old) (S.left src.new) (O.held out.old) (O.held out.new) (G.seen gate.old) (G.seen gate.new) }
    ensures gave { Gave result.1 (S.given src.old) (S.given src.new) }
    ensures due { G.is_due gate.old pass → G.is_due gate.new result.0 }
    ensures stray { G.is_due gate.old pass → result.1 ≡ Some Strayed → IsLast (G.seen gate.new) }
    ensures later_read { S.faults src.old ≤ S.faults src.new }
    ensures later_write { O.faults out.old ≤ O.faults out.new }
    ensures read { result.1 ≡ Some ReadFault → Rose (S.faults src.old) (S.faults src.new) }
    ensures write { result.1 ≡ Some WriteFault → Rose (O.faults out.old) (O.faults out.new) }
    ensures ended { result.1 ≡ Some Ended → IsAtEnd (S.left src.new) }
{
    match src.read(room) {
        Ok(0) => (pass, Some(ConnEnd::Ended)),
        Ok(got) => hear(alloc, framer, gate, pass, out, short, &room[..got]),
        Err(_) => (pass, Some(ConnEnd::ReadFault)),
    }
}

/// Reads packets and answers them until the connection ends.
fn talk<G: Gate, S: Source, O: Sink>(
    alloc: Global,
    gate: &mut G,
    mut pass: Pass,
    src: &mut S,
    out: &mut O,
    short: &mut ShortBuf,
) -> (Pass, ConnEnd)
    ensures talked { Talked result.1 pass result.0 (S.left src.old) (S.left src.new) (O.held out.old) (O.held out.new) (G.seen gate.old) (G.seen gate.new) (S.given src.old) (S.given src.new) }
    ensures stray { G.is_due gate.old pass → result.1 ≡ Strayed → IsLast (G.seen gate.new) }
    ensures read { result.1 ≡ ReadFault → Rose (S.faults src.old) (S.faults src.new) }
    ensures write { result.1 ≡ WriteFault → Rose (O.faults out.old) (O.faults out.new) }
    ensures ended { result.1 ≡ Ended → IsAtEnd (S.left src.new) }
{
    let mut framer = Framer::new(alloc);
    let mut piece = [0; PIECE];
    let mut reads: u64 = 0;
    'reading: while reads < MOST_READS {
        let room = framer.need().min(PIECE);
        let (next, end) = turn(
            alloc,
            &mut framer,
            gate,
            pass,
            src,
            out,
            short,
            &mut piece[..room],
        );
        if let Some(end) = end {
            return (next, end);
        }
        pass = next;
        reads += 1;
    }
    (pass, ConnEnd::Spent)
}

/// Serves a connection from the first byte of its first packet, with no greeting before it, until it
/// ends. The session joins once, and has left the gate when this returns.
pub fn serve_conn<G: Gate, S: Source, O: Sink>(
    alloc: Global,
    gate: &mut G,
    src: &mut S,
    out: &mut O,
) -> ConnEnd
    // What it read, said and wrote, and how many reads gave bytes.
    ensures connection { Connection result (S.left src.old) (S.left src.new) (O.held out.old) (O.held out.new) (G.seen gate.old) (G.seen gate.new) (S.given src.old) (S.given src.new) }

    // The causes of the ends that the bytes don't show.
    ensures ended { result ≡ Ended → IsAtEnd (S.left src.new) }
    ensures read { result ≡ ReadFault → Rose (S.faults src.old) (S.faults src.new) }
    ensures write { result ≡ WriteFault → Rose (O.faults out.old) (O.faults out.new) }
    ensures stray { result ≡ Strayed → IsLast (G.seen gate.new) }
{
    let Ok(mut short) = ShortBuf::new(alloc) else {
        return ConnEnd::Memory;
    };
    let Ok(pass) = gate.join() else {
        return ConnEnd::Memory;
    };
    let (pass, end) = talk(alloc, gate, pass, src, out, &mut short);
    gate.leave(pass);
    end
}
