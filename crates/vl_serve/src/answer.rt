ghost use Rattle.std.specs.Prelude.{◌≡◌, ◌≤◌, ℕ, List, false, Some};
ghost use Rattle.vl_base.specs.Faults.{Rose};
ghost use Rattle.vl_model.specs.Taken.{IsTaken};
ghost use Rattle.vl_serve.specs.Command.{Means, reply_packet};
ghost use Rattle.my_reply.specs.Reply.{IsShort};
ghost use Rattle.vl_serve.specs.History.{IsLast, IsShortTold};
ghost use Rattle.vl_serve.specs.Serving.{Step, Brings, BringsFirst, Wrote, TellsWhat, TellsFault, Refuses};
ghost use Rattle.vl_values.specs.Reply.{refusal};
ghost use Rattle.vl_serve.specs.declared.end.ConnEnd.TheVariants.{WriteFault, Strayed};
ghost use Rattle.vl_serve.specs.declared.request.Request.TheVariants.{Run};

use crate::end::ConnEnd;
use crate::gate::Gate;
use crate::request::Request;
use my_packet::{FaultCause, Packet};
use my_reply::{PROTOCOL_41, ShortBuf, encode_short};
use std::alloc::Global;
use vl_base::{Sink, write_all};
use vl_cluster::ask::Ask;
use vl_cluster::pass::Pass;
use vl_cluster::what::What;
use vl_sql::stmt::Stmt;
use vl_values::cause::Cause;
use vl_values::reply::Reply;

/// The number of each reply: a command has number 0, and its reply goes on from there.
const REPLY_NUMBER: u8 = 1;

/// Writes a reply of one packet. A write that fails ends the connection.
fn write_reply<O: Sink>(out: &mut O, short: &mut ShortBuf, reply: &Reply) -> Option<ConnEnd>
    requires { IsShort reply.now }
    ensures wrote { Wrote result (O.held out.old) (O.held out.new) (reply_packet reply.now) }
    ensures later { O.faults out.old ≤ O.faults out.new }
    ensures fault { result ≡ Some WriteFault → Rose (O.faults out.old) (O.faults out.new) }
{
    encode_short(reply, PROTOCOL_41, REPLY_NUMBER, short);
    match write_all(out, short.as_slice()) {
        Ok(()) => None,
        Err(_) => Some(ConnEnd::WriteFault),
    }
}

/// Writes what the core told.
fn write_what<O: Sink>(out: &mut O, short: &mut ShortBuf, what: &What) -> Option<ConnEnd>
    requires { IsShortTold what.now }
    ensures told { TellsWhat what.now result (O.held out.old) (O.held out.new) }
    ensures later { O.faults out.old ≤ O.faults out.new }
    ensures fault { result ≡ Some WriteFault → Rose (O.faults out.old) (O.faults out.new) }
{
    match what {
        What::Reply(reply) => write_reply(out, short, reply),
        What::Stray => Some(ConnEnd::Strayed),
    }
}

/// Asks a statement, and writes its reply.
fn run<G: Gate, O: Sink>(
    gate: &mut G,
    pass: Pass,
    out: &mut O,
    short: &mut ShortBuf,
    stmt: Stmt,
) -> (Pass, Option<ConnEnd>)
    requires { IsTaken stmt }
    ensures step { (payload : List ℕ) → Means payload (Run stmt)
        → Step pass result.0 (G.seen gate.old) (G.seen gate.new) (O.held out.old) (O.held out.new) (Brings payload result.1) }
    ensures due { G.is_due gate.old pass → G.is_due gate.new result.0 }
    ensures stray { G.is_due gate.old pass → result.1 ≡ Some Strayed → IsLast (G.seen gate.new) }
    ensures later { O.faults out.old ≤ O.faults out.new }
    ensures fault { result.1 ≡ Some WriteFault → Rose (O.faults out.old) (O.faults out.new) }
{
    let (pass, told) = gate.act(pass, Ask::Say(stmt));
    let end = write_what(out, short, told.what());
    (pass, end)
}

/// Writes a refusal that leaves no transaction open.
fn refuse<O: Sink>(out: &mut O, short: &mut ShortBuf, why: Cause) -> Option<ConnEnd>
    ensures wrote { Wrote result (O.held out.old) (O.held out.new) (reply_packet (refusal why false)) }
    ensures later { O.faults out.old ≤ O.faults out.new }
    ensures fault { result ≡ Some WriteFault → Rose (O.faults out.old) (O.faults out.new) }
{
    let reply = Reply::refusal(why, false);
    write_reply(out, short, &reply)
}

/// Answers a payload. The connection goes on, or has ended: where memory is wanted for its statement,
/// before that is asked.
fn answer<G: Gate, O: Sink>(
    alloc: Global,
    gate: &mut G,
    pass: Pass,
    out: &mut O,
    short: &mut ShortBuf,
    payload: &[u8],
) -> (Pass, Option<ConnEnd>)
    ensures step { Step pass result.0 (G.seen gate.old) (G.seen gate.new) (O.held out.old) (O.held out.new) (Brings payload.now result.1) }
    ensures due { G.is_due gate.old pass → G.is_due gate.new result.0 }
    ensures stray { G.is_due gate.old pass → result.1 ≡ Some Strayed → IsLast (G.seen gate.new) }
    ensures later { O.faults out.old ≤ O.faults out.new }
    ensures fault { result.1 ≡ Some WriteFault → Rose (O.faults out.old) (O.faults out.new) }
{
    let Ok(request) = Request::of(alloc, payload) else {
        return (pass, Some(ConnEnd::Memory));
    };
    match request {
        Request::Quit => (pass, Some(ConnEnd::Quit)),
        Request::Run(stmt) => run(gate, pass, out, short, stmt),
        Request::NoStatement => (pass, refuse(out, short, Cause::Syntax { at: 0 })),
        Request::Unknown => (pass, refuse(out, short, Cause::UnknownCommand)),
    }
}

/// Answers the packet that a feed ended, if it ended one.
pub(crate) fn answer_packet<G: Gate, O: Sink>(
    alloc: Global,
    gate: &mut G,
    pass: Pass,
    out: &mut O,
    short: &mut ShortBuf,
    packets: &[Packet],
) -> (Pass, Option<ConnEnd>)
    ensures step { Step pass result.0 (G.seen gate.old) (G.seen gate.new) (O.held out.old) (O.held out.new) (BringsFirst packets.now result.1) }
    ensures due { G.is_due gate.old pass → G.is_due gate.new result.0 }
    ensures stray { G.is_due gate.old pass → result.1 ≡ Some Strayed → IsLast (G.seen gate.new) }
    ensures later { O.faults out.old ≤ O.faults out.new }
    ensures fault { result.1 ≡ Some WriteFault → Rose (O.faults out.old) (O.faults out.new) }
{
    let Some(packet) = packets.first() else {
        return (pass, None);
    };
    answer(alloc, gate, pass, out, short, packet.payload.as_slice())
}

/// Refuses a packet, which ends the connection.
fn refuse_packet<O: Sink>(out: &mut O, short: &mut ShortBuf, why: Cause) -> ConnEnd
    ensures refused { Refuses why result (O.held out.old) (O.held out.new) }
    ensures later { O.faults out.old ≤ O.faults out.new }
    ensures fault { result ≡ WriteFault → Rose (O.faults out.old) (O.faults out.new) }
{
    let code = why.code();
    match refuse(out, short, why) {
        None => ConnEnd::Refused { code },
        Some(end) => end,
    }
}

/// Tells the fault of a packet, which ends the connection.
pub(crate) fn tell_fault<O: Sink>(out: &mut O, short: &mut ShortBuf, fault: FaultCause) -> ConnEnd
    ensures told { TellsFault fault result (O.held out.old) (O.held out.new) }
    ensures later { O.faults out.old ≤ O.faults out.new }
    ensures fault { result ≡ WriteFault → Rose (O.faults out.old) (O.faults out.new) }
{
    match fault {
        FaultCause::TooLong { len } => refuse_packet(
            out,
            short,
            Cause::PacketTooLarge {
                len: u64::from(len),
            },
        ),
        FaultCause::Order { got, due } => refuse_packet(
            out,
            short,
            Cause::PacketOrder { got, due },
        ),
        FaultCause::Memory => ConnEnd::Memory,
    }
}
