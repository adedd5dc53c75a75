ghost use Rattle.std.specs.Prelude.{◌≡◌, ◌+◌, ◌*◌, ◌<◌, ◌≤◌, ℕ, List, codes, length, OnOk, IfErr};
ghost use Rattle.std.specs.Io.KnownBytes.{Appends};
ghost use Rattle.vl_base.specs.Faults.{Rose};
ghost use Rattle.vl_cluster.specs.View.{last_event};
ghost use Rattle.vl_cluster.specs.declared.what.What.TheVariants.{Reply as AReplyTold};
ghost use Rattle.vl_model.specs.ReplyLine.{reply_line};
ghost use Rattle.vl_model.specs.Steps.{Step};
ghost use Rattle.vl_model.specs.Taken.{IsTaken};
ghost use Rattle.vl_values.specs.declared.reply.Reply.{Reply as AReply};
ghost use Rattle.vtgate_cl.specs.Playing.{Halts, Refuses};
ghost use Rattle.vtgate_cl.specs.Script.{Answers, fault_line, line_limit, count_limit};
ghost use Rattle.vtgate_cl.specs.Talk.{BreaksOff, IsReply};

use crate::client::Client;
use crate::fault_line::line_of_fault;
use crate::reading::line_of;
use crate::reply_line::line_for;
use crate::script_line::ScriptLine;
use crate::stop::Stop;
use std::alloc::Global;
use vl_base::{Sink, write_all};
use vl_cluster::told::Told;
use vl_cluster::what::What;
use vl_sql::stmt::Stmt;
use vl_values::reply::Reply;

/// The most bytes of a line, without its LF and a CR before that.
pub const LINE_LIMIT: usize = 1_048_576;

/// The most lines of a script.
pub const COUNT_LIMIT: u32 = 1_000_000;

/// Answers line `count` of a script, counted from 0, and prints its answer or its fault.
pub fn answer<O: Sink>(
    alloc: Global,
    client: &mut Client,
    count: u32,
    text: &[u8],
    out: &mut O,
) -> Result<(), Stop>
    requires { client.old.at ≤ 2 * count }
    ensures short { OnOk result (length text.now ≤ line_limit) }
    ensures early { OnOk result (count < count_limit) }
    ensures ok { OnOk result ((more : List ℕ) × Answers client.old.rows text.now client.new.rows more × Appends (O.held out.old) (O.held out.new) more) }
    ensures at { OnOk result (client.new.at ≤ 2 * (count + 1)) }
    ensures err { IfErr result (Halts count client.old.rows text.now (O.held out.old) (O.held out.new)) }

    // A stop by the sink has its fault as its cause, and the source is not touched.
    ensures later { O.faults out.old ≤ O.faults out.new }
    ensures kept { OnOk result (O.faults out.new ≡ O.faults out.old) }
    ensures write { result ≡ Err Stop.Write → Rose (O.faults out.old) (O.faults out.new) }
    ensures read { result ≡ Err Stop.Read → ⊥ }
{
    if count >= COUNT_LIMIT {
        return Err(refuse(alloc, count, out));
    }
    if text.len() > LINE_LIMIT {
        return Err(refuse(alloc, count, out));
    }
    let Ok(found) = line_of(alloc, text) else {
        return Err(Stop::Memory);
    };
    let Some(line) = found else {
        return Err(refuse(alloc, count, out));
    };
    match line {
        ScriptLine::Skipped => Ok(()),
        ScriptLine::Run(stmt) => say(alloc, client, stmt, out),
    }
}

/// Tells that line `count`, counted from 0, is no script line, and why the script stops there: at
/// this fault, or before it was told.
pub fn refuse<O: Sink>(alloc: Global, count: u32, out: &mut O) -> Stop
    ensures told { Refuses result (O.held out.old) (O.held out.new) (fault_line (count + 1)) }
    ensures later { O.faults out.old ≤ O.faults out.new }
    ensures write { result ≡ Stop.Write → Rose (O.faults out.old) (O.faults out.new) }
{
    let Ok(text) = line_of_fault(alloc, u64::from(count) + 1) else {
        return Stop::Memory;
    };
    match write_all(out, text.as_bytes()) {
        Ok(()) => Stop::NotScript,
        Err(_) => Stop::Write,
    }
}

// Runs a statement and prints its reply.
fn say<O: Sink>(alloc: Global, client: &mut Client, stmt: Stmt, out: &mut O) -> Result<(), Stop>
    requires early { client.old.at + 1 < last_event }
    requires taken { IsTaken stmt }
    ensures ok { OnOk result ((reply : AReply) × Step client.old.rows stmt reply client.new.rows × Appends (O.held out.old) (O.held out.new) (reply_line (codes "s1") reply)) }
    ensures err { IfErr result (BreaksOff client.old.rows stmt (O.held out.old) (O.held out.new)) }
    ensures at { client.new.at ≤ client.old.at + 2 }
    ensures later { O.faults out.old ≤ O.faults out.new }
    ensures kept { OnOk result (O.faults out.new ≡ O.faults out.old) }
    ensures write { result ≡ Err Stop.Write → Rose (O.faults out.old) (O.faults out.new) }
{
    let Ok(told) = client.say(stmt) else {
        return Err(Stop::Memory);
    };
    let Ok(text) = line_for(alloc, b"s1", reply_of(&told)) else {
        return Err(Stop::Memory);
    };
    match write_all(out, text.as_slice()) {
        Ok(()) => Ok(()),
        Err(_) => Err(Stop::Write),
    }
}

// The reply that an event told.
fn reply_of(told: &Told) -> &Reply
    requires { IsReply told.now.1 }
    ensures { told.now.1 ≡ AReplyTold result.now }
{
    match told.what() {
        What::Reply(reply) => reply,
        What::Stray => unreachable!(),
    }
}
