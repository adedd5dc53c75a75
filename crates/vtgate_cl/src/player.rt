ghost use Rattle.std.specs.Prelude.{◌≡◌, ◌+◌, ◌*◌, ◌≤◌, [], ◌∷◌, OnOk, IfOk, IfErr, length};
ghost use Rattle.std.specs.Str.Lines.{strip_carriage_return};
ghost use Rattle.vl_base.specs.Faults.{Rose};
ghost use Rattle.vtgate_cl.specs.Playing.{room};

use crate::answer::{LINE_LIMIT, answer, refuse};
use crate::client::Client;
use crate::stop::Stop;
use std::alloc::{AllocError, Global};
use vl_base::Sink;

/// Plays a script as its bytes come, and holds no more of them than one line.
pub struct Player {
    pub alloc: Global,
    pub client: Client,
    /// The bytes of the line that hasn't ended.
    pub line: Vec<u8>,
    /// How many lines have ended.
    pub count: u32,
}

impl Player {
    ghost use Rattle.vtgate_cl.specs.Player.{Played, GoesOn, StopsIn, Finishes, StopsAtEnd};

    /// A player that has seen nothing, over empty shards.
    pub fn open(alloc: Global) -> Result<Player, AllocError>
        ensures played { IfOk result (λ player. Played [] [] player) }
        ensures timely { IfOk result (λ player. player.client.at ≤ 2 * player.count) }
    {
        let Ok(client) = Client::open(alloc) else {
            return Err(AllocError);
        };
        Ok(Player {
            alloc,
            client,
            line: Vec::new(alloc),
            count: 0,
        })
    }

    /// Plays the next bytes of the script.
    pub fn feed<O: Sink>(&mut self, piece: &[u8], out: &mut O) -> Result<(), Stop>
        requires { self.old.client.at ≤ 2 * self.old.count }
        ensures ok { OnOk result (GoesOn self.old self.new (O.held out.old) (O.held out.new) piece.now) }
        ensures timely { OnOk result (self.new.client.at ≤ 2 * self.new.count) }
        ensures shrinks { OnOk result (room self.new.count self.new.line.items + length piece.now ≤ room self.old.count self.old.line.items) }
        ensures err { IfErr result (StopsIn self.old (O.held out.old) (O.held out.new) piece.now) }
        ensures later { O.faults out.old ≤ O.faults out.new }
        ensures kept { OnOk result (O.faults out.new ≡ O.faults out.old) }
        ensures write { result ≡ Err Stop.Write → Rose (O.faults out.old) (O.faults out.new) }
        ensures read { result ≡ Err Stop.Read → ⊥ }
    {
        for byte in piece {
            match self.take(*byte, out) {
                Ok(()) => {}
                Err(stop) => return Err(stop),
            }
        }
        Ok(())
    }

    /// Plays the last line where no LF ends it: the script's bytes end here.
    pub fn finish<O: Sink>(&mut self, out: &mut O) -> Result<(), Stop>
        requires { self.old.client.at ≤ 2 * self.old.count }
        ensures ok { OnOk result (Finishes self.old (O.held out.old) (O.held out.new)) }
        ensures err { IfErr result (StopsAtEnd self.old (O.held out.old) (O.held out.new)) }
        ensures later { O.faults out.old ≤ O.faults out.new }
        ensures kept { OnOk result (O.faults out.new ≡ O.faults out.old) }
        ensures write { result ≡ Err Stop.Write → Rose (O.faults out.old) (O.faults out.new) }
        ensures read { result ≡ Err Stop.Read → ⊥ }
    {
        if self.line.is_empty() {
            return Ok(());
        }
        answer(
            self.alloc,
            &mut self.client,
            self.count,
            self.line.as_slice(),
            out,
        )
    }

    /// Ends the player: its session leaves.
    pub fn close(self) {
        let Player {
            alloc: _,
            client,
            line: _,
            count: _,
        } = self;
        client.close();
    }

    fn take<O: Sink>(&mut self, byte: u8, out: &mut O) -> Result<(), Stop>
        requires { self.old.client.at ≤ 2 * self.old.count }
        ensures ok { OnOk result (GoesOn self.old self.new (O.held out.old) (O.held out.new) (byte ∷ [])) }
        ensures timely { OnOk result (self.new.client.at ≤ 2 * self.new.count) }
        ensures shrinks { OnOk result (room self.new.count self.new.line.items + 1 ≤ room self.old.count self.old.line.items) }
        ensures err { IfErr result (StopsIn self.old (O.held out.old) (O.held out.new) (byte ∷ [])) }
        ensures later { O.faults out.old ≤ O.faults out.new }
        ensures kept { OnOk result (O.faults out.new ≡ O.faults out.old) }
        ensures write { result ≡ Err Stop.Write → Rose (O.faults out.old) (O.faults out.new) }
        ensures read { result ≡ Err Stop.Read → ⊥ }
    {
        if byte == b'\n' {
            return self.end_line(out);
        }
        self.keep(byte, out)
    }

    // The line has ended.
    fn end_line<O: Sink>(&mut self, out: &mut O) -> Result<(), Stop>
        requires { self.old.client.at ≤ 2 * self.old.count }
        ensures ok { OnOk result (GoesOn self.old self.new (O.held out.old) (O.held out.new) (10 ∷ [])) }
        ensures timely { OnOk result (self.new.client.at ≤ 2 * self.new.count) }
        ensures shrinks { OnOk result (room self.new.count self.new.line.items + 1 ≤ room self.old.count self.old.line.items) }
        ensures err { IfErr result (StopsIn self.old (O.held out.old) (O.held out.new) (10 ∷ [])) }
        ensures later { O.faults out.old ≤ O.faults out.new }
        ensures kept { OnOk result (O.faults out.new ≡ O.faults out.old) }
        ensures write { result ≡ Err Stop.Write → Rose (O.faults out.old) (O.faults out.new) }
        ensures read { result ≡ Err Stop.Read → ⊥ }
    {
        let text = without_cr(self.line.as_slice());
        match answer(self.alloc, &mut self.client, self.count, text, out) {
            Ok(()) => {}
            Err(stop) => return Err(stop),
        }
        self.count += 1;
        self.line.clear();
        Ok(())
    }

    // A byte of the line, which is not its end. A line that is too long is refused at once.
    fn keep<O: Sink>(&mut self, byte: u8, out: &mut O) -> Result<(), Stop>
        requires timely { self.old.client.at ≤ 2 * self.old.count }
        requires other { byte ≡ 10 → ⊥ }
        ensures ok { OnOk result (GoesOn self.old self.new (O.held out.old) (O.held out.new) (byte ∷ [])) }
        ensures timely { OnOk result (self.new.client.at ≤ 2 * self.new.count) }
        ensures shrinks { OnOk result (room self.new.count self.new.line.items + 1 ≤ room self.old.count self.old.line.items) }
        ensures err { IfErr result (StopsIn self.old (O.held out.old) (O.held out.new) (byte ∷ [])) }
        ensures later { O.faults out.old ≤ O.faults out.new }
        ensures kept { OnOk result (O.faults out.new ≡ O.faults out.old) }
        ensures write { result ≡ Err Stop.Write → Rose (O.faults out.old) (O.faults out.new) }
        ensures read { result ≡ Err Stop.Read → ⊥ }
    {
        let Ok(()) = self.line.push(byte) else {
            return Err(Stop::Memory);
        };
        if without_cr(self.line.as_slice()).len() > LINE_LIMIT {
            return Err(refuse(self.alloc, self.count, out));
        }
        Ok(())
    }
}

// The line without the one CR at its end, if it has one.
fn without_cr(line: &[u8]) -> &[u8]
    ensures { result.now ≡ strip_carriage_return line.now }
{
    let Some(last) = line.len().checked_sub(1) else {
        return line;
    };
    if line[last] == b'\r' {
        return &line[..last];
    }
    line
}
