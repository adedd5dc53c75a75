ghost use Rattle.std.specs.Prelude.{◌≡◌, ◌*◌, ◌≤◌, ℕ, List, [], OnOk, IfErr};
ghost use Rattle.vl_base.specs.Faults.{Rose};
ghost use Rattle.vtgate_cl.specs.declared.status.Status.TheVariants.{Done, InvalidArguments, ReadFailed, WriteFailed, OutOfMemory};
ghost use Rattle.vtgate_cl.specs.Check.{IsChecked};
ghost use Rattle.vtgate_cl.specs.Player.{Played};
ghost use Rattle.vtgate_cl.specs.Status.{IsScriptStatus, IsRefusalStatus, IsTold, IsDone, Breaks, Prints};
ghost use Rattle.vtgate_cl.specs.Words.{IsAccepted, IsCheck, IsCheckOf, IsScript};

use crate::check::check;
use crate::player::Player;
use crate::status::Status;
use crate::stop::Stop;
use crate::wanted::Wanted;
use crate::words::read_words;
use std::alloc::Global;
use vl_base::{Files, Sink, Source};

// How many bytes a read of the source asks for.
const PIECE: usize = 4096;

/// Runs the command that the words ask for. `script` reads a script from the source, answers its lines in
/// order and prints each answer before it reads on. `check` loads the catalog of that name from the files and
/// prints its report, or why it wasn't loaded. Words that aren't accepted read and print nothing. A
/// script ends at the first line that is no script line, whose number is printed last.
pub fn batch<F: Files, S: Source, O: Sink>(
    alloc: Global,
    words: &[String],
    files: &mut F,
    src: &mut S,
    out: &mut O,
) -> Status
    // Words that aren't accepted do nothing.
    ensures refused { result ≡ InvalidArguments → IsAccepted words.now → ⊥ }
    ensures other { (IsAccepted words.now → ⊥) → IsRefusalStatus result }
    ensures untouched { (IsAccepted words.now → ⊥) → (files.new ≡ files.old) × (src.new ≡ src.old) × (out.new ≡ out.old) }

    // A script is answered by one table, and touches no file.
    ensures script { IsScript words.now → Prints (IsTold result) (S.left src.old) (S.left src.new) (O.held out.old) (O.held out.new) }
    ensures script_status { IsScript words.now → IsScriptStatus result }
    ensures script_files { IsScript words.now → files.new ≡ files.old }

    // A check tells what the catalog's files say, and reads no script.
    ensures check { (name : List ℕ) → IsCheckOf words.now name → IsChecked (F.known files.old) name (F.failures files.old) (F.failures files.new) (O.held out.old) (O.held out.new) result }
    ensures named { IsCheck words.now → (result ≡ OutOfMemory → ⊥) → (name : List ℕ) × IsCheckOf words.now name }
    ensures check_source { IsCheck words.now → src.new ≡ src.old }
    ensures same { F.known files.new ≡ F.known files.old }

    // Each fault of the outside is told where it was, and only there.
    ensures calm { result ≡ Done → (F.failures files.new ≡ F.failures files.old) × (S.faults src.new ≡ S.faults src.old) × (O.faults out.new ≡ O.faults out.old) }
    ensures read { result ≡ ReadFailed → Rose (S.faults src.old) (S.faults src.new) }
    ensures write { result ≡ WriteFailed → Rose (O.faults out.old) (O.faults out.new) }
{
    let wanted = match read_words(alloc, words) {
        Ok(wanted) => wanted,
        Err(fault) => return fault.status(),
    };
    match wanted {
        Wanted::Script => run_script(alloc, src, out),
        Wanted::Check { catalog } => check(alloc, files, catalog, out),
    }
}

// Runs a script.
fn run_script<S: Source, O: Sink>(alloc: Global, src: &mut S, out: &mut O) -> Status
    ensures script { Prints (IsTold result) (S.left src.old) (S.left src.new) (O.held out.old) (O.held out.new) }
    ensures calm { result ≡ Done → (S.faults src.new ≡ S.faults src.old) × (O.faults out.new ≡ O.faults out.old) }
    ensures read { result ≡ ReadFailed → Rose (S.faults src.old) (S.faults src.new) }
    ensures write { result ≡ WriteFailed → Rose (O.faults out.old) (O.faults out.new) }
    ensures accepted { result ≡ InvalidArguments → ⊥ }
    ensures status { IsScriptStatus result }
{
    match run(alloc, src, out) {
        Ok(()) => Status::Done,
        Err(stop) => stop.status(),
    }
}

// Reads a script and answers its lines.
fn run<S: Source, O: Sink>(alloc: Global, src: &mut S, out: &mut O) -> Result<(), Stop>
    ensures ok { OnOk result (Prints IsDone (S.left src.old) (S.left src.new) (O.held out.old) (O.held out.new)) }
    ensures err { IfErr result (λ stop. Prints (Breaks stop) (S.left src.old) (S.left src.new) (O.held out.old) (O.held out.new)) }
    ensures calm { OnOk result ((S.faults src.new ≡ S.faults src.old) × (O.faults out.new ≡ O.faults out.old)) }
    ensures read { result ≡ Err Stop.Read → Rose (S.faults src.old) (S.faults src.new) }
    ensures write { result ≡ Err Stop.Write → Rose (O.faults out.old) (O.faults out.new) }
{
    let Ok(mut player) = Player::open(alloc) else {
        return Err(Stop::Memory);
    };
    let ended = read_all(&mut player, src, out);
    player.close();
    ended
}

// Gives the player all that the source has, a piece at a time.
fn read_all<S: Source, O: Sink>(player: &mut Player, src: &mut S, out: &mut O) -> Result<(), Stop>
    requires { player.old.client.at ≤ 2 * player.old.count }
    ensures ok { OnOk result (Played [] [] player.old → Prints IsDone (S.left src.old) (S.left src.new) (O.held out.old) (O.held out.new)) }
    ensures err { IfErr result (λ stop. Played [] [] player.old → Prints (Breaks stop) (S.left src.old) (S.left src.new) (O.held out.old) (O.held out.new)) }
    ensures calm { OnOk result ((S.faults src.new ≡ S.faults src.old) × (O.faults out.new ≡ O.faults out.old)) }
    ensures read { result ≡ Err Stop.Read → Rose (S.faults src.old) (S.faults src.new) }
    ensures write { result ≡ Err Stop.Write → Rose (O.faults out.old) (O.faults out.new) }
{
    let mut piece = [0; PIECE];
    'reading: loop {
        let given = match src.read(&mut piece) {
            Ok(given) => given,
            Err(_) => return Err(Stop::Read),
        };
        if given == 0 {
            return player.finish(out);
        }
        match player.feed(&piece[..given], out) {
            Ok(()) => {}
            Err(stop) => return Err(stop),
        }
    }
}
