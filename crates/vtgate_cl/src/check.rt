ghost use Rattle.std.specs.Prelude.{◌≡◌, ◌≤◌};
ghost use Rattle.vl_base.specs.Faults.{Rose};
ghost use Rattle.vl_load.specs.Lines.{fault_line};
ghost use Rattle.vl_load.specs.Report.{report_of};
ghost use Rattle.vl_rules.specs.Order.{Checked};
ghost use Rattle.vtgate_cl.specs.declared.status.Status.TheVariants.{Done, WriteFailed};
ghost use Rattle.vtgate_cl.specs.Check.{IsChecked, Tells, status_of_fault};

use crate::status::Status;
use std::alloc::Global;
use vl_base::{Files, Sink, write_all};
use vl_load::{LoadFault, Loaded, load, report};

/// Checks the catalog whose catalog file has this name: prints its report, or why it wasn't loaded. The
/// status is `Done` where the report is printed, `FileNotLoaded` where a file couldn't be loaded or is too
/// long, which is printed, `CatalogRefused` where the catalog is refused, which is printed, `WriteFailed`
/// where the sink failed, and `OutOfMemory`.
pub fn check<F: Files, O: Sink>(alloc: Global, files: &mut F, name: &str, out: &mut O) -> Status
    ensures told { IsChecked (F.known files.old) name.now (F.failures files.old) (F.failures files.new) (O.held out.old) (O.held out.new) result }
    ensures same { F.known files.new ≡ F.known files.old }
    ensures calm { result ≡ Done → (F.failures files.new ≡ F.failures files.old) × (O.faults out.new ≡ O.faults out.old) }
    ensures write { result ≡ WriteFailed → Rose (O.faults out.old) (O.faults out.new) }
{
    match load(alloc, files, name) {
        Ok(loaded) => tell_report(alloc, &loaded, out),
        Err(fault) => tell_fault(alloc, &fault, out),
    }
}

// Prints the report of a catalog.
fn tell_report<O: Sink>(alloc: Global, loaded: &Loaded, out: &mut O) -> Status
    requires { Checked loaded.now.catalog }
    ensures told { Tells (report_of loaded.now) Done (O.held out.old) (O.held out.new) result }
    ensures calm { result ≡ Done → O.faults out.new ≡ O.faults out.old }
    ensures write { result ≡ WriteFailed → Rose (O.faults out.old) (O.faults out.new) }
{
    let Ok(text) = report(alloc, loaded) else {
        return Status::OutOfMemory;
    };
    tell(text.as_slice(), Status::Done, out)
}

// Prints why a catalog wasn't loaded.
fn tell_fault<O: Sink>(alloc: Global, fault: &LoadFault, out: &mut O) -> Status
    ensures told { Tells (fault_line fault.now) (status_of_fault fault.now) (O.held out.old) (O.held out.new) result }
    ensures some { result ≡ Done → ⊥ }
    ensures write { result ≡ WriteFailed → Rose (O.faults out.old) (O.faults out.new) }
{
    let Ok(line) = fault.line(alloc) else {
        return Status::OutOfMemory;
    };
    tell(line.as_slice(), status_of(fault), out)
}

fn status_of(fault: &LoadFault) -> Status
    ensures { result ≡ status_of_fault fault.now }
{
    match fault {
        LoadFault::Failed | LoadFault::TooLong { .. } => Status::FileNotLoaded,
        LoadFault::Refused(_) => Status::CatalogRefused,
        LoadFault::Memory => Status::OutOfMemory,
    }
}

// Prints a text, which has this status.
fn tell<O: Sink>(text: &[u8], due: Status, out: &mut O) -> Status
    requires { due ≡ WriteFailed → ⊥ }
    ensures told { Tells text.now due (O.held out.old) (O.held out.new) result }
    ensures calm { result ≡ Done → (due ≡ Done) × (O.faults out.new ≡ O.faults out.old) }
    ensures write { result ≡ WriteFailed → Rose (O.faults out.old) (O.faults out.new) }
{
    match write_all(out, text) {
        Ok(()) => due,
        Err(_) => Status::WriteFailed,
    }
}
