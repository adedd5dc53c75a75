ghost use Rattle.std.specs.Prelude.{◌≡◌, List, Option, Some, Ok, IfOk, IfErr, IsErrOf};
ghost use Rattle.std.specs.Option.{option_copied};
ghost use Rattle.vl_base.specs.Fakes.{IsRefused, contents_of, fails_next, file_named, is_failed, loaded, loaded_unless, plan_after};
ghost use Rattle.vl_base.specs.Files.{HasFileCause, IsLoaded, IsTooLong};
ghost use Rattle.vl_base.specs.declared.file_fault.FileFault.TheVariants as faults;

use crate::fault_plan::FaultPlan;
use crate::files::FILE_LIMIT;
use crate::{FileFault, Files, MemoryFile};
use std::alloc::Global;
use std::marker::Model;

/// Files in memory, with a list of the calls that fail. A name that no file has fails too.
#[derive(Debug, Drop)]
pub struct MemoryFiles {
    alloc: Global,
    files: Vec<MemoryFile>,
    plan: FaultPlan,
}

impl Model for MemoryFiles {
    ghost use Rattle.vl_base.specs.Fakes.{FilesState};

    ghost Value = { FilesState };

    ghost view = { λ f. record { files = f.files.items; plan = f.plan } };
}

impl MemoryFiles {
    /// These files; of two of one name the first. `failing` has the numbers of the loads that fail, the
    /// first load being 1.
    pub fn new(alloc: Global, files: Vec<MemoryFile>, failing: Vec<u64>) -> MemoryFiles
        ensures files { result.files ≡ files.items }
        ensures plan { result.plan ≡ record { failing = failing.items; calls = 0; faults = 0 } }
    {
        MemoryFiles {
            alloc,
            files,
            plan: FaultPlan::new(failing),
        }
    }

    /// How many loads have failed, up to the largest `u64`.
    pub fn fault_count(&self) -> u64
        ensures { result ≡ self.now.plan.faults }
    {
        self.plan.faults()
    }
}

fn file_named<'a>(files: &'a [MemoryFile], name: &[u8]) -> Option<&'a MemoryFile>
    ensures { option_copied result ≡ file_named files.now name.now }
{
    files.iter().find(|file| file.name() == name)
}

fn load_found(alloc: Global, file: Option<&MemoryFile>) -> Result<Vec<u8>, FileFault>
    ensures ok { IfOk result (λ bytes. loaded (option_copied file.entry) ≡ Ok bytes.items) }
    ensures err { IfErr result (λ fault. IsRefused fault (loaded (option_copied file.entry))) }
{
    match file {
        Some(file) => {
            if file.bytes().len() > FILE_LIMIT {
                return Err(FileFault::TooLong);
            }
            let bytes = Vec::from_slice(alloc, file.bytes())?;
            Ok(bytes)
        }
        None => Err(FileFault::Failed),
    }
}

fn load_unless(alloc: Global, fails: bool, file: Option<&MemoryFile>) -> Result<Vec<u8>, FileFault>
    ensures ok { IfOk result (λ bytes. loaded_unless fails (option_copied file.entry) ≡ Ok bytes.items) }
    ensures err { IfErr result (λ fault. IsRefused fault (loaded_unless fails (option_copied file.entry))) }
{
    if fails {
        return Err(FileFault::Failed);
    }
    load_found(alloc, file)
}

pub(crate) fn is_failed(outcome: &Result<Vec<u8>, FileFault>) -> bool
    ensures { result ≡ is_failed outcome.now }
{
    matches!(outcome, Err(FileFault::Failed))
}

impl Files for MemoryFiles {
    ghost known = { λ f. Some (contents_of f.files) };

    ghost failures = { λ f. f.plan.faults };

    fn load(&mut self, name: &str) -> Result<Vec<u8>, FileFault>
        ensures same { self.new.files ≡ self.old.files }
        ensures bytes { IfOk result (λ bytes. IsLoaded (Some (contents_of self.old.files)) name.now bytes.items) }
        ensures long { IsErrOf result faults.TooLong → IsTooLong (Some (contents_of self.old.files)) name.now }
        ensures cause { HasFileCause self.old.plan.faults self.new.plan.faults result }

        // Which calls fail, and what the others give.
        ensures given { IfOk result (λ bytes. loaded_unless (fails_next self.old.plan) (file_named self.old.files name.now) ≡ Ok bytes.items) }
        ensures refused { IfErr result (λ fault. IsRefused fault (loaded_unless (fails_next self.old.plan) (file_named self.old.files name.now))) }
        ensures plan { self.new.plan ≡ plan_after self.old.plan (is_failed result) }
    {
        let fails = self.plan.fails_next();
        let file = file_named(self.files.as_slice(), name.as_bytes());
        let outcome = load_unless(self.alloc, fails, file);
        self.plan.count(is_failed(&outcome));
        outcome
    }
}
