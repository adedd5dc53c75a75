ghost use Rattle.std.specs.Prelude.{◌≡◌, ◌≤◌, ◌<◌, ◌+◌, ◌-◌, ◌||◌, length, take, drop, true, false, if◌then◌else◌, IfOk, OnOk, Some, None, is_err};
ghost use Rattle.vl_disk.specs.Calls.{IsCalled, IsUncalled, IsStill, IsWritten, IsSynced, IsRevived, counted_down, is_due};
ghost use Rattle.vl_disk.specs.Content.{image_of, rested, shown, written};
ghost use Rattle.vl_disk.specs.Images.{shown_left};
ghost use Rattle.vl_disk.specs.MemoryDisk.{counted, gone_on, is_failure, is_written, new_disk, told_memory, verdict_of};

use crate::call::Call;
use crate::content::Content;
use crate::fault_plan::FaultPlan;
use crate::past::Past;
use crate::verdict::Verdict;
use crate::{Disk, Pick, Stop};
use std::alloc::{AllocError, Global};
use std::marker::Model;
use vl_base::Failed;

/// A file in memory, with a list of the device calls that fail, and with armed stops. A call that fails by the list
/// or by `Fail` changes nothing. At a `Crash` a write is among those that aren't synced. Where both meet one call,
/// the crash decides.
#[derive(Debug, Drop)]
pub struct MemoryDisk {
    content: Content,
    past: Past,
    plan: FaultPlan,
    fail: Option<u64>,
    crash: Option<u64>,
    is_stopped: bool,
}

impl Model for MemoryDisk {
    ghost use Rattle.vl_disk.specs.MemoryDisk.{MemoryState};

    ghost Value = { MemoryState };

    ghost use Rattle.vl_disk.specs.MemoryDiskInside.{memory_of, IsMemory};

    ghost view = { memory_of };

    ghost invariant = { IsMemory };
}

// Whether a stop comes at the next device call.
fn is_due(stop: Option<u64>) -> bool
    ensures { result ≡ is_due stop }
{
    match stop {
        Some(n) => n <= 1,
        None => false,
    }
}

// A stop after one more device call.
fn counted_down(stop: Option<u64>) -> Option<u64>
    ensures { result ≡ counted_down stop }
{
    match stop {
        Some(n) => { if n <= 1 { None } else { Some(n - 1) } }
        None => None,
    }
}

fn verdict(is_stopped: bool, crashes: bool, fails: bool) -> Verdict
    ensures { result ≡ (if is_stopped then Verdict.Fails else if crashes then Verdict.Crashes else if fails then Verdict.Fails else Verdict.Passes) }
{
    if is_stopped {
        return Verdict::Fails;
    }
    if crashes {
        return Verdict::Crashes;
    }
    if fails {
        return Verdict::Fails;
    }
    Verdict::Passes
}

fn is_failure(verdict: Verdict) -> bool
    ensures { result ≡ is_failure verdict }
{
    match verdict {
        Verdict::Passes => false,
        Verdict::Fails | Verdict::Crashes => true,
    }
}

impl MemoryDisk {
    /// A file with these bytes, all of them on the disk. `failing` has the numbers of the device calls that fail,
    /// the first call being 1.
    pub fn new(alloc: Global, bytes: Vec<u8>, failing: Vec<u64>) -> Result<MemoryDisk, AllocError>
        ensures { IfOk result (λ disk. disk ≡ new_disk bytes.items failing.items) }
    {
        let start = bytes.to_vec(alloc)?;
        let content = Content::new(alloc, bytes)?;
        Ok(MemoryDisk {
            content,
            past: Past::new(alloc, start),
            plan: FaultPlan::new(failing),
            fail: None,
            crash: None,
            is_stopped: false,
        })
    }

    /// How many device calls have failed, up to the largest `u64`.
    pub fn fault_count(&self) -> u64
        ensures { result ≡ self.now.plan.faults }
    {
        self.plan.faults()
    }

    // Counts a device call, and tells how it goes.
    fn count(&mut self) -> Verdict
        ensures verdict { result ≡ verdict_of self.old }
        ensures counted { self.new ≡ counted self.old }
        ensures called { IsCalled (is_failure result) (told_memory self.old) (told_memory self.new) }
    {
        let fails = is_due(self.fail) || self.plan.fails_next();
        let crashes = is_due(self.crash);
        let verdict = verdict(self.is_stopped, crashes, fails);
        self.plan.count(is_failure(verdict));
        if self.is_stopped {
            return verdict;
        }
        self.fail = counted_down(self.fail);
        self.crash = counted_down(self.crash);
        self.is_stopped = crashes;
        verdict
    }

    // A write that is done.
    fn put(&mut self, offset: u64, bytes: &[u8])
        requires place { offset ≤ length (shown self.old.content) }
        requires room { offset + length bytes.now ≤ self.old.room }
        requires spare { 0 < self.old.spare }
        ensures { self.new ≡ gone_on (written offset bytes.now self.old.content) self.old }
    {
        let offset = offset as usize;
        self.content.write(offset, bytes);
        self.past.note(Call::Wrote(offset, bytes.len()), bytes);
    }

    // A write or a sync that changes nothing.
    fn miss(&mut self)
        requires { 0 < self.old.spare }
        ensures { self.new ≡ gone_on self.old.content self.old }
    {
        self.past.note(Call::Missed, &[]);
    }

    // A sync that is done.
    fn keep(&mut self)
        requires { 0 < self.old.spare }
        ensures { self.new ≡ gone_on (rested (shown self.old.content)) self.old }
    {
        self.content.sync();
        self.past.note(Call::Synced, &[]);
    }
}

impl Disk for MemoryDisk {
    ghost told = { told_memory };

    ghost itself = { λ d _. shown_left d.content };

    fn reserve(&mut self, len: u64, calls: u64) -> Result<(), AllocError> {
        self.content.reserve(len as usize, calls as usize)?;
        self.past.reserve(len as usize, calls as usize)
    }

    fn len(&mut self) -> Result<u64, Failed>
        ensures called { IsCalled (is_err result) (told_memory self.old) (told_memory self.new) }
        ensures still { IsStill (told_memory self.old) (told_memory self.new) }
        ensures spare { self.new.spare ≡ self.old.spare }
        ensures given { IfOk result (λ n. n ≡ length (shown self.old.content)) }

        // Which calls fail, and what they leave.
        ensures failed { is_err result ≡ is_failure (verdict_of self.old) }
        ensures state { self.new ≡ counted self.old }
    {
        match self.count() {
            Verdict::Passes => Ok(self.content.bytes().len() as u64),
            Verdict::Fails | Verdict::Crashes => Err(Failed),
        }
    }

    fn read(&mut self, at: u64, buf: &mut [u8]) -> Result<(), Failed>
        requires { at + length buf.old ≤ length (shown self.old.content) }
        ensures called { IsCalled (is_err result) (told_memory self.old) (told_memory self.new) }
        ensures still { IsStill (told_memory self.old) (told_memory self.new) }
        ensures spare { self.new.spare ≡ self.old.spare }
        ensures given { OnOk result (buf.new ≡ take (length buf.old) (drop at (shown self.old.content))) }

        // Which calls fail, and what they leave.
        ensures failed { is_err result ≡ is_failure (verdict_of self.old) }
        ensures state { self.new ≡ counted self.old }
    {
        match self.count() {
            Verdict::Passes => {
                let rest = &self.content.bytes()[at as usize..];
                let wanted = &rest[..buf.len()];
                buf.copy_from_slice(wanted);
                Ok(())
            }
            Verdict::Fails | Verdict::Crashes => Err(Failed),
        }
    }

    fn write_at(&mut self, at: u64, bytes: &[u8]) -> Result<(), Failed>
        requires place { at ≤ length (shown self.old.content) }
        requires room { at + length bytes.now ≤ self.old.room }
        requires spare { 0 < self.old.spare }
        ensures called { IsCalled (is_err result) (told_memory self.old) (told_memory self.new) }
        ensures spare { self.old.spare ≤ self.new.spare + 1 }
        ensures written { IsWritten at bytes.now (is_err result) (told_memory self.old) (told_memory self.new) }

        // Which calls fail, and what they leave.
        ensures failed { is_err result ≡ is_failure (verdict_of self.old) }
        ensures state { self.new ≡ gone_on (if is_written (verdict_of self.old) then written at bytes.now self.old.content else self.old.content) (counted self.old) }
    {
        match self.count() {
            Verdict::Passes => {
                self.put(at, bytes);
                Ok(())
            }
            Verdict::Fails => {
                self.miss();
                Err(Failed)
            }
            Verdict::Crashes => {
                self.put(at, bytes);
                Err(Failed)
            }
        }
    }

    fn sync(&mut self) -> Result<(), Failed>
        requires { 0 < self.old.spare }
        ensures called { IsCalled (is_err result) (told_memory self.old) (told_memory self.new) }
        ensures spare { self.old.spare ≤ self.new.spare + 1 }
        ensures synced { IsSynced (is_err result) (told_memory self.old) (told_memory self.new) }

        // Which calls fail, and what they leave.
        ensures failed { is_err result ≡ is_failure (verdict_of self.old) }
        ensures state { self.new ≡ gone_on (if is_failure (verdict_of self.old) then self.old.content else rested (shown self.old.content)) (counted self.old) }
    {
        match self.count() {
            Verdict::Passes => {
                self.keep();
                Ok(())
            }
            Verdict::Fails | Verdict::Crashes => {
                self.miss();
                Err(Failed)
            }
        }
    }

    fn arm(&mut self, n: u64, stop: Stop) -> bool {
        match stop {
            Stop::Fail => self.fail = Some(n),
            Stop::Crash => self.crash = Some(n),
        }
        true
    }

    fn disarm(&mut self) -> Option<(u64, Stop)> {
        if let Some(n) = self.fail {
            self.fail = None;
            return Some((n, Stop::Fail));
        }
        if let Some(n) = self.crash {
            self.crash = None;
            return Some((n, Stop::Crash));
        }
        None
    }

    fn stopped(&self) -> bool {
        self.is_stopped
    }

    fn revive(&mut self, pick: Pick)
        requires { 0 < self.old.spare }
        ensures uncalled { IsUncalled (told_memory self.old) (told_memory self.new) }
        ensures stopped { self.new.is_stopped ≡ false }
        ensures spare { self.old.spare ≤ self.new.spare + 1 }
        ensures revived { IsRevived (told_memory self.old) (told_memory self.new) }

        // Which image it leaves.
        ensures state { self.new ≡ record (gone_on (rested (image_of pick self.old.content)) self.old) { is_stopped = false } }
    {
        self.content.revive(pick);
        self.past.note(Call::Revived(pick), &[]);
        self.is_stopped = false;
    }
}
