//! Files that can fail and crash: what a read gives, what a crash now may leave, and what a crash at each earlier
//! moment might have left.
//!
//! Each disk tells one record of data (`DiskView`), so that a program above can be proved at every moment of every call.
//! A disk in memory meets the contracts with its content, its picks and its armed stops. The disks over a folder are the
//! trusted edge: they tell their counts of faults, and whether the system's files keep the model is outside any proof.
#![tactic(auto)]

mod call;
mod content;
mod disk;
mod disks;
mod fault_plan;
mod file_disk;
mod folder_disks;
mod memory_disk;
mod memory_disks;
mod open_fault;
mod past;
mod pick;
mod piece;
mod sides;
mod slot;
mod slots;
mod stop;
mod verdict;
mod writing;

pub use disk::Disk;
pub use disks::Disks;
pub use file_disk::FileDisk;
pub use folder_disks::FolderDisks;
pub use memory_disk::MemoryDisk;
pub use memory_disks::MemoryDisks;
pub use open_fault::OpenFault;
pub use pick::Pick;
pub use sides::Sides;
pub use stop::Stop;
pub use writing::write_down;

#[cfg(test)]
mod tests;
