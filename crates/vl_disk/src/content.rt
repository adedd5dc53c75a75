ghost use Rattle.std.specs.Prelude.{◌≡◌, ◌<◌, ◌≤◌, ◌+◌, ◌-◌, length, max, IfOk, OnOk, OnErr, vec_capacity};
ghost use Rattle.vl_disk.specs.Moment.{put};
ghost use Rattle.vl_disk.specs.Content.{all_picked, cut_up, image_of, laid, picked, pieces_len, rested, shown, written, ArePlaced};

use crate::Pick;
use crate::piece::Piece;
use std::alloc::{AllocError, Global};
use std::marker::Model;

/// The bytes of a file in memory: those on the disk, those that a read gives, and the writes between. It takes
/// memory only to make room.
#[derive(Debug, Drop)]
pub(crate) struct Content {
    base: Vec<u8>,
    bytes: Vec<u8>,
    // The writes that aren't synced, the oldest first, and their bytes in a row.
    pieces: Vec<Piece>,
    log: Vec<u8>,
    room: usize,
    spare: usize,
}

impl Model for Content {
    ghost use Rattle.vl_disk.specs.Content.{ContentState};

    ghost Value = { ContentState };

    ghost use Rattle.vl_disk.specs.ContentInside.{content_of, IsContent};

    ghost view = { content_of };

    ghost invariant = { IsContent };
}

// Puts bytes over those at the offset and past the end.
fn overwrite(file: &mut Vec<u8>, offset: usize, bytes: &[u8])
    requires place { offset ≤ length file.old.items }
    requires room { offset + length bytes.now ≤ vec_capacity file.old }
    ensures items { file.new.items ≡ put file.old.items offset bytes.now }
    ensures capacity { vec_capacity file.old ≤ vec_capacity file.new }
{
    let within = bytes.len().min(file.len() - offset);
    file[offset..offset + within].copy_from_slice(&bytes[..within]);
    let Ok(()) = file.extend_from_slice(&bytes[within..]) else {
        unreachable!()
    };
}

// Leaves of a write what the pick leaves of it.
fn spoil(bytes: &mut [u8], pick: Pick)
    ensures { bytes.new ≡ picked pick bytes.old }
{
    match pick {
        Pick::None | Pick::All => {}
        Pick::Half => {
            let half = bytes.len() / 2;
            bytes[half..].fill(0);
        }
        Pick::Gates => bytes.fill(0xa7),
    }
}

// Writes what the pick leaves of each write, the oldest first.
fn lay(file: &mut Vec<u8>, pieces: &[Piece], log: &mut [u8], pick: Pick)
    requires sized { pieces_len pieces.now ≡ length log.old }
    requires placed { ArePlaced (length file.old.items) (cut_up pieces.now log.old) }
    requires room { length (laid file.old.items (all_picked pick (cut_up pieces.now log.old))) ≤ vec_capacity file.old }
    ensures items { file.new.items ≡ laid file.old.items (all_picked pick (cut_up pieces.now log.old)) }
    ensures capacity { vec_capacity file.old ≤ vec_capacity file.new }
{
    let mut rest = log;
    for piece in pieces {
        let (bytes, behind) = rest.split_at_mut(piece.len);
        spoil(bytes, pick);
        overwrite(file, piece.offset, bytes);
        rest = behind;
    }
}

// The file on the disk becomes the image that the pick leaves.
fn restore(file: &mut Vec<u8>, pieces: &[Piece], log: &mut [u8], pick: Pick)
    requires sized { pieces_len pieces.now ≡ length log.old }
    requires placed { ArePlaced (length file.old.items) (cut_up pieces.now log.old) }
    requires room { length (image_of pick (record { synced = file.old.items; writes = cut_up pieces.now log.old })) ≤ vec_capacity file.old }
    ensures items { file.new.items ≡ image_of pick (record { synced = file.old.items; writes = cut_up pieces.now log.old }) }
    ensures capacity { vec_capacity file.old ≤ vec_capacity file.new }
{
    match pick {
        Pick::None => {}
        Pick::All => lay(file, pieces, log, Pick::All),
        Pick::Half => lay(file, pieces, log, Pick::Half),
        Pick::Gates => lay(file, pieces, log, Pick::Gates),
    }
}

impl Content {
    /// A file with these bytes, all of them on the disk. It has room for no more.
    pub fn new(alloc: Global, bytes: Vec<u8>) -> Result<Content, AllocError>
        ensures { IfOk result (λ content. content ≡ record { file = rested bytes.items; room = length bytes.items; spare = 0 }) }
    {
        let base = bytes.to_vec(alloc)?;
        let room = bytes.len();
        Ok(Content {
            base,
            bytes,
            pieces: Vec::new(alloc),
            log: Vec::new(alloc),
            room,
            spare: 0,
        })
    }

    /// What a read gives.
    pub fn bytes(&self) -> &[u8]
        ensures { result.now ≡ shown self.now.file }
    {
        self.bytes.as_slice()
    }

    /// Makes room for a file of `room` bytes and for `spare` writes, each of which may overwrite all of it.
    pub fn reserve(&mut self, room: usize, spare: usize) -> Result<(), AllocError>
        ensures made { OnOk result (self.new ≡ record self.old { room = max room self.old.room; spare = max spare self.old.spare }) }
        ensures refused { OnErr result (self.new ≡ self.old) }
    {
        let room = room.max(self.room);
        let spare = spare.max(self.spare);
        let Some(log) = spare.checked_mul(room) else {
            return Err(AllocError);
        };
        self.base.reserve(room.saturating_sub(self.base.len()))?;
        self.bytes.reserve(room - self.bytes.len())?;
        self.pieces.reserve(spare)?;
        self.log.reserve(log)?;
        self.room = room;
        self.spare = spare;
        Ok(())
    }

    /// Writes these bytes. They aren't synced.
    pub fn write(&mut self, offset: usize, bytes: &[u8])
        requires place { offset ≤ length (shown self.old.file) }
        requires room { offset + length bytes.now ≤ self.old.room }
        requires spare { 0 < self.old.spare }
        ensures { self.new ≡ record self.old { file = written offset bytes.now self.old.file; spare = self.old.spare - 1 } }
    {
        overwrite(&mut self.bytes, offset, bytes);
        let piece = Piece {
            offset,
            len: bytes.len(),
        };
        let Ok(()) = self.pieces.push(piece) else {
            unreachable!()
        };
        let Ok(()) = self.log.extend_from_slice(bytes) else {
            unreachable!()
        };
        self.spare -= 1;
    }

    /// Brings all writes to the disk.
    pub fn sync(&mut self)
        ensures { self.new ≡ record self.old { file = rested (shown self.old.file) } }
    {
        restore(
            &mut self.base,
            self.pieces.as_slice(),
            self.log.as_mut_slice(),
            Pick::All,
        );
        self.pieces.clear();
        self.log.clear();
    }

    /// Leaves what the pick leaves, and all of it on the disk.
    pub fn revive(&mut self, pick: Pick)
        ensures { self.new ≡ record self.old { file = rested (image_of pick self.old.file) } }
    {
        restore(
            &mut self.base,
            self.pieces.as_slice(),
            self.log.as_mut_slice(),
            pick,
        );
        self.pieces.clear();
        self.log.clear();
        self.bytes.clear();
        let Ok(()) = self.bytes.extend_from_slice(self.base.as_slice()) else {
            unreachable!()
        };
    }
}
