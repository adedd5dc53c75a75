ghost use Rattle.std.specs.Prelude.{◌≡◌, [], decimal, IfOk};
ghost use Rattle.vl_vschema.specs.Path.{child};

use std::alloc::{AllocError, Global};
use std::cmp::Ordering;
use std::marker::Model;
use vl_values::bytes::Bytes;

/// Where something stands in a file: the names of members and the positions in lists, joined by `/`.
/// Paths are ordered by their bytes.
#[derive(Drop)]
pub(crate) struct Path {
    bytes: Vec<u8>,
}

impl Model for Path {
    ghost use Rattle.std.specs.Prelude.{ℕ, List};

    ghost Value = { List ℕ };

    ghost view = { λ p. p.bytes.items };
}

impl Path {
    /// The path of the file's object.
    pub(crate) fn root(alloc: Global) -> Path
        ensures { result ≡ [] }
    {
        Path {
            bytes: Vec::new(alloc),
        }
    }

    /// The path of what has this name in what stands here.
    pub(crate) fn child(&self, alloc: Global, name: &[u8]) -> Result<Path, AllocError>
        ensures { IfOk result (λ path. path ≡ child self.now name.now) }
    {
        if self.bytes.is_empty() {
            let bytes = Vec::from_slice(alloc, name)?;
            return Ok(Path { bytes });
        }
        let mut bytes = Vec::from_slice(alloc, self.bytes.as_slice())?;
        bytes.push(b'/')?;
        bytes.extend_from_slice(name)?;
        Ok(Path { bytes })
    }

    /// The path of the item at a position, counted from 0, of the list that stands here.
    pub(crate) fn item(&self, alloc: Global, position: usize) -> Result<Path, AllocError>
        ensures { IfOk result (λ path. path ≡ child self.now (decimal position)) }
    {
        let mut buffer = itoa::Buffer::new();
        self.child(alloc, buffer.format(position).as_bytes())
    }

    pub(crate) fn copy(&self, alloc: Global) -> Result<Path, AllocError>
        ensures { IfOk result (λ path. path ≡ self.now) }
    {
        let bytes = Vec::from_slice(alloc, self.bytes.as_slice())?;
        Ok(Path { bytes })
    }

    pub(crate) fn from_bytes(bytes: Bytes) -> Path
        ensures { result ≡ bytes }
    {
        Path {
            bytes: bytes.into_vec(),
        }
    }

    pub(crate) fn into_bytes(self) -> Bytes
        ensures { result ≡ self }
    {
        let Path { bytes } = self;
        Bytes::from_vec(bytes)
    }
}

impl Ord for Path {
    ghost use Rattle.std.specs.Prelude.{refl};
    ghost use Rattle.std.specs.Cmp.Lexicographic.{slice_cmp};
    ghost use Rattle.std.specs.Ordering.{nat_cmp};
    ghost use Rattle.std.proofs.lemmas.Cmp.{nat_list_cmp_total};

    ghost cmp = { slice_cmp nat_cmp };

    ghost total = { nat_list_cmp_total };

    ghost matches_partial_cmp = { λ x y. refl };

    ghost matches_eq = { λ x y. refl };

    fn cmp(&self, other: &Path) -> Ordering {
        self.bytes.as_slice().cmp(other.bytes.as_slice())
    }
}

impl PartialOrd for Path {
    ghost use Rattle.std.specs.Prelude.{refl};
    ghost use Rattle.std.specs.Cmp.{partial_order_from_agreeing_total};
    ghost use Rattle.std.specs.Cmp.Lexicographic.{slice_cmp};
    ghost use Rattle.std.specs.Ordering.{nat_cmp, as_partial_cmp};
    ghost use Rattle.std.proofs.lemmas.Cmp.{nat_list_cmp_total};

    ghost partial_cmp = { as_partial_cmp (slice_cmp nat_cmp) };

    ghost laws = { partial_order_from_agreeing_total (slice_cmp nat_cmp) nat_list_cmp_total (λ x y. refl) (λ x y. refl) };

    fn partial_cmp(&self, other: &Path) -> Option<Ordering> {
        Some(self.cmp(other))
    }
}

impl PartialEq for Path {
    ghost use Rattle.std.specs.Cmp.{partial_equiv_from_equiv};
    ghost use Rattle.std.specs.Cmp.Lexicographic.{slice_cmp};
    ghost use Rattle.std.specs.Ordering.{nat_cmp, eq_by_cmp};
    ghost use Rattle.std.proofs.lemmas.Cmp.{eq_by_cmp_equiv, nat_list_cmp_total};

    ghost eq = { eq_by_cmp (slice_cmp nat_cmp) };

    ghost laws = { partial_equiv_from_equiv (eq_by_cmp_equiv nat_list_cmp_total) };

    fn eq(&self, other: &Path) -> bool {
        self.cmp(other) == Ordering::Equal
    }
}

impl Eq for Path {
    ghost use Rattle.std.proofs.lemmas.Cmp.{eq_by_cmp_equiv, nat_list_cmp_total};

    ghost laws = { eq_by_cmp_equiv nat_list_cmp_total };
}
