//! A table's bytes, appended piece by piece, with the digest of those that were appended.
ghost use Rattle.std.specs.Prelude.{◌≡◌, length, IfOk};

use crate::encoding::encode_entries;
use acas_outside::{Failed, Folder, write_piece};
use acas_table_text::Format;
use acas_units::{GREATEST_ENTRIES, Pair};
use sha2::{Digest, Sha256};
use std::alloc::{AllocError, Global};

/// How many states one piece has at most.
const STATES: usize = 3_855;

/// How many bytes these have.
const PIECE: usize = 65_535;

/// Room for one piece, and the digest of all that was appended.
#[derive(Drop)]
pub struct Pieces {
    buffer: Vec<u8>,
    hasher: Sha256,
    ghost size: { length buffer.items ≡ 65535 },
}

impl Pieces {
    ghost use Rattle.std.specs.Prelude.{◌≡◌, ◌≤◌, ◌*◌, ◌++◌, List, ℕ, IfOk, OnOk, OnErr, IsErr, IsSome, IsTrue, length, take};
    ghost use Rattle.sha2.specs.Sha256.{sha256};
    ghost use Rattle.acas_outside.specs.Files.{Given, Grows, GrowsPart};
    ghost use Rattle.acas_outside.specs.Frame.{OnlyWrites};
    ghost use Rattle.acas_table_writer.specs.Pieces.{Appends, Holds};
    ghost use Rattle.acas_table_text.specs.Growth.{ending, layer_bytes, next_base};
    ghost use Rattle.acas_table_text.specs.Text.{layer_text, layer_of};

    /// Room for pieces that follow these bytes.
    pub fn behind(alloc: Global, head: &[u8]) -> Result<Pieces, AllocError>
        ensures { IfOk result (λ p. Holds p head.now) }
    {
        let mut hasher = Sha256::new();
        hasher.update(head);
        Ok(Pieces {
            buffer: room(alloc)?,
            hasher,
        })
    }

    // Appends some bytes.
    fn bytes<F: Folder>(&mut self, bytes: &[u8], folder: &mut F, name: &str) -> Result<(), Failed>
        requires served { IsTrue (F.serves folder.old name.now) }
        requires held { Given (F.holds folder.old) name.now (λ file. IsSome file) }
        ensures { Appends F.Folder folder.old folder.new name.now bytes.now self.old self.new result }
    {
        self.hasher.update(bytes);
        write_piece(folder, name, bytes)
    }

    // Appends the digest of what was appended. From then on only the digest counts as appended.
    fn digest<F: Folder>(&mut self, folder: &mut F, name: &str) -> Result<(), Failed>
        requires served { IsTrue (F.serves folder.old name.now) }
        requires held { Given (F.holds folder.old) name.now (λ file. IsSome file) }
        ensures hashed { (m : List ℕ) → Holds self.old m → OnOk result (Holds self.new (sha256 m)) }
        ensures ok { (m : List ℕ) → Holds self.old m →
            OnOk result (Grows (F.holds folder.old) (F.holds folder.new) name.now (sha256 m)) }
        ensures err { (m : List ℕ) → Holds self.old m →
            OnErr result (GrowsPart (F.holds folder.old) (F.holds folder.new) name.now (sha256 m)) }
        ensures frame { OnlyWrites F.Folder folder.old folder.new (IsErr result) }
    {
        let digest = self.hasher.finalize_reset();
        self.bytes(&digest, folder, name)
    }

    /// Appends a layer, and in version 2 its digest.
    pub fn layer<F: Folder>(
        &mut self,
        format: Format,
        pairs: &[Pair],
        advice: &[u8],
        folder: &mut F,
        name: &str,
    ) -> Result<(), Failed>
        requires served { IsTrue (F.serves folder.old name.now) }
        requires held { Given (F.holds folder.old) name.now (λ file. IsSome file) }
        requires long { length advice.now ≡ length pairs.now }
        requires bound { length pairs.now ≤ GREATEST_ENTRIES }
        ensures ok { (m : List ℕ) → Holds self.old m → OnOk result
            (Grows (F.holds folder.old) (F.holds folder.new) name.now
            (layer_bytes format m (layer_of pairs.now advice.now))) }
        ensures err { (m : List ℕ) → Holds self.old m → OnErr result
            (GrowsPart (F.holds folder.old) (F.holds folder.new) name.now
            (layer_bytes format m (layer_of pairs.now advice.now))) }
        ensures hashed { (m : List ℕ) → Holds self.old m →
            OnOk result (Holds self.new (next_base format m (layer_of pairs.now advice.now))) }
        ensures frame { OnlyWrites F.Folder folder.old folder.new (IsErr result) }
    {
        let mut at = 0;
        while at < pairs.len() {
            let count = (pairs.len() - at).min(STATES);
            self.encode(&pairs[at..at + count], &advice[at..at + count]);
            self.front(17 * count, folder, name)?;
            at += count;
        }
        match format {
            Format::Whole => Ok(()),
            Format::Layered => self.digest(folder, name),
        }
    }

    /// Appends what follows the layers: in version 1 the digest of all that was appended.
    pub fn ending<F: Folder>(
        &mut self,
        format: Format,
        folder: &mut F,
        name: &str,
    ) -> Result<(), Failed>
        requires served { IsTrue (F.serves folder.old name.now) }
        requires held { Given (F.holds folder.old) name.now (λ file. IsSome file) }
        ensures ok { (m : List ℕ) → Holds self.old m →
            OnOk result (Grows (F.holds folder.old) (F.holds folder.new) name.now (ending format m)) }
        ensures err { (m : List ℕ) → Holds self.old m →
            OnErr result (GrowsPart (F.holds folder.old) (F.holds folder.new) name.now (ending format m)) }
        ensures frame { OnlyWrites F.Folder folder.old folder.new (IsErr result) }
    {
        match format {
            Format::Whole => self.digest(folder, name),
            Format::Layered => Ok(()),
        }
    }

    // Puts the entries of so many states at the front of the buffer.
    fn encode(&mut self, pairs: &[Pair], advice: &[u8])
        requires long { length advice.now ≡ length pairs.now }
        requires bound { length pairs.now ≤ 3855 }
        ensures text { take (17 * length pairs.now) self.new.buffer.items
            ≡ layer_text (layer_of pairs.now advice.now) }
        ensures hashed { (m : List ℕ) → Holds self.old m → Holds self.new m }
    {
        encode_entries(&mut self.buffer, pairs, advice);
    }

    // Appends so many bytes from the front of the buffer.
    fn front<F: Folder>(&mut self, count: usize, folder: &mut F, name: &str) -> Result<(), Failed>
        requires served { IsTrue (F.serves folder.old name.now) }
        requires held { Given (F.holds folder.old) name.now (λ file. IsSome file) }
        requires within { count ≤ PIECE }
        ensures { let bytes = take count self.old.buffer.items in
            Appends F.Folder folder.old folder.new name.now bytes self.old self.new result }
    {
        let bytes = &self.buffer[..count];
        self.hasher.update(bytes);
        write_piece(folder, name, bytes)
    }
}

fn room(alloc: Global) -> Result<Vec<u8>, AllocError>
    ensures { IfOk result (λ v. length v.items ≡ PIECE) }
{
    vec![in alloc; 0u8; PIECE]
}
