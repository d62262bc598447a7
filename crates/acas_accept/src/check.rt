//! A table in check: it is read entry by entry, and each entry is looked at before the next is read.
ghost use Rattle.std.specs.Prelude.{◌≡◌, ◌≤◌, ◌<◌, ◌+◌, ◌-◌, List, ℕ, None, false, length, set, IsTrue, IsErrOf, IfErr, IfOk, OnOk, MatchResult};
ghost use Rattle.acas_spec.specs.Model.{ModelData, entries, states, vertices};
ghost use Rattle.acas_grid.specs.Grid.{state_number};
ghost use Rattle.acas_outside.specs.Counts.{raised};
ghost use Rattle.acas_outside.specs.Frame.{OnlyReads};
ghost use Rattle.acas_table.specs.Reader.{Told, reader_state};
ghost use Rattle.acas_table_text.specs.Shape.{entry_count, shape_of};
ghost use Rattle.acas_table.specs.Source.{Takes};
ghost use Rattle.acas_table_text.specs.Format.{length_of};
ghost use Rattle.acas_bounds.specs.Planes.{IsPlane};
ghost use Rattle.acas_accept.specs.Checking.{HasAccepted, HasNoRefusal, IsAnswer, IsAt, IsBeforeLayer, IsCheckOf, IsInLayer};
ghost use Rattle.acas_accept.specs.Faults.{IsAnswerable};
ghost use Rattle.acas_accept.specs.Leasts.{AreFound, HaveLeasts};
ghost use Rattle.acas_accept.specs.Reading.{ReadsOn, TakesLeft};

use crate::keeping::KeepsLayers;
use crate::leasts::Leasts;
use crate::refusal::{AcceptFault, refused};
use acas_base::Model;
use acas_bounds::{Plane, check_at, is_sound_at};
use acas_means::{LayerMeans, fill_means_with};
use acas_outside::Folder;
use acas_table::{TableReader, TableRefusal};
use acas_units::{Entry, Pair};
use std::alloc::{AllocError, Global};

/// A table in check: its reader, the values and advices of the layer in work, the means of the layer below it, and the least lower
/// values of a plane by them.
#[derive(Drop)]
pub struct TableCheck {
    reader: TableReader,
    pairs: Vec<Pair>,
    advice: Vec<u8>,
    means: Vec<Pair>,
    leasts: Leasts,
}

impl TableCheck {
    /// The check of a table whose header this reader has read. Besides two layers it takes a byte for each state, and 8 bytes for each
    /// vertex.
    pub fn new(alloc: Global, model: &Model, reader: TableReader) -> Result<TableCheck, AllocError>
        requires shape { (reader_state reader).shape ≡ shape_of model.now.grid }
        requires given { (reader_state reader).given ≡ 0 }
        requires no_fault { (reader_state reader).fault ≡ None }
        requires not_done { (reader_state reader).done ≡ false }
        ensures reader { IfOk result (λ t. t.reader ≡ reader) }
        ensures check { IfOk result (λ t. IsCheckOf model.now t 0 0) }
    {
        let states = model.grid().states() as usize;
        let pairs = vec![in alloc; Pair { upper: 0, lower: 0 }; states]?;
        let advice = vec![in alloc; 0u8; states]?;
        let means = vec![in alloc; Pair { upper: 0, lower: 0 }; states]?;
        let leasts = Leasts::new(alloc, model)?;
        Ok(TableCheck {
            reader,
            pairs,
            advice,
            means,
            leasts,
        })
    }

    // Makes the means of the layer below the one with n seconds to go, if there is one.
    fn begin_layer<M: LayerMeans>(&mut self, model: &Model, layer_means: &M, n: u32)
        requires fits { M.fits layer_means.now model.now }
        requires n { n ≤ model.now.grid.horizon }
        requires check { IsCheckOf model.now self.old n 0 }
        ensures check { IsCheckOf model.now self.new n 0 }
        ensures given { (digest bytes : List ℕ) →
            IsBeforeLayer model.now digest self.old n bytes → IsInLayer model.now digest self.new n 0 bytes }
        ensures reader { self.new.reader ≡ self.old.reader }
    {
        if n > 0 {
            let size = fill_means_with(model, layer_means, &self.pairs, &mut self.means);
            self.leasts.forget(size);
        }
    }

    // Keeps the values and the advice of a state.
    fn keep(&mut self, state: u32, entry: &Entry)
        requires pairs { state < length self.old.pairs.items }
        requires advice { state < length self.old.advice.items }
        ensures reader { self.new.reader ≡ self.old.reader }
        ensures means { self.new.means ≡ self.old.means }
        ensures leasts { self.new.leasts ≡ self.old.leasts }
        ensures pairs { self.new.pairs.items ≡ set self.old.pairs.items state entry.now.pair }
        ensures advice { self.new.advice.items ≡ set self.old.advice.items state entry.now.advice }
    {
        self.pairs[state as usize] = entry.pair;
        self.advice[state as usize] = entry.advice;
    }

    // Finds the least lower values of a plane with n seconds to go, where there is a layer below whose means are near to 0. It gives
    // whether they are found.
    fn find_leasts(&mut self, model: &Model, n: u32, plane: &Plane) -> bool
        requires plane { IsPlane model.now plane.now }
        requires means { length self.old.means.items ≡ states model.now.grid }
        requires leasts { HaveLeasts model.now self.old.means.items self.old.leasts }
        ensures found { IsTrue result
            → AreFound model.now n plane.now.present self.new.means.items self.new.leasts }
        ensures check { (state : ℕ) → IsCheckOf model.now self.old n state
            → IsCheckOf model.now self.new n state }
        ensures given { (digest : List ℕ) (state : ℕ) (bytes : List ℕ) →
            IsInLayer model.now digest self.old n state bytes
            → IsInLayer model.now digest self.new n state bytes }
        ensures reader { self.new.reader ≡ self.old.reader }
    {
        self.leasts.find(model, n, plane, &self.means)
    }

    // Reads and checks the entry with n seconds to go of the state at a vertex where an advisory is present. It is called for the entries
    // that are not quickly taken.
    #[inline(never)]
    fn entry<F: Folder>(
        &mut self,
        model: &Model,
        n: u32,
        present: u8,
        vertex: u32,
        state: u32,
        folder: &mut F,
        name: &str,
    ) -> Result<(), AcceptFault>
        requires served { IsTrue (F.serves folder.old name.now) }
        requires at { IsAt model.now.grid n present vertex state }
        requires check { IsCheckOf model.now self.old n state }
        ensures given { (digest : List ℕ) → Told (F.holds folder.old) name.now (λ bytes.
            IsInLayer model.now digest self.old n state bytes → MatchResult result
            (λ _. IsInLayer model.now digest self.new n (state + 1) bytes)
            (IsAnswer model.now digest bytes)) }
        ensures check { OnOk result (IsCheckOf model.now self.new n (state + 1)) }
        ensures means { self.new.means ≡ self.old.means }
        ensures leasts { self.new.leasts ≡ self.old.leasts }
        ensures reads { ReadsOn F.Folder folder.old folder.new name.now self.old self.new result }
    {
        let entry = match self.reader.entry(folder, name) {
            Ok(entry) => entry,
            Err(fault) => return Err(refused(fault)),
        };
        match check_at(model, n, present, vertex, &entry, &self.means) {
            Ok(()) => {
                self.keep(state, &entry);
                Ok(())
            }
            Err(fault) => Err(AcceptFault::Refused(TableRefusal::Entry {
                layer: n,
                state,
                fault,
            })),
        }
    }

    // Takes and keeps the entry with n seconds to go of the state at a vertex under a plane's present advisory, where the plane's least
    // lower values are found, and the entry is at hand and sound. Otherwise it changes nothing.
    fn quick_entry(
        &mut self,
        model: &Model,
        n: u32,
        plane: &Plane,
        found: bool,
        vertex: u32,
        state: u32,
    ) -> bool
        requires n { n ≤ model.now.grid.horizon }
        requires plane { IsPlane model.now plane.now }
        requires found { IsTrue found
            → AreFound model.now n plane.now.present self.old.means.items self.old.leasts }
        requires vertex { vertex < vertices model.now.grid }
        requires state { state < states model.now.grid }
        requires place { state ≡ state_number model.now.grid plane.now.present vertex }
        requires check { IsCheckOf model.now self.old n state }
        ensures given { IsTrue result → (digest bytes : List ℕ)
            → IsInLayer model.now digest self.old n state bytes
            → IsInLayer model.now digest self.new n (state + 1) bytes }
        ensures check { IsTrue result → IsCheckOf model.now self.new n (state + 1) }
        ensures means { self.new.means ≡ self.old.means }
        ensures leasts { self.new.leasts ≡ self.old.leasts }
        ensures shape { (reader_state self.new.reader).shape ≡ (reader_state self.old.reader).shape }
        ensures format { (reader_state self.new.reader).format ≡ (reader_state self.old.reader).format }
        ensures taken { (reader_state self.new.reader).taken ≡ (reader_state self.old.reader).taken }
        ensures none { result ≡ false → self.new ≡ self.old }
    {
        if !found {
            return false;
        }
        let Some(entry) = self.reader.peek() else {
            return false;
        };
        let leasts = self.leasts.values();
        if !is_sound_at(model, plane, vertex, &entry, &self.means, leasts) {
            return false;
        }
        self.reader.pass();
        self.keep(state, &entry);
        true
    }

    // Reads and checks the entries with n seconds to go of the states under a plane's present advisory.
    fn plane<F: Folder>(
        &mut self,
        model: &Model,
        n: u32,
        plane: &Plane,
        folder: &mut F,
        name: &str,
    ) -> Result<(), AcceptFault>
        requires served { IsTrue (F.serves folder.old name.now) }
        requires n { n ≤ model.now.grid.horizon }
        requires plane { IsPlane model.now plane.now }
        requires check { IsCheckOf model.now self.old n (state_number model.now.grid plane.now.present 0) }
        ensures given { (digest : List ℕ) → Told (F.holds folder.old) name.now (λ bytes.
            IsInLayer model.now digest self.old n (state_number model.now.grid plane.now.present 0) bytes
            → MatchResult result
            (λ _. IsInLayer model.now digest self.new n (state_number model.now.grid (plane.now.present + 1) 0) bytes)
            (IsAnswer model.now digest bytes)) }
        ensures check { OnOk result
            (IsCheckOf model.now self.new n (state_number model.now.grid (plane.now.present + 1) 0)) }
        ensures reads { ReadsOn F.Folder folder.old folder.new name.now self.old self.new result }
    {
        let vertices = model.grid().vertices();
        let found = self.find_leasts(model, n, plane);
        for vertex in 0..vertices {
            let state = u32::from(plane.present) * vertices + vertex;
            if self.quick_entry(model, n, plane, found, vertex, state) {
                continue;
            }
            self.entry(model, n, plane.present, vertex, state, folder, name)?;
        }
        Ok(())
    }

    // Reads and checks the layer with n seconds to go.
    fn layer<M: LayerMeans, F: Folder>(
        &mut self,
        model: &Model,
        layer_means: &M,
        n: u32,
        folder: &mut F,
        name: &str,
    ) -> Result<(), AcceptFault>
        requires fits { M.fits layer_means.now model.now }
        requires served { IsTrue (F.serves folder.old name.now) }
        requires n { n ≤ model.now.grid.horizon }
        requires check { IsCheckOf model.now self.old n 0 }
        ensures given { (digest : List ℕ) → Told (F.holds folder.old) name.now (λ bytes.
            IsBeforeLayer model.now digest self.old n bytes → MatchResult result
            (λ _. IsInLayer model.now digest self.new n (states model.now.grid) bytes)
            (IsAnswer model.now digest bytes)) }
        ensures check { OnOk result (IsCheckOf model.now self.new n (states model.now.grid)) }
        ensures reads { ReadsOn F.Folder folder.old folder.new name.now self.old self.new result }
    {
        self.begin_layer(model, layer_means, n);
        for present in 0..model.grid().advisories as u8 {
            let plane = Plane::new(model, present);
            self.plane(model, n, &plane, folder, name)?;
        }
        Ok(())
    }

    /// Reads and checks all entries, by what forms the model's means, and has what is to be kept of each layer kept.
    pub fn layers<M: LayerMeans, K: KeepsLayers, F: Folder>(
        &mut self,
        model: &Model,
        layer_means: &M,
        kept: &mut K,
        folder: &mut F,
        name: &str,
    ) -> Result<(), AcceptFault>
        requires fits { M.fits layer_means.now model.now }
        requires served { IsTrue (F.serves folder.old name.now) }
        requires check { IsCheckOf model.now self.old 0 0 }
        requires kept { K.was_given kept.old model.now 0 }
        requires of { (bytes : List ℕ) → K.is_of kept.old model.now bytes 0 }
        ensures given { (digest : List ℕ) → Told (F.holds folder.old) name.now (λ bytes.
            HasAccepted model.now digest self.old 0 bytes → MatchResult result
            (λ _. HasAccepted model.now digest self.new (entries model.now.grid) bytes
            × K.is_of kept.new model.now bytes (model.now.grid.horizon + 1))
            (IsAnswer model.now digest bytes)) }
        ensures check { OnOk result (IsCheckOf model.now self.new (model.now.grid.horizon + 1) 0) }
        ensures kept { OnOk result (K.was_given kept.new model.now (model.now.grid.horizon + 1)) }
        ensures reads { ReadsOn F.Folder folder.old folder.new name.now self.old self.new result }
    {
        for n in 0..model.grid().horizon + 1 {
            self.layer(model, layer_means, n, folder, name)?;
            kept.keep(model, n, &self.pairs, &self.advice);
        }
        Ok(())
    }

    /// Reads what follows the entries.
    pub fn finish<F: Folder>(&mut self, folder: &mut F, name: &str) -> Result<(), AcceptFault>
        requires served { IsTrue (F.serves folder.old name.now) }
        requires all { let old = reader_state self.old.reader in old.given ≡ entry_count old.shape }
        requires no_fault { (reader_state self.old.reader).fault ≡ None }
        requires not_done { (reader_state self.old.reader).done ≡ false }
        ensures given { (m : ModelData) (digest : List ℕ) → IsCheckOf m self.old (m.grid.horizon + 1) 0 →
            Told (F.holds folder.old) name.now (λ bytes. HasAccepted m digest self.old (entries m.grid) bytes
            → MatchResult result (λ _. HasNoRefusal m digest bytes) (IsAnswer m digest bytes)) }
        ensures all_taken { let old = reader_state self.old.reader in
            OnOk result (Takes F.Folder folder.old folder.new old.taken (length_of old.format old.shape)) }
        ensures most_taken { let old = reader_state self.old.reader in
            let most = length_of old.format old.shape + 1 in
            F.taken folder.new ≤ raised (F.taken folder.old) (most - old.taken) }
        ensures left { TakesLeft (F.holds folder.old) name.now (reader_state self.old.reader).taken
            (F.taken folder.old) (F.taken folder.new) }
        ensures kind { IfErr result IsAnswerable }
        ensures frame { OnlyReads F.Folder folder.old folder.new
            (IsErrOf result AcceptFault.Failed) (IsErrOf result AcceptFault.Absent) }
    {
        match self.reader.finish(folder, name) {
            Ok(()) => Ok(()),
            Err(fault) => Err(refused(fault)),
        }
    }
}
