//! Laws of the definitions. The functions do nothing: their clauses are the laws.
ghost use Rattle.std.specs.Prelude.{◌≡◌, ◌↔◌, ◌<◌, ◌≤◌, ℕ, ℤ, pos, List};
ghost use Rattle.acas_spec.specs.Limits.{IsModel};
ghost use Rattle.acas_spec.specs.Model.{ModelData};
ghost use Rattle.acas_base.specs.Advices.{AdvicesData, AreAdvices, AreAdvicesOf};
ghost use Rattle.acas_replay.specs.Encounter.{EncounterData, IsEncounter, IsEncounterOf, seconds};
ghost use Rattle.acas_flight.specs.Contact.{IsInContact};
ghost use Rattle.acas_replay.specs.Contact.{IsContactAt};
ghost use Rattle.acas_replay.specs.Audited.{IsAudited, IsOfCells, flight_state, own_climb};
ghost use Rattle.acas_replay.specs.Replay.{Course, IsCourse, IsReplay, state_at};
ghost use Rattle.acas_replay.specs.States.{second_from, state_after};
ghost use Rattle.acas_replay.specs.declared.state.EncounterState.{EncounterState};

/// Each encounter has a replay under the advices of a table, and one alone.
pub fn replays_are_one()
    ensures some { (m : ModelData) (a : AdvicesData) (e : EncounterData) → IsModel m → IsEncounter e →
        (count : ℕ) × (text : List ℕ) × IsReplay m a e count text }
    ensures one { (m : ModelData) (a : AdvicesData) (e : EncounterData)
        (count other_count : ℕ) (text other_text : List ℕ) →
        IsReplay m a e count text → IsReplay m a e other_count other_text
        → (count ≡ other_count) × (text ≡ other_text) }
{}

/// What a replay advises is ruled on in the audit of the same table: where the state of a second may be in a cell, and the issued advice
/// is not clear of conflict, the state is in a cell that, under the advice and the state's present advisory, is one of the advisory
/// cells.
pub fn issued_advices_are_audited()
    ensures { (m : ModelData) (a : AdvicesData) (e : EncounterData) (c : Course) (k : ℕ) →
        IsModel m → AreAdvices a → AreAdvicesOf m a → IsEncounterOf m e → IsCourse m a e c → k < seconds e →
        IsOfCells m (state_at e c k) → 0 < c.advice k → IsAudited m a (state_at e c k) (c.advice k) }
{}

/// A second ends where the next begins, whatever is issued: it is in contact at its end exactly where the next is at its start.
pub fn seconds_join()
    ensures { (radius half : ℕ) (s : EncounterState) (advice : ℕ) (own intruder next_own next_intruder : ℤ) →
        IsContactAt radius half (second_from s own intruder) 1 1
        ↔ IsContactAt radius half (second_from (state_after s advice own intruder) next_own next_intruder) 1 0 }
{}

/// The contact of a replay is that of an audit: where the intruder holds its rate, a fraction of a second is in contact exactly where the
/// flight of the own aircraft up to it ends in contact.
pub fn contact_is_that_of_flights()
    ensures { (m : ModelData) (s : EncounterState) (own : ℤ) (q a : ℕ) → 0 < q → a ≤ q →
        IsContactAt m.radius m.half (second_from s own (pos 0)) q a
        ↔ IsInContact m q (flight_state q s) a (own_climb s own q a) }
{}
