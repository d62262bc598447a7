//! The start of an encounter.
ghost use Rattle.std.specs.Prelude.{pos};
ghost use Rattle.acas_replay.specs.Text.{IsStartText};
ghost use Rattle.acas_replay.specs.declared.start.Start.{Start};
ghost use Rattle.acas_examples.specs.Parts.{minus};
ghost use Rattle.acas_text_examples.specs.Documents.{said, start_keys};

/// A start has its advisory by name and its altitude in feet. Each number is that of its key.
pub fn a_start_is_said()
    ensures said { IsStartText said (record {
      advisory = 1;
      range = pos 500;
      closing = pos 400;
      altitude = pos 12_120;
      own = pos 240;
      intruder = minus 60;
    }) start_keys }
    ensures other_advisory { (s : Start) → IsStartText said (record s { advisory = 0 }) start_keys → ⊥ }
    ensures other_range { (s : Start) → IsStartText said (record s { range = pos 501 }) start_keys → ⊥ }
    ensures other_closing { (s : Start) → IsStartText said (record s { closing = pos 500 }) start_keys → ⊥ }
    ensures feet { (s : Start) → IsStartText said (record s { altitude = pos 101 }) start_keys → ⊥ }
    ensures other_own { (s : Start) → IsStartText said (record s { own = minus 60 }) start_keys → ⊥ }
    ensures other_intruder { (s : Start) → IsStartText said (record s { intruder = pos 240 }) start_keys → ⊥ }
{}
