//! Rows: a model, the advices of a table, an encounter, and how it is replayed.
use crate::parts::{Encountered, advices_of, encounter_of, model_with};
use acas_memory_sink::MemorySink;
use acas_outside::PrintFault;
use acas_replay::replay;
use std::alloc::Global;

/// A sink that takes so many bytes a write, and fails at the writes of these numbers.
pub fn sink_with(alloc: Global, failing: &[u64], most: u32) -> Option<MemorySink> {
    if most == 0 {
        return None;
    }
    MemorySink::new(alloc, failing.to_vec(alloc).ok()?, most).ok()
}

/// Replays an encounter under the advices of a table of a model, and answers how many seconds are in contact, or why the replay was not
/// written.
pub fn replayed(
    alloc: Global,
    model: &str,
    advices: &str,
    encountered: &Encountered,
    sink: &mut MemorySink,
) -> Option<Result<u32, PrintFault>> {
    let model = model_with(alloc, model)?;
    let advices = advices_of(alloc, &model, advices)?;
    let encounter = encounter_of(alloc, &model, encountered)?;
    Some(replay(alloc, &model, &advices, &encounter, sink))
}

/// Replays a row, whose parts are split by ` : `: the model, the advices, the start and both lists of the encounter.
pub fn row_replayed(
    alloc: Global,
    row: &str,
    sink: &mut MemorySink,
) -> Option<Result<u32, PrintFault>> {
    let mut parts = row.split(" : ");
    let model = parts.next()?;
    let advices = parts.next()?;
    let encountered = Encountered {
        start: parts.next()?,
        own: parts.next()?,
        intruder: parts.next()?,
    };
    replayed(alloc, model, advices, &encountered, sink)
}
