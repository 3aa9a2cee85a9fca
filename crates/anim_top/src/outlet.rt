//! Writing a whole text.

ghost use Rattle.std.specs.Prelude.{ℕ, ◌≤◌, take, OnOk, OnErr};
ghost use Rattle.edge_io.specs.Edges.{HasRisen, Took};

use edge_io::{Failed, Sink};

/// Writes all of a text. Where the sink fails it has taken a front of it.
pub fn write_all<K: Sink>(sink: &mut K, text: &[u8]) -> Result<(), Failed>
    ensures written { OnOk result (Took (K.taken sink.old) (K.taken sink.new) text.now) }
    ensures cut_short { OnErr result ((count : ℕ) × Took (K.taken sink.old) (K.taken sink.new) (take count text.now)) }
    ensures failed { OnErr result (HasRisen (K.faults sink.old) (K.faults sink.new)) }
    ensures never_falls { K.faults sink.old ≤ K.faults sink.new }
{
    let mut count = 0;
    while count < text.len() {
        count += sink.write(&text[count..])?;
    }
    Ok(())
}
