//! The automaton that the transducer of peaks becomes, as a text. Values of decorated transducers are in
//! `examples/rows`.

use crate::automaton_texts::written;
use crate::told::machines::text_of;
use std::alloc::Global;
use ts_automaton::Direction;
use ts_base::Memory;
use ts_decorate::decorate;
use ts_pattern::{Aggregator, Feature, PatternId};
use ts_seed::transducer_by_id;

/// Whether the automaton that adds up the widths of peaks is written as its text.
fn has_text(alloc: Global) -> Result<bool, Memory> {
    let peaks = transducer_by_id(PatternId::Peak);
    let widths = decorate(alloc, &peaks, 1, Aggregator::Sum, Feature::Width)?;
    let text = written(alloc, Direction::Forward, &widths)?;
    Ok(text.as_slice() == text_of("sum_width_peak").as_bytes())
}

#[test]
fn text_of_a_decorated_transducer(rt: HostRuntime) {
    assert!(rt; has_text(rt.alloc()) == Ok(true));
}
