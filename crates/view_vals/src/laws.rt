//! Laws of views and queries as values. Each function does nothing: its contract is the law.
ghost use Rattle.view_vals.specs.Laws as laws;

/// Each value is that of one view at most.
pub fn one_view_each()
    ensures { laws.OneViewEach }
{}

/// Queries of one value are met by the same records.
pub fn queries_of_one_value_ask_the_same()
    ensures { laws.OneMeaningEach }
{}
