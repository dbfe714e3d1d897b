#![tactic(auto)]

// Lines to a run, as a caller hands them on, and what stands in its buffer.
#[cfg(test)]
mod waiting;
