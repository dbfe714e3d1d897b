#![tactic(auto)]

// A fixed sequence of inserts and removes on the two heaps, compared with sorting.
#[cfg(test)]
mod lent;
#[cfg(test)]
mod reference;
#[cfg(test)]
mod tests;
#[cfg(test)]
mod trial;
