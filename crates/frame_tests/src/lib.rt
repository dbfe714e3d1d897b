// Worked lines, each refusal at its edge, written lines, and lines cut out of pieces.
#![tactic(auto)]

#[cfg(test)]
mod edges;
#[cfg(test)]
mod pieces;
#[cfg(test)]
mod written;
