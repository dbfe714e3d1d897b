#![tactic(auto)]

// Tables of calls, played on the alarm devices.
#[cfg(test)]
mod play;
#[cfg(test)]
mod tables;
#[cfg(test)]
mod tests;
