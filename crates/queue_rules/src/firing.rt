// A log entry: a timer that fired, and the wake-up at which it did.
#[derive(Clone, Copy)]
pub struct Firing<T> {
    pub number: u32,
    // set on one entry of each wake-up: the lowest number whose hard time is the wake time
    pub mark: bool,
    pub wake: T,
    pub soft: T,
    pub hard: T,
}
