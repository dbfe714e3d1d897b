// A one-shot timer. It may fire at any time of its window, from `soft` to `hard`, both ends included.
#[derive(Clone, Copy)]
pub struct Timer<T> {
    pub number: u32,
    pub soft: T,
    pub hard: T,
}
