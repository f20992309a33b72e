use tk_model::ListOf;

/// A store, and the count of faults that is kept of a broken one.
#[derive(Drop)]
pub struct Home<S> {
    pub store: S,
    pub broken: Option<u64>,
}

pub type StoreList<S> = ListOf<S>;

/// The stores whose locks were free when the table was dissolved, in order, and how many calls were
/// made.
#[derive(Drop)]
pub struct Dissolved<S> {
    pub stores: StoreList<Home<S>>,
    pub calls: u64,
}
