use tk_model::{Bytes, ListOf, PairList};

/// A child of an inner page.
#[derive(Clone, Debug, Drop)]
pub struct Child {
    pub page: u64,
    /// The least key that the child may hold.
    pub key: Bytes,
}

pub type ChildList = ListOf<Child>;

/// What a page above page 0 holds.
#[derive(Clone, Debug, Drop)]
pub enum Page {
    Leaf(PairList),
    Inner(ChildList),
}
