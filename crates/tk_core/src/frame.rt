use tk_model::Order;

/// How many stripes and stores there are, the order of the keys, and the base of the groups' numbers.
#[derive(Clone, Copy, Debug, PartialEq, Eq)]
pub struct Frame {
    pub stripes: u32,
    pub stores: u32,
    pub order: Order,
    pub base: u64,
}
