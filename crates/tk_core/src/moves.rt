use tk_model::{Entry, ListOf};

/// One step of one caller.
#[derive(Clone, Debug, Drop)]
pub enum Move {
    /// A free lock is taken; it is greater than each that the caller holds.
    Take {
        caller: u32,
        lock: u32,
    },
    /// A lock that is held is tried, and waited for from then on.
    Miss {
        caller: u32,
        lock: u32,
    },
    /// A call is made, and gets the next number of the history.
    Commit {
        caller: u32,
        entry: Entry,
    },
    /// A lock is given back; its store is at home.
    Give {
        caller: u32,
        lock: u32,
    },
    /// The caller sees the whole history.
    Look {
        caller: u32,
    },
    /// A store is taken out under its lock.
    Out {
        caller: u32,
        store: u32,
    },
    /// A store is put back, whole or as broken.
    Back {
        caller: u32,
        store: u32,
        broken: bool,
    },
    /// Half of the allowance goes to a new caller.
    Split {
        caller: u32,
    },
    /// The other caller's allowance and calls come to this one.
    Join {
        caller: u32,
        other: u32,
    },
}

pub type MoveList = ListOf<Move>;
