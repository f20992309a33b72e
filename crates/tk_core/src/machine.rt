//! The core as a program.
ghost use Rattle.std.specs.Prelude.{◌≡◌, ◌≤◌, IfOk};
ghost use Rattle.tk_core.specs.Program.{first_state};

use crate::Frame;
use std::alloc::Global;
use std::marker::Model;
use tk_model::{Entry, NoMemory, Order};

/// A caller, whose histories are kept as lengths.
#[derive(Drop)]
pub(crate) struct Row {
    pub(crate) live: bool,
    pub(crate) allowance: u64,
    pub(crate) held: Vec<u32>,
    pub(crate) want: Option<u32>,
    pub(crate) out: Vec<u32>,
    pub(crate) seen: usize,
    pub(crate) base: usize,
    pub(crate) mine: Vec<usize>,
    pub(crate) breaking: Vec<u32>,
    pub(crate) broke: Vec<u32>,
    pub(crate) met: Vec<u32>,
}

/// The state machine of callers, locks, stores and one history.
#[derive(Drop)]
pub struct Core {
    pub(crate) frame: Frame,
    pub(crate) log: Vec<Entry>,
    pub(crate) owners: Vec<u64>,
    pub(crate) spoilt: Vec<bool>,
    pub(crate) away: Vec<bool>,
    pub(crate) rows: Vec<Row>,
}

impl Model for Core {
    ghost use Rattle.std.specs.Prelude.{map};
    ghost use Rattle.tk_core.specs.Program.{CoreState, caller_of, IsCore};

    ghost Value = { CoreState };

    ghost view = { λ c. record {
      frame = c.frame;
      log = c.log.items;
      owners = c.owners.items;
      spoilt = c.spoilt.items;
      away = c.away.items;
      callers = map (caller_of c.log.items)
          c.rows.items;
    } };

    ghost invariant = { λ c. IsCore
        (record {
          frame = c.frame;
          log = c.log.items;
          owners = c.owners.items;
          spoilt = c.spoilt.items;
          away = c.away.items;
          callers = map (caller_of c.log.items)
              c.rows.items;
        }) };
}

impl Core {
    /// Caller 0 has the whole allowance, and no call was made.
    pub fn new(alloc: Global, stores: u32, stripes: u32, order: Order) -> Result<Core, NoMemory>
        requires some_store { 1 ≤ stores }
        requires few_stores { stores ≤ 64 }
        requires some_stripes { 16 ≤ stripes }
        requires few_stripes { stripes ≤ 1024 }
        ensures { IfOk result
            (λ c. c ≡ first_state (record {
              stripes = stripes;
              stores = stores;
              order = order;
              base = 0;
            })) }
    {
        let mut owners = Vec::new(alloc);
        owners.resize((stripes + stores) as usize, 0)?;
        let mut spoilt = Vec::new(alloc);
        spoilt.resize(stores as usize, false)?;
        let mut away = Vec::new(alloc);
        away.resize(stores as usize, false)?;
        let first = Row {
            live: true,
            allowance: 1 << 62,
            held: Vec::new(alloc),
            want: None,
            out: Vec::new(alloc),
            seen: 0,
            base: 0,
            mine: Vec::new(alloc),
            breaking: Vec::new(alloc),
            broke: Vec::new(alloc),
            met: Vec::new(alloc),
        };
        let mut rows = Vec::with_capacity(alloc, 1)?;
        rows.push(first)?;
        Ok(Core {
            frame: Frame {
                stripes,
                stores,
                order,
                base: 0,
            },
            log: Vec::new(alloc),
            owners,
            spoilt,
            away,
            rows,
        })
    }
}
