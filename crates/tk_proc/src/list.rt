ghost use Rattle.std.specs.Prelude.{◌≡◌, [], ◌∷◌, ◌++◌, ◌<◌, ◌↔◌, length, slice_get, Some, IsTrue, IfOk, OnOk, OnErr};
ghost use Rattle.std.specs.Option.{option_copied};
ghost use Rattle.tk_proc.specs.Members.{all_members, first_acts, first_turns};

use crate::{RecordProcessor, ask};
use std::alloc::Global;
use std::marker::Model;
use tk_model::{Action, NoMemory};

/// Hands each call to the next member, and keeps a record for which there is no member.
#[derive(Debug, Drop)]
pub struct ProcList<P> {
    members: Vec<P>,
    next: usize,
}

impl<P> Model for ProcList<P> {
    ghost use Rattle.std.specs.Prelude.{length, take, drop, ◌≤◌};
    ghost use Rattle.tk_proc.specs.Members.{Members, members_code};

    ghost Value = { Members P };

    ghost coded = { members_code P.code };

    ghost view = { λ l. record {
      asked = take l.next l.members.items;
      waiting = drop l.next l.members.items;
    } };

    ghost invariant = { λ l. l.next ≤ length l.members.items };
}

impl<P> ProcList<P> {
    /// No members, and no memory taken.
    pub fn new(alloc: Global) -> ProcList<P>
        ensures { result ≡ record { asked = []; waiting = [] } }
    {
        ProcList {
            members: Vec::new(alloc),
            next: 0,
        }
    }

    /// How many members there are.
    pub fn len(&self) -> usize
        ensures { result ≡ length (all_members self.now) }
    {
        self.members.len()
    }

    /// There is no member.
    pub fn is_empty(&self) -> bool
        ensures { IsTrue result ↔ (all_members self.now ≡ []) }
    {
        self.members.is_empty()
    }

    /// The member of this place.
    pub fn at(&self, i: usize) -> &P
        requires { i < length (all_members self.now) }
        ensures { slice_get (all_members self.now) i ≡ Some result.now }
    {
        &self.members[i]
    }

    /// All members, given away.
    pub fn into_vec(self) -> Vec<P>
        ensures { result.items ≡ all_members self }
    {
        let ProcList { members, .. } = self;
        members
    }
}

impl<P: Drop> ProcList<P> {
    /// Puts a member at the end.
    pub fn push(&mut self, member: P) -> Result<(), NoMemory>
        ensures ok { OnOk result (self.new
            ≡ record { asked = self.old.asked; waiting = self.old.waiting ++ member ∷ [] }) }
        ensures err { OnErr result (self.new ≡ self.old) }
    {
        self.members.push(member)?;
        Ok(())
    }
}

impl<P: RecordProcessor> ProcList<P> {
    /// Hands a call to the next member.
    fn hand(&mut self, key: &[u8], value: Option<&[u8]>) -> Result<Action, NoMemory>
        ensures action { IfOk result (λ a. a ≡ first_acts P.acts self.old.waiting key.now
            (option_copied value.entry)) }
        ensures turned { OnOk result (self.new ≡ first_turns P.turns self.old.asked
            self.old.waiting key.now (option_copied value.entry)) }
        ensures err { OnErr result (self.new ≡ self.old) }
    {
        if self.next == self.members.len() {
            return Ok(Action::Keep);
        }
        let action = ask(&mut self.members[self.next], key, value)?;
        self.next += 1;
        Ok(action)
    }
}

impl<P: RecordProcessor> RecordProcessor for ProcList<P> {
    ghost acts = { λ l k was. first_acts P.acts l.waiting k was };

    ghost turns = { λ l k was. first_turns P.turns l.asked l.waiting k was };

    fn process_full(&mut self, key: &[u8], value: &[u8]) -> Result<Action, NoMemory> {
        self.hand(key, Some(value))
    }

    fn process_empty(&mut self, key: &[u8]) -> Result<Action, NoMemory> {
        self.hand(key, None)
    }
}
