ghost use Rattle.std.specs.Prelude.{◌≡◌, [], ◌∷◌, ◌++◌, ◌+◌, ◌≤◌, ◌<◌, length, IfOk, OnOk, OnErr};

use crate::{Bytes, ListOf, NoMemory};
use std::alloc::Global;
use std::marker::Model;

/// A list that knows its room: pushes into it take no memory.
#[derive(Debug, Drop)]
pub struct ReservedList<T> {
    items: Vec<T>,
}

impl<T> Model for ReservedList<T> {
    ghost use Rattle.std.specs.Prelude.{◌-◌};
    ghost use Rattle.std.specs.Vec.{vec_len, vec_capacity};
    ghost use Rattle.tk_model.specs.Room.{ListWithRoom, room_code};

    ghost Value = { ListWithRoom T };

    ghost coded = { room_code T.code };

    ghost view = { λ l. record {
      items = l.items.items;
      room = vec_capacity l.items - vec_len
          l.items;
    } };
}

pub type ReservedBytes = ReservedList<u8>;

impl<T> ReservedList<T> {
    /// No items and no room, and no memory taken.
    pub fn new(alloc: Global) -> ReservedList<T>
        ensures items { result.items ≡ [] }
        ensures room { result.room ≡ 0 }
    {
        ReservedList {
            items: Vec::new(alloc),
        }
    }

    /// The items of a list, with the room that it happens to have.
    pub fn from_list(list: ListOf<T>) -> ReservedList<T>
        ensures { result.items ≡ list }
    {
        ReservedList {
            items: list.into_vec(),
        }
    }

    pub fn into_list(self) -> ListOf<T>
        ensures { result ≡ self.items }
    {
        let ReservedList { items } = self;
        ListOf::from_vec(items)
    }

    pub fn len(&self) -> usize
        ensures { result ≡ length self.now.items }
    {
        self.items.len()
    }

    /// How many more items it takes without memory.
    pub fn room(&self) -> usize
        ensures { result ≡ self.now.room }
    {
        self.items.capacity() - self.items.len()
    }

    pub fn as_slice(&self) -> &[T]
        ensures { result.now ≡ self.now.items }
    {
        self.items.as_slice()
    }

    /// Makes room for so many items more.
    pub fn reserve(&mut self, more: usize) -> Result<(), NoMemory>
        ensures items { self.new.items ≡ self.old.items }
        ensures room { OnOk result (more ≤ self.new.room) }
        ensures kept { self.old.room ≤ self.new.room }
        ensures err { OnErr result (self.new ≡ self.old) }
    {
        self.items.reserve(more)?;
        Ok(())
    }

    /// Puts an item into the room.
    pub fn push_reserved(&mut self, item: T)
        requires { 0 < self.old.room }
        ensures items { self.new.items ≡ self.old.items ++ item ∷ [] }
        ensures room { self.new.room + 1 ≡ self.old.room }
    {
        self.items.push_reserved(item);
    }
}

impl<T: Drop> ReservedList<T> {
    /// Takes all items away, and keeps the memory as room.
    pub fn clear(&mut self)
        ensures items { self.new.items ≡ [] }
        ensures room { self.new.room ≡ self.old.room + length self.old.items }
    {
        self.items.clear();
    }
}

impl ReservedList<u8> {
    pub fn from_bytes(bytes: Bytes) -> ReservedBytes
        ensures { result.items ≡ bytes }
    {
        ReservedList {
            items: bytes.into_vec(),
        }
    }

    pub fn into_bytes(self) -> Bytes
        ensures { result ≡ self.items }
    {
        let ReservedList { items } = self;
        Bytes::from_vec(items)
    }

    /// Puts bytes into the room.
    pub fn extend_reserved(&mut self, bytes: &[u8])
        requires { length bytes.now ≤ self.old.room }
        ensures items { self.new.items ≡ self.old.items ++ bytes.now }
        ensures room { self.new.room + length bytes.now ≡ self.old.room }
    {
        for byte in bytes {
            self.push_reserved(*byte);
        }
    }
}
