//! One record or one child of a page, by binary search.
ghost use Rattle.std.specs.Prelude.{◌≡◌, ◌↔◌, true, [], ◌∷◌, ◌++◌, IfSome, IfNone};
ghost use Rattle.std.specs.Option.{option_copied};
ghost use Rattle.tk_model.specs.Records.{find, Rising};
ghost use Rattle.tk_page.specs.Search.{child_for, child_behind, RestRises, ChildrenRise};
ghost use Rattle.tk_page.specs.View.{records_seen, children_seen};

use crate::ChildHere;
use std::cmp::Ordering;
use tk_model::{Order, RecordHere};
use tk_order::compare;

/// The keys of records rise.
pub fn records_rise(order: &Order, records: &[RecordHere<'_>]) -> bool
    ensures { result ≡ true ↔ Rising order.now (records_seen records.now) }
{
    let mut rest = records;
    while let [first, second, ..] = rest {
        if !compare(order, first.key, second.key).is_lt() {
            return false;
        }
        rest = &rest[1..];
    }
    true
}

/// The keys of the children behind the first rise.
pub fn children_rise(order: &Order, children: &[ChildHere<'_>]) -> bool
    ensures { result ≡ true ↔ RestRises order.now (children_seen children.now) }
{
    let Some((_, behind)) = children.split_first() else {
        return true;
    };
    let mut rest = behind;
    while let [first, second, ..] = rest {
        if !compare(order, first.key, second.key).is_lt() {
            return false;
        }
        rest = &rest[1..];
    }
    true
}

/// The item in the middle, with those before it and behind it.
fn around_middle<T>(items: &[T]) -> Option<(&[T], &T, &[T])>
    ensures found { IfSome result (λ r. items.now ≡ r.0.now ++ r.1.now ∷ r.2.now) }
    ensures none { IfNone result (items.now ≡ []) }
{
    let (front, back) = items.split_at(items.len() / 2);
    let (middle, behind) = back.split_first()?;
    Some((front, middle, behind))
}

/// The value at a key, in records whose keys rise.
pub fn find_value<'a>(order: &Order, records: &[RecordHere<'a>], key: &[u8]) -> Option<&'a [u8]>
    requires { Rising order.now (records_seen records.now) }
    ensures { option_copied result ≡ find key.now (records_seen records.now) }
{
    let Some((front, middle, behind)) = around_middle(records) else {
        return None;
    };
    match compare(order, key, middle.key) {
        Ordering::Less => find_value(order, front, key),
        Ordering::Equal => Some(middle.value),
        Ordering::Greater => find_value(order, behind, key),
    }
}

/// The number of the last child whose key is at or before this one, else the first number.
fn find_behind(order: &Order, first: u64, children: &[ChildHere<'_>], key: &[u8]) -> u64
    requires { ChildrenRise order.now (children_seen children.now) }
    ensures { result ≡ child_behind order.now key.now first (children_seen children.now) }
{
    let Some((front, middle, behind)) = around_middle(children) else {
        return first;
    };
    if compare(order, middle.key, key).is_gt() {
        find_behind(order, first, front, key)
    } else {
        find_behind(order, middle.page, behind, key)
    }
}

/// The number of the child for a key, in children whose keys rise behind the first.
pub fn find_child(order: &Order, children: &[ChildHere<'_>], key: &[u8]) -> Option<u64>
    requires { RestRises order.now (children_seen children.now) }
    ensures { result ≡ child_for order.now key.now (children_seen children.now) }
{
    let (first, rest) = children.split_first()?;
    Some(find_behind(order, first.page, rest, key))
}
