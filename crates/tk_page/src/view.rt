//! Pages as they lie in their text, with no copy of a key or a value.
ghost use Rattle.std.specs.Prelude.{◌≡◌, ◌+◌, ◌-◌, ℕ, IfOk, IfSome, Some, None, Ok, option_map, length, drop};
ghost use Rattle.tk_model.specs.RecordText.{record_at, record_size};
ghost use Rattle.tk_page.specs.Page.{child_at, child_size, items_in, is_first_key_empty, leaf_of, inner_of, page_in, page_text, FitsPage};
ghost use Rattle.tk_page.specs.View.{child_seen, records_seen, children_seen, page_seen};
ghost use Rattle.tk_page.specs.declared.page.Page.{Page as Told};

use std::alloc::Global;
use tk_model::{ListOf, NoMemory, RecordHere, record_here};

/// A child at the front of a text, and the bytes behind it.
#[derive(Clone, Copy, Debug)]
pub struct ChildHere<'a> {
    pub page: u64,
    pub key: &'a [u8],
    pub rest: &'a [u8],
}

pub type RecordHereList<'a> = ListOf<RecordHere<'a>>;

pub type ChildHereList<'a> = ListOf<ChildHere<'a>>;

/// What a page above page 0 holds, where it lies.
#[derive(Debug, Drop)]
pub enum PageHere<'a> {
    Leaf(RecordHereList<'a>),
    Inner(ChildHereList<'a>),
}

/// The child at the front; none where no child's text stands there.
#[tactic(auto, unfolding(crate::specs::Page::child_at))]
fn child_here(bytes: &[u8]) -> Option<ChildHere<'_>>
    ensures value { option_map child_seen result ≡ child_at bytes.now }
    ensures rest { IfSome result (λ r. r.rest.now ≡ drop (child_size (child_seen r)) bytes.now) }
{
    if bytes.len() < 10 {
        return None;
    }
    let page = u64::from_be_bytes([
        bytes[0], bytes[1], bytes[2], bytes[3], bytes[4], bytes[5], bytes[6], bytes[7],
    ]);
    let key = usize::from(u16::from_be_bytes([bytes[8], bytes[9]]));
    if bytes.len() < 10 + key {
        return None;
    }
    Some(ChildHere {
        page,
        key: &bytes[10..10 + key],
        rest: &bytes[10 + key..],
    })
}

fn records_here(
    alloc: Global,
    count: u32,
    bytes: &[u8],
) -> Result<Option<RecordHereList<'_>>, NoMemory>
    ensures { IfOk result (λ o. option_map records_seen o
        ≡ items_in record_at record_size count bytes.now) }
{
    let mut records = ListOf::new(alloc);
    let mut rest = bytes;
    for done in 0..count {
        let _ = done;
        let Some(here) = record_here(rest) else {
            return Ok(None);
        };
        records.push(here)?;
        rest = here.rest;
    }
    if rest.is_empty() {
        Ok(Some(records))
    } else {
        Ok(None)
    }
}

fn children_here(
    alloc: Global,
    count: u32,
    bytes: &[u8],
) -> Result<Option<ChildHereList<'_>>, NoMemory>
    ensures { IfOk result (λ o. option_map children_seen o
        ≡ items_in child_at child_size count bytes.now) }
{
    let mut children = ListOf::new(alloc);
    let mut rest = bytes;
    for done in 0..count {
        let _ = done;
        let Some(here) = child_here(rest) else {
            return Ok(None);
        };
        children.push(here)?;
        rest = here.rest;
    }
    if rest.is_empty() {
        Ok(Some(children))
    } else {
        Ok(None)
    }
}

fn is_first_key_empty(children: &[ChildHere<'_>]) -> bool
    ensures { result ≡ is_first_key_empty (children_seen children.now) }
{
    match children.first() {
        None => true,
        Some(child) => child.key.is_empty(),
    }
}

fn leaf_here(alloc: Global, count: u32, bytes: &[u8]) -> Result<Option<PageHere<'_>>, NoMemory>
    ensures { IfOk result (λ o. option_map page_seen o
        ≡ leaf_of (items_in record_at record_size count bytes.now)) }
{
    match records_here(alloc, count, bytes)? {
        None => Ok(None),
        Some(records) => Ok(Some(PageHere::Leaf(records))),
    }
}

fn inner_here(alloc: Global, count: u32, bytes: &[u8]) -> Result<Option<PageHere<'_>>, NoMemory>
    ensures { IfOk result (λ o. option_map page_seen o
        ≡ inner_of (items_in child_at child_size count bytes.now)) }
{
    match children_here(alloc, count, bytes)? {
        None => Ok(None),
        Some(children) => {
            if is_first_key_empty(children.as_slice()) {
                Ok(Some(PageHere::Inner(children)))
            } else {
                Ok(None)
            }
        }
    }
}

#[tactic(auto, unfolding(crate::specs::Page::page_in))]
fn page_by_kind(alloc: Global, bytes: &[u8]) -> Result<Option<PageHere<'_>>, NoMemory>
    ensures { IfOk result (λ o. option_map page_seen o ≡ page_in bytes.now) }
{
    if bytes.len() < 5 {
        return Ok(None);
    }
    let count = u32::from_be_bytes([bytes[1], bytes[2], bytes[3], bytes[4]]);
    match bytes[0] {
        1 => leaf_here(alloc, count, &bytes[5..]),
        2 => inner_here(alloc, count, &bytes[5..]),
        _ => Ok(None),
    }
}

/// The page that the bytes spell; none where they are the text of no page.
pub fn page_here(alloc: Global, bytes: &[u8]) -> Result<Option<PageHere<'_>>, NoMemory>
    ensures value { IfOk result (λ o. option_map page_seen o ≡ page_in bytes.now) }
    ensures found { IfOk result (λ o. IfSome o (λ page. FitsPage (page_seen page)
        × (bytes.now ≡ page_text (page_seen page)))) }
    ensures again { IfOk result (λ o. (page : Told) → FitsPage page
        → bytes.now ≡ page_text page → option_map page_seen o ≡ Some page) }
{
    page_by_kind(alloc, bytes)
}
