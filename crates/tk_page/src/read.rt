ghost use Rattle.std.specs.Prelude.{◌≡◌, IfOk, IfSome, Some, Ok, option_map};
ghost use Rattle.tk_page.specs.Page.{page_in, page_text, FitsPage};
ghost use Rattle.tk_page.specs.View.{child_seen, records_seen, children_seen, page_seen};
ghost use Rattle.tk_page.specs.declared.page.Page.{Page as Told};

use crate::{Child, ChildHere, ChildList, Page, PageHere, page_here};
use std::alloc::Global;
use tk_model::{Bytes, NoMemory, Pair, PairList, RecordHere};

fn copy_records(alloc: Global, records: &[RecordHere<'_>]) -> Result<PairList, NoMemory>
    ensures { IfOk result (λ pairs. pairs ≡ records_seen records.now) }
{
    let mut pairs = PairList::with_capacity(alloc, records.len())?;
    for here in records {
        let key = Bytes::from_slice(alloc, here.key)?;
        let value = Bytes::from_slice(alloc, here.value)?;
        pairs.push(Pair { key, value })?;
    }
    Ok(pairs)
}

fn copy_children(alloc: Global, children: &[ChildHere<'_>]) -> Result<ChildList, NoMemory>
    ensures { IfOk result (λ copies. copies ≡ children_seen children.now) }
{
    let mut copies = ChildList::with_capacity(alloc, children.len())?;
    for here in children {
        let key = Bytes::from_slice(alloc, here.key)?;
        copies.push(Child {
            page: here.page,
            key,
        })?;
    }
    Ok(copies)
}

fn copy_page(alloc: Global, page: &PageHere<'_>) -> Result<Page, NoMemory>
    ensures { IfOk result (λ copy. copy ≡ page_seen page.now) }
{
    match page {
        PageHere::Leaf(records) => Ok(Page::Leaf(copy_records(alloc, records.as_slice())?)),
        PageHere::Inner(children) => Ok(Page::Inner(copy_children(alloc, children.as_slice())?)),
    }
}

fn copied_page(alloc: Global, bytes: &[u8]) -> Result<Option<Page>, NoMemory>
    ensures { IfOk result (λ o. o ≡ page_in bytes.now) }
{
    match page_here(alloc, bytes)? {
        None => Ok(None),
        Some(page) => Ok(Some(copy_page(alloc, &page)?)),
    }
}

/// A copy of the page that the bytes spell; none where they are the text of no page.
pub fn read_page(alloc: Global, bytes: &[u8]) -> Result<Option<Page>, NoMemory>
    ensures value { IfOk result (λ o. o ≡ page_in bytes.now) }
    ensures found { IfOk result (λ o. IfSome o (λ page. FitsPage page
        × (bytes.now ≡ page_text page))) }
    ensures again { IfOk result (λ o. (page : Told) → FitsPage page
        → bytes.now ≡ page_text page → o ≡ Some page) }
{
    copied_page(alloc, bytes)
}
