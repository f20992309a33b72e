ghost use Rattle.std.specs.Prelude.{◌≡◌, ◌++◌, ◌<◌, ◌^◌, OnOk, OnErr, length, All};
ghost use Rattle.tk_model.specs.RecordText.{Extends, FitsRecord, record_text};
ghost use Rattle.tk_page.specs.Page.{page_text, leaf_text, inner_text, front_text, child_text, link_text, FitsPage, FitsChild};

use crate::{Child, ChildList, Page};
use tk_model::{Bytes, NoMemory, PairList, write_record};

#[tactic(auto, unfolding(crate::specs::Page::front_text))]
fn front_text(kind: u8, count: usize) -> [u8; 5]
    requires { count < 2 ^ 32 }
    ensures { result ≡ front_text kind count }
{
    let n = (count as u32).to_be_bytes();
    [kind, n[0], n[1], n[2], n[3]]
}

#[tactic(auto, unfolding(crate::specs::Page::link_text))]
fn link_text(child: &Child) -> [u8; 10]
    requires { FitsChild child.now }
    ensures { result ≡ link_text child.now }
{
    let p = child.page.to_be_bytes();
    let k = (child.key.len() as u16).to_be_bytes();
    [p[0], p[1], p[2], p[3], p[4], p[5], p[6], p[7], k[0], k[1]]
}

#[tactic(auto, using(crate::proofs::Extending::Extends_same, crate::proofs::Extending::Extends_by), unfolding(crate::specs::Page::child_text))]
fn write_child(child: &Child, out: &mut Bytes) -> Result<(), NoMemory>
    requires { FitsChild child.now }
    ensures ok { OnOk result (out.new ≡ out.old ++ child_text child.now) }
    ensures err { OnErr result (Extends out.old out.new) }
{
    out.extend(&link_text(child))?;
    out.extend(child.key.as_slice())
}

#[tactic(auto, using(crate::proofs::Extending::Extends_then, crate::proofs::Extending::Extends_by), unfolding(crate::specs::Page::leaf_text))]
fn write_leaf(pairs: &PairList, out: &mut Bytes) -> Result<(), NoMemory>
    requires count { length pairs.now < 2 ^ 32 }
    requires fit { All FitsRecord pairs.now }
    ensures ok { OnOk result (out.new ≡ out.old ++ leaf_text pairs.now) }
    ensures err { OnErr result (Extends out.old out.new) }
{
    out.extend(&front_text(1, pairs.len()))?;
    for pair in pairs.as_slice() {
        write_record(pair.key.as_slice(), pair.value.as_slice(), out)?;
    }
    Ok(())
}

#[tactic(auto, using(crate::proofs::Extending::Extends_then, crate::proofs::Extending::Extends_by), unfolding(crate::specs::Page::inner_text))]
fn write_inner(children: &ChildList, out: &mut Bytes) -> Result<(), NoMemory>
    requires count { length children.now < 2 ^ 32 }
    requires fit { All FitsChild children.now }
    ensures ok { OnOk result (out.new ≡ out.old ++ inner_text children.now) }
    ensures err { OnErr result (Extends out.old out.new) }
{
    out.extend(&front_text(2, children.len()))?;
    for child in children.as_slice() {
        write_child(child, out)?;
    }
    Ok(())
}

/// Puts the text of a page at the end.
pub fn write_page(page: &Page, out: &mut Bytes) -> Result<(), NoMemory>
    requires { FitsPage page.now }
    ensures ok { OnOk result (out.new ≡ out.old ++ page_text page.now) }
    ensures err { OnErr result (Extends out.old out.new) }
{
    match page {
        Page::Leaf(pairs) => write_leaf(pairs, out),
        Page::Inner(children) => write_inner(children, out),
    }
}
