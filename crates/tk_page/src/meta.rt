ghost use Rattle.std.specs.Prelude.{◌≡◌, IfSome, Some};
ghost use Rattle.tk_page.specs.Meta.{meta_text, meta_in, FitsMeta};
ghost use Rattle.tk_page.specs.declared.meta.Meta.{Meta as Told};

/// What page 0 tells of a tree.
#[derive(Clone, Copy, Debug, PartialEq, Eq)]
pub struct Meta {
    pub root: u64,
    /// How many levels of pages there are; leaves have height 1.
    pub height: u8,
    /// The number of the page that is made next.
    pub next: u64,
    /// How many records there are.
    pub count: u64,
}

#[tactic(auto, unfolding(crate::specs::Meta::meta_text))]
pub fn write_meta(meta: &Meta) -> [u8; 25]
    ensures { result ≡ meta_text meta.now }
{
    let r = meta.root.to_be_bytes();
    let n = meta.next.to_be_bytes();
    let c = meta.count.to_be_bytes();
    [
        r[0],
        r[1],
        r[2],
        r[3],
        r[4],
        r[5],
        r[6],
        r[7],
        meta.height,
        n[0],
        n[1],
        n[2],
        n[3],
        n[4],
        n[5],
        n[6],
        n[7],
        c[0],
        c[1],
        c[2],
        c[3],
        c[4],
        c[5],
        c[6],
        c[7],
    ]
}

#[tactic(auto, unfolding(crate::specs::Meta::meta_in))]
fn meta_here(bytes: &[u8]) -> Option<Meta>
    ensures { result ≡ meta_in bytes.now }
{
    if bytes.len() != 25 {
        return None;
    }
    let meta = Meta {
        root: u64::from_be_bytes([
            bytes[0], bytes[1], bytes[2], bytes[3], bytes[4], bytes[5], bytes[6], bytes[7],
        ]),
        height: bytes[8],
        next: u64::from_be_bytes([
            bytes[9], bytes[10], bytes[11], bytes[12], bytes[13], bytes[14], bytes[15], bytes[16],
        ]),
        count: u64::from_be_bytes([
            bytes[17], bytes[18], bytes[19], bytes[20], bytes[21], bytes[22], bytes[23], bytes[24],
        ]),
    };
    let text = write_meta(&meta);
    if bytes == text.as_slice() {
        Some(meta)
    } else {
        None
    }
}

/// What the bytes spell; none where they are the text of no page 0.
pub fn read_meta(bytes: &[u8]) -> Option<Meta>
    ensures value { result ≡ meta_in bytes.now }
    ensures found { IfSome result (λ m. bytes.now ≡ meta_text m) }
    ensures again { (m : Told) → FitsMeta m → bytes.now ≡ meta_text m → result ≡ Some m }
{
    meta_here(bytes)
}
