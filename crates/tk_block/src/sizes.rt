/// The bytes of the static header.
pub const STATIC_SIZE: usize = 32;
/// Where its closing part begins.
pub const CLOSING_PLACE: u64 = 32;
/// The bytes of the closing part.
pub const CLOSING_SIZE: usize = 32;
/// Where the kind stands in a header.
pub const KIND_PLACE: u64 = 8;
/// Where the next number stands in a header.
pub const NEXT_PLACE: u64 = 48;
/// Where the heads of buckets begin.
pub const HEADS_PLACE: u64 = 64;
/// The bytes of a bucket's head, or of a block's link.
pub const CELL_SIZE: u64 = 8;
/// The bytes of a block's head.
pub const HEAD_SIZE: usize = 16;
/// Where the extent stands in a block.
pub const EXTENT_OFFSET: usize = 4;
/// Where the link begins in a block.
pub const LINK_OFFSET: usize = 16;
/// Where the body begins in a block.
pub const BODY_OFFSET: usize = 24;
/// Where the length of the key stands in a block.
pub const KEY_LEN_OFFSET: usize = 26;
/// Where the length of the value stands in a block.
pub const VALUE_LEN_OFFSET: usize = 28;
/// Where the number stands in a block.
pub const NUMBER_OFFSET: usize = 32;
/// Where the key begins in a block.
pub const KEY_OFFSET: usize = 40;
/// The bytes of a body in front of its key.
pub const NUMBERS_SIZE: usize = 16;
/// The bytes of the check of a body.
pub const CHECK_SIZE: usize = 4;
/// The bytes of a block beside key, value and padding.
pub const BLOCK_OVERHEAD: usize = 44;
/// Each extent is a multiple of this.
pub const EXTENT_UNIT: u64 = 8;

pub const LEAST_EXTENT: u64 = 48;
