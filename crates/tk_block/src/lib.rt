//! The text of headers and blocks.
#![tactic(auto)]

mod block;
mod closing;
mod group;
mod head;
mod law;
mod number;
mod sizes;

pub use block::{Block, Body, body_at, extent_of, read_body, write_block};
pub use closing::{Closing, read_closing, write_closing};
pub use group::{LinkList, renumber, write_unnumbered};
pub use head::{StaticHead, base_of, read_head, read_static, write_head, write_static};
pub use law::laid_blocks_are_read;
pub use number::{u16_at, u32_at, u64_at};
pub use sizes::{
    BLOCK_OVERHEAD, BODY_OFFSET, CELL_SIZE, CHECK_SIZE, CLOSING_PLACE, CLOSING_SIZE, EXTENT_OFFSET,
    EXTENT_UNIT, HEAD_SIZE, HEADS_PLACE, KEY_LEN_OFFSET, KEY_OFFSET, KIND_PLACE, LEAST_EXTENT,
    LINK_OFFSET, NEXT_PLACE, NUMBER_OFFSET, NUMBERS_SIZE, STATIC_SIZE, VALUE_LEN_OFFSET,
};

#[cfg(test)]
mod tests;
