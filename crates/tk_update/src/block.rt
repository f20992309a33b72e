//! A block of the plain model.
ghost use Rattle.std.specs.Prelude.{◌≡◌, IfOk};

use std::marker::Model;
use tk_block::Body;
use tk_model::{ListOf, NoMemory};

/// A block: where it stands, how many bytes it has, and what it says.
#[derive(Debug, Drop)]
pub struct PlainBlock {
    place: u64,
    extent: u64,
    body: Body,
}

impl Model for PlainBlock {
    ghost use Rattle.tk_block.specs.Layout.{Placed};

    ghost Value = { Placed };

    ghost view = { λ b. record { place = b.place; extent = b.extent; body = b.body } };
}

pub type BlockList = ListOf<PlainBlock>;

fn copy_body(body: &Body) -> Result<Body, NoMemory>
    ensures { IfOk result (λ copy. copy ≡ body.now) }
{
    let key = body.key.clone()?;
    let value = body.value.clone()?;
    Ok(Body {
        kind: body.kind,
        last: body.last,
        key,
        value,
        number: body.number,
    })
}

impl PlainBlock {
    pub fn new(place: u64, extent: u64, body: Body) -> PlainBlock
        ensures { result ≡ record { place = place; extent = extent; body = body } }
    {
        PlainBlock {
            place,
            extent,
            body,
        }
    }

    pub fn place(&self) -> u64
        ensures { result ≡ self.now.place }
    {
        self.place
    }

    pub fn extent(&self) -> u64
        ensures { result ≡ self.now.extent }
    {
        self.extent
    }

    pub fn body(&self) -> &Body
        ensures { result.now ≡ self.now.body }
    {
        &self.body
    }

    /// A copy of the block.
    pub(crate) fn copy(&self) -> Result<PlainBlock, NoMemory>
        ensures { IfOk result (λ copy. copy ≡ self.now) }
    {
        Ok(PlainBlock::new(self.place, self.extent, copy_body(&self.body)?))
    }
}
