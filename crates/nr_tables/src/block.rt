//! Blocks of attributes as they are kept.

ghost use Rattle.std.specs.Prelude.{◌≡◌, ◌<◌, ◌^◌, length, IfOk};
ghost use Rattle.nr_tables.specs.Stored.{IsStored};
ghost use Rattle.nr_tables.specs.Shared.{kept};

use nr_attrs::Attrs;
use nr_bytes::Memory;
use std::alloc::Global;

/// A block of attributes, which is read again where they are asked, and whether its AS numbers have four octets.
#[derive(PartialEq, Eq, Hash, Drop)]
pub struct Block {
    as4: bool,
    bytes: Vec<u8>,
}

impl Block {
    /// A copy of attributes.
    pub fn copy_of(alloc: Global, attrs: &Attrs<'_>) -> Result<Block, Memory>
        requires { length attrs.now.block < 2 ^ 16 }
        ensures same { IfOk result (λ b. kept b ≡ attrs.now) }
        ensures stored { IfOk result (λ b. IsStored b.as4 b.bytes.items) }
    {
        let bytes = attrs.block().to_vec(alloc)?;
        Ok(Block {
            as4: attrs.as4(),
            bytes,
        })
    }

    /// The attributes.
    pub fn attrs<'a>(&'a self) -> Attrs<'a>
        requires { IsStored self.now.as4 self.now.bytes.items }
        ensures same { result ≡ kept self.now }
        ensures short { length result.block < 2 ^ 16 }
    {
        match Attrs::read(&self.bytes, self.as4) {
            Ok(attrs) => attrs,
            Err(_) => unreachable!(),
        }
    }
}
