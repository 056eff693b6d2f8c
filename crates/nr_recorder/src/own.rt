//! The recorder's own promise file.

ghost use Rattle.std.specs.Prelude.{◌≡◌, IfOk};
ghost use Rattle.nr_discipline.specs.Views.{numbers_of};
ghost use Rattle.nr_recorder.specs.Views.{numbers_in};

use nr_bytes::Memory;
use nr_chain::Digest;
use nr_discipline::FileNumbers;
use nr_rule_types::Typed;
use std::alloc::Global;

/// A well typed promise file: what it says, and its digest.
#[derive(Drop)]
pub struct Own {
    pub typed: Typed,
    pub file: Digest,
}

impl Own {
    /// An equal value.
    pub fn copy(&self, alloc: Global) -> Result<Own, Memory>
        ensures { IfOk result (λ copy. copy ≡ self.now) }
    {
        Ok(Own {
            typed: self.typed.copy(alloc)?,
            file: self.file,
        })
    }

    /// Its digest, how many neighbours it declares, and its commit delay in seconds.
    pub fn numbers(&self) -> FileNumbers
        ensures { numbers_of result ≡ numbers_in self.now }
    {
        FileNumbers {
            digest: self.file,
            count: self.typed.neighbours().len() as u16,
            delay: self.typed.commit(),
        }
    }
}
