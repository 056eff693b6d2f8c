//! The prefixes that are looked at when a period begins, and when another file comes into force.

ghost use Rattle.std.specs.Prelude.{◌≡◌, IfOk};
ghost use Rattle.nr_judging.specs.Asked.{in_sight};
ghost use Rattle.nr_judging.specs.Views.{files_in};

use crate::file::File;
use crate::gathered::Gathered;
use nr_bytes::Memory;
use nr_prefix::Prefix;
use nr_tables::State;
use std::alloc::Global;

/// These prefixes, those that stand, and those that promises name by `at`, in order and each once.
pub fn in_sight(
    alloc: Global,
    files: &[File<'_>],
    state: &State,
    touched: &[Prefix],
) -> Result<Vec<Prefix>, Memory>
    ensures { IfOk result (λ list. list.items ≡ in_sight (files_in files.now) state.now touched.now) }
{
    let mut gathered = Gathered::new(alloc);
    gathered.add_all(touched)?;
    gathered.add_standing(state.prefixes())?;
    gathered.add_files(files)?;
    let list = gathered.list()?;
    Ok(list)
}
