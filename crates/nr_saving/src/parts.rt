//! Files in pieces.

ghost use Rattle.std.specs.Prelude.{◌<◌, ◌^◌, length, map};
ghost use Rattle.std.specs.List.{concat};
ghost use Rattle.nr_spec_plans.specs.Plans.{Runs};
ghost use Rattle.nr_spec_saving.specs.Saving.{TooLong, save_parts};
ghost use Rattle.nr_saving.specs.Views.{wrote};

use nr_ports::{Files, WriteFault};

/// Cuts a file to nothing, writes these pieces one behind another and syncs it. A fault leaves any part of that behind.
pub fn save_parts<F: Files>(files: &mut F, name: &str, parts: &[&[u8]]) -> Result<(), WriteFault>
    requires { length (concat (map (λ part. part.now) parts.now)) < 2 ^ 64 }
    ensures { Runs {E = TooLong} (save_parts name.now (map (λ part. part.now) parts.now)) (F.disk files.old)
        (F.disk files.new) (wrote result) }
{
    files.cut(name, 0)?;
    let mut at = 0;
    for i in 0..parts.len() {
        files.write_at(name, at, parts[i])?;
        at += parts[i].len() as u64;
    }
    files.sync(name)
}
