//! Audited promise files.

ghost use Rattle.std.specs.Prelude.{◌≡◌, ◌≤◌, length, map, IfOk, option_map};
ghost use Rattle.nr_spec_outcome.specs.Outcome.{file_of_other, first_digest, numbers_of_all, promise_files};
ghost use Rattle.nr_audit.specs.Views.{audited_of};
ghost use Rattle.nr_discipline.specs.Views.{numbers_of};
ghost use Rattle.nr_judging.specs.Views.{files_in};

use nr_bytes::Memory;
use nr_chain::Digest;
use nr_discipline::FileNumbers;
use nr_judging::File;
use nr_spec_typing::Promise;
use std::alloc::Global;

/// A promise file that an audit goes by: the AS whose promises it has, its numbers, and its promises.
#[derive(Clone, Copy)]
pub struct Audited<'a> {
    pub network: u32,
    pub numbers: FileNumbers,
    pub promises: &'a [Promise],
}

/// The first file of another AS.
pub fn file_of_other<'a>(asn: u32, files: &[Audited<'a>]) -> Option<Audited<'a>>
    ensures { option_map audited_of result ≡ file_of_other asn (map audited_of files.now) }
{
    for file in files {
        if asn != file.network {
            return Some(*file);
        }
    }
    None
}

/// The numbers of each file.
pub fn numbers_of_all(alloc: Global, files: &[Audited<'_>]) -> Result<Vec<FileNumbers>, Memory>
    ensures { IfOk result (λ all. map numbers_of all.items ≡ numbers_of_all (map audited_of files.now)) }
{
    let mut all = Vec::new(alloc);
    for file in files {
        all.push(file.numbers)?;
    }
    Ok(all)
}

/// Each file by its digest and its promises.
pub fn promise_files<'a>(alloc: Global, files: &[Audited<'a>]) -> Result<Vec<File<'a>>, Memory>
    ensures { IfOk result (λ all. files_in all.items ≡ promise_files (map audited_of files.now)) }
{
    let mut all = Vec::new(alloc);
    for file in files {
        all.push(File {
            digest: file.numbers.digest,
            promises: file.promises,
        })?;
    }
    Ok(all)
}

/// The digest of the first file.
#[tactic(auto, using(crate::proofs::Files::first_is))]
pub fn first_digest(files: &[Audited<'_>]) -> Digest
    requires { 1 ≤ length files.now }
    ensures { result.0 ≡ first_digest (numbers_of_all (map audited_of files.now)) }
{
    files[0].numbers.digest
}
