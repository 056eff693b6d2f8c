//! Which authenticators are conflicts.

ghost use Rattle.std.specs.Prelude.{◌≡◌, IfOk, map};
ghost use Rattle.nr_spec_history.specs.Conflicts.{is_about, is_signed};
ghost use Rattle.nr_answer.specs.Views.{auth_of};
ghost use Rattle.nr_evidence.specs.Views.{period_of};
ghost use Rattle.nr_audit.specs.Slots.{accuses};

use crate::checked::is_within;
use crate::slots::Slots;
use nr_answer::{Auth, Auths};
use nr_bytes::Memory;
use nr_chain::Digest;
use nr_evidence::Period;
use std::alloc::Global;

// Whether an authenticator names the AS of the answer and has its time in the period.
fn is_about(asn: u32, period: &Period, auth: &Auth<'_>) -> bool
    ensures { result ≡ is_about asn (period_of period.now) (auth_of auth.now) }
{
    auth.asn == asn && is_within(period, auth.time)
}

/// Whether an authenticator is signed under a root. It takes some 800 digests.
pub fn is_signed(root: &Digest, auth: &Auth<'_>) -> bool
    ensures { result ≡ is_signed root.now.0 (auth_of auth.now) }
{
    auth.signed(root)
}

// Whether an authenticator is presented and no entry is the one that it states. Its signature is asked last, since that
// takes most.
fn accuses(root: &Digest, asn: u32, period: &Period, slots: &Slots, auth: &Auth<'_>) -> bool
    ensures { result ≡ accuses root.now.0 asn (period_of period.now) slots.now.links.entries (auth_of auth.now) }
{
    is_about(asn, period, auth) && !slots.states(auth) && is_signed(root, auth)
}

/// For each authenticator, in file order, whether it is a conflict.
pub fn mark_conflicts(
    alloc: Global,
    root: &Digest,
    asn: u32,
    period: &Period,
    slots: &Slots,
    auths: &Auths<'_>,
) -> Result<Vec<bool>, Memory>
    ensures { IfOk result (λ marks. marks.items
        ≡ map (accuses root.now.0 asn (period_of period.now) slots.now.links.entries) auths.now) }
{
    let mut marks = Vec::new(alloc);
    for auth in auths.iter() {
        marks.push(accuses(root, asn, period, slots, &auth))?;
    }
    Ok(marks)
}
