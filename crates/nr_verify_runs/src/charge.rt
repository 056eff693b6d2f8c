//! What is charged: a promise at a prefix in a period.

ghost use Rattle.std.specs.Prelude.{◌≡◌, ℕ, IfOk, List, Option};
ghost use Rattle.std.specs.Ordering.{is_eq};
ghost use Rattle.nr_spec_log.specs.Chain.{LogEntry};
ghost use Rattle.nr_spec_routes.specs.Keys.{cidr_cmp, is_named};
ghost use Rattle.nr_spec_report.specs.Wrong as wrong;
ghost use Rattle.nr_spec_report.specs.Wrong.{Base};
ghost use Rattle.nr_spec_promises.specs.Broken.{is_file, is_judged};
ghost use Rattle.nr_spec_promises.specs.Files.{file_after};
ghost use Rattle.nr_spec_promises.specs.Moments.{view_after};
ghost use Rattle.nr_evidence.specs.Views.{period_of};
ghost use Rattle.nr_verify_routes.specs.Held.{AreOf};
ghost use Rattle.nr_verify_runs.specs.Views.{charge_of, files_in};
ghost use Rattle.nr_verify_runs.specs.Walked.{is_unkept};

use crate::file::Text;
use nr_bytes::Memory;
use nr_evidence::Period;
use nr_prefix::Prefix;
use nr_spec_typing::{Neighbour, Promise};
use nr_verify_eval::holds;
use nr_verify_routes::Routes;
use std::alloc::Global;

/// A promise of the text of this number, with that text's neighbours, at a prefix in a period.
#[derive(Drop)]
pub struct Charge<'t> {
    pub texts: &'t [Text<'t>],
    pub file: u16,
    pub neighbours: &'t [Neighbour],
    pub promise: &'t Promise,
    pub prefix: Prefix,
    pub period: Period,
}

/// Whether a time is in a period.
pub fn is_within(period: &Period, time: u64) -> bool
    ensures { result ≡ wrong.is_within (period_of period.now) time }
{
    period.from <= time && time <= period.to
}

#[tactic(auto, using(nr_verify_routes::proofs::Kept::one_cidr))]
fn is_one(c: &Prefix, p: &Prefix) -> bool
    ensures { result ≡ is_eq (cidr_cmp c.now p.now) }
{
    c.addr() == p.addr() && c.len() == p.len()
}

// Whether a prefix is among some.
fn is_among(p: &Prefix, prefixes: &[Prefix]) -> bool
    ensures { result ≡ is_named prefixes.now p.now }
{
    prefixes.iter().any(|c| is_one(c, p))
}

// Whether a state belongs to the text of this number.
fn is_ruled(file: Option<u16>, wanted: u16) -> bool
    ensures { result ≡ is_file file wanted }
{
    match file {
        None => false,
        Some(ruling) => ruling == wanted,
    }
}

impl<'t> Charge<'t> {
    // Whether the promise is judged where these are the routes.
    #[tactic(auto, using(crate::proofs::Stands::stands_so))]
    fn is_judged(&self, routes: &Routes<'_>) -> bool
        ensures { (base : Base) (first : Option (List ℕ)) (past : List LogEntry)
            → AreOf base.rows past self.now.prefix routes.now
            → result ≡ is_judged self.now.promise.now (view_after (files_in self.now.texts.now) base first past)
            self.now.prefix }
    {
        let at = self.promise.at.as_slice();
        if at.len() == 0 {
            !routes.is_empty()
        } else {
            is_among(&self.prefix, at)
        }
    }

    /// Whether the promise is bad where these are the routes, and the state belongs to the text of this number.
    #[tactic(auto, using(crate::proofs::Stands::scene_so))]
    pub fn is_bad(
        &self,
        alloc: Global,
        routes: &Routes<'_>,
        file: Option<u16>,
    ) -> Result<bool, Memory>
        ensures { (base : Base) (first : Option (List ℕ)) (past : List LogEntry)
            → AreOf base.rows past self.now.prefix routes.now
            → file ≡ file_after (files_in self.now.texts.now) base first past
            → IfOk result (λ bad. bad ≡ is_unkept (charge_of first self.now)
            (view_after (files_in self.now.texts.now) base first past)) }
    {
        if !is_ruled(file, self.file) {
            return Ok(false);
        }
        if !self.is_judged(routes) {
            return Ok(false);
        }
        let held = holds(
            alloc,
            self.neighbours,
            &self.prefix,
            routes,
            &self.promise.form,
        )?;
        Ok(!held)
    }
}
