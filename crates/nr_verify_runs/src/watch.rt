//! Looking for one run.

ghost use Rattle.std.specs.Prelude.{◌≡◌, ◌++◌, [], ◌∷◌, List, None, false};
ghost use Rattle.std.specs.List.{list_any};
ghost use Rattle.nr_spec_runs.specs.Runs as spec;
ghost use Rattle.nr_spec_claims.specs.Claims.{same_span};
ghost use Rattle.nr_verify_runs.specs.Walked.{Watched};

use std::marker::Model;

/// The run that is looked for, when the open run began, and whether the run was found.
#[derive(Drop)]
pub struct Watch {
    begin: u64,
    end: u64,
    since: Option<u64>,
    found: bool,
}

impl Model for Watch {
    ghost use Rattle.nr_verify_runs.specs.Walked.{Watch};

    ghost Value = { Watch };

    ghost view = { λ w. record { span = record { begin = w.begin; end = w.end }; since = w.since; found = w.found } };
}

impl Watch {
    pub fn new(begin: u64, end: u64) -> Watch
        ensures { result ≡ record { span = record { begin = begin; end = end }; since = None; found = false } }
    {
        Watch {
            begin,
            end,
            since: None,
            found: false,
        }
    }

    /// A moment begins at this time, and is bad or isn't.
    pub fn observe(&mut self, bad: bool, time: u64)
        ensures seen { (moments : List spec.Moment) → Watched moments self.old
            → Watched (moments ++ record { begin = time; bad = bad } ∷ []) self.new }
        ensures same { self.new.span ≡ self.old.span }
    {
        match self.since {
            Some(since) => {
                if !bad {
                    self.found = self.found || self.is_sought(since, time);
                    self.since = None;
                }
            }
            None => {
                if bad {
                    self.since = Some(time);
                }
            }
        }
    }

    // Whether the run that is looked for has these ends.
    fn is_sought(&self, begin: u64, end: u64) -> bool
        ensures { result ≡ same_span self.now.span (record { begin = begin; end = end }) }
    {
        self.begin == begin && self.end == end
    }

    /// Whether the run was found, where the last moment lasts until this time.
    pub fn close(&self, time: u64) -> bool
        ensures { (moments : List spec.Moment) → Watched moments self.now
            → result ≡ list_any (same_span self.now.span) (spec.runs_of time moments) }
    {
        if self.found {
            return true;
        }
        match self.since {
            Some(since) => self.is_sought(since, time),
            None => false,
        }
    }
}
