//! What the bytes of a file hold.

ghost use Rattle.std.specs.Prelude.{◌≡◌, ◌≤◌, ◌-◌, ◌++◌, ◌∷◌, ℕ, List, Some, Ok, length, take, false};
ghost use Rattle.nr_spec_wire.specs.Reading.{IsBytes};
ghost use Rattle.nr_spec_log.specs.Answer.{last_time};
ghost use Rattle.nr_spec_log.specs.Chain.{LogEntry};
ghost use Rattle.nr_spec_store.specs.LogFile.{LogFile, IsLog, MayFollow, is_open, log_of, most_log, with_batch};
ghost use Rattle.nr_spec_store.specs.StoreCrashes.{HoldsEntries};

/// What is read as a log has a spelling, and its file begins with that.
pub fn read_logs_are_spelled()
    ensures { (file : List ℕ) (log : LogFile) → IsBytes file → log_of file ≡ Ok (Some log)
        → IsLog log × ((rest : List ℕ) × (file ≡ log.front ++ rest)) }
{}

/// The spelling of a log is read as that log, whatever stands after it.
pub fn spelled_logs_are_read()
    ensures { (log : LogFile) (rest : List ℕ) → IsLog log → log_of (log.front ++ rest) ≡ Ok (Some log) }
{}

/// With a batch after its last gate, that opened and a closed one after the batch, a log has one batch more.
pub fn an_opened_batch_is_read()
    ensures { (log : LogFile) (entries : List LogEntry) (rest : List ℕ) → IsLog log
        → MayFollow (last_time 0 log.entries) entries → length (with_batch log entries).front ≤ most_log
        → log_of ((with_batch log entries).front ++ rest) ≡ Ok (Some (with_batch log entries)) }
{}

/// With whatever closed gate, and whatever stands after it, a log has the same entries.
pub fn a_closed_gate_ends_the_log()
    ensures { (log : LogFile) (gate : ℕ) (rest : List ℕ) → IsLog log → is_open gate ≡ false
        → HoldsEntries (take (length log.front - 1) log.front ++ gate ∷ rest) log log.entries }
{}
