//! Why a command ends without its text.

ghost use Rattle.std.specs.Prelude.{◌≡◌};
ghost use Rattle.nr_command_parts.specs.declared.refusal.Refusal.TheVariants as refusal;
ghost use Rattle.nr_command_parts.specs.declared.refusal.Stop.TheVariants as stop;
ghost use Rattle.nr_command_parts.specs.Views.{halt_of, stop_of, unanswered_of, unappended_of, unloaded_of, unread_of};
ghost use Rattle.nr_command_parts.specs.Views.{unsaved_of, untyped_of};

use crate::input::Input;
use nr_answer::WriteError;
use nr_bytes::{Memory, Place};
use nr_chain::Digest;
use nr_ports::{Failed, ReadFault, WriteFault};
use nr_rule_syntax::ParseError;
use nr_rule_types::TypeError;
use nr_saving::SaveError;
use nr_store::{AppendError, LoadError};
use std::alloc::{AllocError, AllocFailed};

/// What an answer is refused for, with the values that show it.
#[derive(Clone, Copy, Debug)]
pub enum Fact {
    /// It doesn't start with entry 1.
    Form,
    /// It is of another AS than the promise file.
    Network { found: u32, wanted: u32 },
    /// Its head isn't signed under the audited root.
    Unsigned,
    /// Its head has another hash than the chain's last value.
    Head { head: Digest, chain: Digest },
    /// Its head's time, in microseconds, isn't above the period's end.
    Short { head: u64, to: u64 },
    /// A promise in force in the period is that of no promise file, which has this digest, or none is in force there.
    Promise { found: Option<Digest>, file: Digest },
}

/// What an answer that starts at a checkpoint is refused for besides.
#[derive(Clone, Copy, Debug)]
pub enum Late {
    /// The checkpoint's time, in microseconds, isn't before the period.
    Time { checkpoint: u64, from: u64 },
    /// The digest of the body isn't the one that the checkpoint holds.
    Body { body: Digest, entry: Digest },
}

/// What refuses a recording, or an answer of a log, with the values that show it.
#[derive(Clone, Copy, Debug)]
pub enum LogFact {
    /// The key or the log is of another AS than the promise file, or the log than the key.
    OtherNetwork { found: u32, wanted: u32 },
    /// The key's tree has another root than the log.
    OtherRoot { found: Digest, wanted: Digest },
    /// No entry has room for a message of so many bytes.
    LongMessage(u64),
    /// A COMMIT is due for which the key has no leaf: so many COMMITs came before it, and the key has so many leaves.
    KeySpent { commits: u64, leaves: u64 },
    /// The log would have so many bytes, which is more than it may have.
    LongLog(u64),
    /// The answer would have so many bytes, which is more than it may have.
    LongAnswer(u64),
    /// The log has no COMMIT to the auditor.
    Unsealed,
}

/// The first thing that refuses a command.
#[derive(Clone, Copy, Debug)]
pub enum Refusal {
    /// No file has the name.
    NoFile(Input),
    /// The file is longer than its limit.
    Limit { input: Input, found: u64 },
    /// The file isn't in its grammar.
    Malformed(Input, Place),
    /// What the files say refuses the audit, or the evidence.
    Refused(Fact),
    /// The checkpoint with which the answer starts is late, or is of another body.
    LateStart(Late),
    /// What the files say refuses the recording, or the answer.
    Prevented(LogFact),
    /// The evidence would have so many bytes, which is more than it may have.
    LongEvidence(u64),
}

/// Why a command ends without its text.
#[derive(Clone, Copy, Debug)]
pub enum Stop {
    Refused(Refusal),
    ReadFault,
    WriteFault,
    Memory,
}

impl From<Refusal> for Stop {
    ghost from_gives = { λ refusal e. e ≡ stop.Refused refusal };

    fn from(refusal: Refusal) -> Stop {
        Stop::Refused(refusal)
    }
}

impl From<Failed> for Stop {
    ghost from_gives = { λ _ e. e ≡ stop.ReadFault };

    fn from(_e: Failed) -> Stop {
        Stop::ReadFault
    }
}

impl From<ReadFault> for Stop {
    ghost from_gives = { λ fault e. e ≡ stop_of fault };

    fn from(fault: ReadFault) -> Stop {
        match fault {
            ReadFault::Failed => Stop::ReadFault,
            ReadFault::Memory => Stop::Memory,
        }
    }
}

impl From<WriteFault> for Stop {
    ghost from_gives = { λ fault e. e ≡ halt_of fault };

    fn from(fault: WriteFault) -> Stop {
        match fault {
            WriteFault::Failed => Stop::WriteFault,
            WriteFault::Memory => Stop::Memory,
        }
    }
}

impl From<ParseError> for Stop {
    ghost from_gives = { λ fault e. e ≡ unread_of fault };

    fn from(fault: ParseError) -> Stop {
        match fault {
            ParseError::At(place) => Stop::Refused(Refusal::Malformed(Input::Promise, place)),
            ParseError::Memory => Stop::Memory,
        }
    }
}

impl From<TypeError> for Stop {
    ghost from_gives = { λ fault e. e ≡ untyped_of fault };

    fn from(fault: TypeError) -> Stop {
        match fault {
            TypeError::At(place) => Stop::Refused(Refusal::Malformed(Input::Promise, place)),
            TypeError::Memory => Stop::Memory,
        }
    }
}

impl From<Fact> for Stop {
    ghost from_gives = { λ fact e. e ≡ stop.Refused (refusal.Refused fact) };

    fn from(fact: Fact) -> Stop {
        Stop::Refused(Refusal::Refused(fact))
    }
}

impl From<LogFact> for Stop {
    ghost from_gives = { λ fact e. e ≡ stop.Refused (refusal.Prevented fact) };

    fn from(fact: LogFact) -> Stop {
        Stop::Refused(Refusal::Prevented(fact))
    }
}

impl From<LoadError> for Stop {
    ghost from_gives = { λ fault e. e ≡ unloaded_of fault };

    fn from(fault: LoadError) -> Stop {
        match fault {
            LoadError::Read => Stop::ReadFault,
            LoadError::Write => Stop::WriteFault,
            LoadError::Limit(found) => Stop::Refused(Refusal::Limit {
                input: Input::Log,
                found,
            }),
            LoadError::At(place) => Stop::Refused(Refusal::Malformed(Input::Log, place)),
            LoadError::Memory => Stop::Memory,
        }
    }
}

impl From<AppendError> for Stop {
    ghost from_gives = { λ fault e. e ≡ unappended_of fault };

    fn from(fault: AppendError) -> Stop {
        match fault {
            AppendError::Read => Stop::ReadFault,
            AppendError::Write => Stop::WriteFault,
            AppendError::Limit(found) => Stop::from(LogFact::LongLog(found)),
            AppendError::Memory => Stop::Memory,
        }
    }
}

impl From<WriteError> for Stop {
    ghost from_gives = { λ fault e. e ≡ unanswered_of fault };

    fn from(fault: WriteError) -> Stop {
        match fault {
            WriteError::TooLong(found) => Stop::from(LogFact::LongAnswer(found)),
            WriteError::Memory => Stop::Memory,
        }
    }
}

impl From<SaveError> for Stop {
    ghost from_gives = { λ fault e. e ≡ unsaved_of fault };

    fn from(fault: SaveError) -> Stop {
        match fault {
            SaveError::TooLong(found) => Stop::Refused(Refusal::LongEvidence(found)),
            SaveError::Failed => Stop::WriteFault,
            SaveError::Memory => Stop::Memory,
        }
    }
}

impl From<Memory> for Stop {
    ghost from_gives = { λ _ e. e ≡ stop.Memory };

    fn from(_e: Memory) -> Stop {
        Stop::Memory
    }
}

impl From<AllocError> for Stop {
    ghost from_gives = { λ _ e. e ≡ stop.Memory };

    fn from(_e: AllocError) -> Stop {
        Stop::Memory
    }
}

impl<T: Drop> From<AllocFailed<T>> for Stop {
    ghost from_gives = { λ _ e. e ≡ stop.Memory };

    fn from(_e: AllocFailed<T>) -> Stop {
        Stop::Memory
    }
}
