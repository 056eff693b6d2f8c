//! How the program ends: with a status and a text for the sink.

ghost use Rattle.std.specs.Prelude.{◌≡◌, ◌∷◌, [], codes, IfOk, option_map};
ghost use Rattle.std.specs.Fmt.{decimal};
ghost use Rattle.hex.specs.Hex.{encode_lower};
ghost use Rattle.nr_spec_history.specs.Lines.{line};
ghost use Rattle.nr_spec_steps.specs.Telling.{most_raw};
ghost use Rattle.std.specs.String.{string_bytes};
ghost use Rattle.nr_chain.specs.Views.{digest_bytes};
ghost use Rattle.nr_spec_plans.specs.Disk as disk;
ghost use Rattle.nr_spec_program.specs.Command.{usage_ending, digest_word, late_words, log_fact_words, refusal_ending, fault_ending};
ghost use Rattle.nr_command_parts.specs.Views.{late_of, log_fact_of, refusal_of};
ghost use Rattle.nr_command_parts.specs.Endings.{fixed_of, ending_of};

use crate::input::{Input, limit_of, name_of};
use crate::refusal::{Fact, Late, LogFact, Refusal};
use nr_chain::Digest;
use std::alloc::{AllocError, Global};

/// A status and a text that takes no memory.
#[derive(Clone, Copy, Debug)]
pub struct Fixed {
    pub status: u8,
    pub text: &'static str,
}

/// A status and the text that is offered to the sink.
#[derive(Debug, Drop)]
pub struct Ending {
    pub status: u8,
    pub text: Vec<u8>,
}

/// The words aren't taken.
pub fn usage() -> Fixed
    ensures { fixed_of result ≡ usage_ending }
{
    Fixed {
        status: 2,
        text: "usage\n",
    }
}

/// A size or read call failed.
pub fn read_fault() -> Fixed
    ensures { fixed_of result ≡ fault_ending disk.ReadFault }
{
    Fixed {
        status: 4,
        text: "read fault\n",
    }
}

/// A write, cut or sync call failed.
pub fn write_fault() -> Fixed
    ensures { fixed_of result ≡ fault_ending disk.WriteFault }
{
    Fixed {
        status: 5,
        text: "write fault\n",
    }
}

/// Memory ran out.
pub fn out_of_memory() -> Fixed
    ensures { fixed_of result ≡ fault_ending disk.Memory }
{
    Fixed {
        status: 6,
        text: "memory\n",
    }
}

// A digest, or the word `none`.
fn digest_word(alloc: Global, digest: Option<Digest>) -> Result<String, AllocError>
    ensures { IfOk result (λ text. string_bytes text ≡ digest_word (option_map digest_bytes digest)) }
{
    match digest {
        None => String::from_str(alloc, "none"),
        Some(digest) => hex::encode(alloc, digest.0.as_slice()),
    }
}

#[tactic(auto, unfolding(nr_spec_program::specs::Command::refusal_ending))]
fn fact_ending(alloc: Global, fact: Fact) -> Result<Ending, AllocError>
    ensures { IfOk result (λ e. ending_of e ≡ refusal_ending (refusal_of (Refusal.Refused fact))) }
{
    let text = match fact {
        Fact::Form => String::from_str(alloc, "refused form answer\n")?,
        Fact::Network { found, wanted } => {
            format!(in alloc; "refused network {found} {wanted}\n")?
        }
        Fact::Unsigned => String::from_str(alloc, "refused head unsigned\n")?,
        Fact::Head { head, chain } => {
            let head = hex::encode(alloc, head.0.as_slice())?;
            let chain = hex::encode(alloc, chain.0.as_slice())?;
            format!(in alloc; "refused head {head} {chain}\n")?
        }
        Fact::Short { head, to } => format!(in alloc; "refused short {head} {to}\n")?,
        Fact::Promise { found, file } => {
            let found = digest_word(alloc, found)?;
            let file = hex::encode(alloc, file.0.as_slice())?;
            format!(in alloc; "refused promise {found} {file}\n")?
        }
    };
    Ok(Ending {
        status: 7,
        text: text.into_bytes(),
    })
}

// The line of a checkpoint that is late, or of another body.
fn late_line(alloc: Global, late: Late) -> Result<String, AllocError>
    ensures { IfOk result (λ text. string_bytes text ≡ line (codes "refused" ∷ late_words (late_of late))) }
{
    match late {
        Late::Time { checkpoint, from } => format!(in alloc; "refused late {checkpoint} {from}\n"),
        Late::Body { body, entry } => {
            let body = hex::encode(alloc, body.0.as_slice())?;
            let entry = hex::encode(alloc, entry.0.as_slice())?;
            format!(in alloc; "refused late {body} {entry}\n")
        }
    }
}

// The longest message that an entry has room for, in bytes.
fn most_raw() -> u64
    ensures { result ≡ most_raw }
{
    65_532
}

// The line with which something is past its limit.
fn limit_line(alloc: Global, what: &str, found: u64, most: u64) -> Result<String, AllocError>
    ensures { IfOk result (λ text. string_bytes text
        ≡ line (codes "refused" ∷ codes "limit" ∷ what.now ∷ decimal found ∷ decimal most ∷ [])) }
{
    format!(in alloc; "refused limit {what} {found} {most}\n")
}

// The line with two roots.
fn roots_line(alloc: Global, found: &Digest, wanted: &Digest) -> Result<String, AllocError>
    ensures { IfOk result (λ text. string_bytes text
        ≡ line (codes "refused" ∷ codes "key" ∷ encode_lower found.now.0 ∷ encode_lower wanted.now.0 ∷ [])) }
{
    let found = hex::encode(alloc, found.0.as_slice())?;
    let wanted = hex::encode(alloc, wanted.0.as_slice())?;
    format!(in alloc; "refused key {found} {wanted}\n")
}

// The line of what refuses a recording, or an answer.
fn log_fact_line(alloc: Global, fact: LogFact) -> Result<String, AllocError>
    ensures { IfOk result (λ text. string_bytes text ≡ line (codes "refused" ∷ log_fact_words (log_fact_of fact))) }
{
    match fact {
        LogFact::OtherNetwork { found, wanted } => {
            format!(in alloc; "refused network {found} {wanted}\n")
        }
        LogFact::OtherRoot { found, wanted } => roots_line(alloc, &found, &wanted),
        LogFact::LongMessage(found) => limit_line(alloc, "message", found, most_raw()),
        LogFact::KeySpent { commits, leaves } => {
            format!(in alloc; "refused key {commits} {leaves}\n")
        }
        LogFact::LongLog(found) => limit_line(alloc, "log", found, limit_of(Input::Log)),
        LogFact::LongAnswer(found) => limit_line(alloc, "answer", found, limit_of(Input::Answer)),
        LogFact::Unsealed => String::from_str(alloc, "refused unsealed\n"),
    }
}

#[tactic(auto, unfolding(nr_spec_program::specs::Command::refusal_ending))]
fn log_fact_ending(alloc: Global, fact: LogFact) -> Result<Ending, AllocError>
    ensures { IfOk result (λ e. ending_of e ≡ refusal_ending (refusal_of (Refusal.Prevented fact))) }
{
    let text = log_fact_line(alloc, fact)?;
    Ok(Ending {
        status: 7,
        text: text.into_bytes(),
    })
}

/// The status and the line of a refusal.
#[tactic(auto, unfolding(nr_spec_program::specs::Command::refusal_ending))]
pub fn refused(alloc: Global, refusal: Refusal) -> Result<Ending, AllocError>
    ensures { IfOk result (λ e. ending_of e ≡ refusal_ending (refusal_of refusal)) }
{
    match refusal {
        Refusal::NoFile(input) => {
            let name = name_of(alloc, input)?;
            let text = format!(in alloc; "refused nofile {name}\n")?;
            Ok(Ending {
                status: 7,
                text: text.into_bytes(),
            })
        }
        Refusal::Limit { input, found } => {
            let name = name_of(alloc, input)?;
            let most = limit_of(input);
            let text = format!(in alloc; "refused limit {name} {found} {most}\n")?;
            Ok(Ending {
                status: 7,
                text: text.into_bytes(),
            })
        }
        Refusal::Malformed(input, place) => {
            let name = name_of(alloc, input)?;
            let at = place.0;
            let text = format!(in alloc; "malformed {name} {at}\n")?;
            Ok(Ending {
                status: 3,
                text: text.into_bytes(),
            })
        }
        Refusal::Refused(fact) => fact_ending(alloc, fact),
        Refusal::LateStart(late) => {
            let text = late_line(alloc, late)?;
            Ok(Ending {
                status: 7,
                text: text.into_bytes(),
            })
        }
        Refusal::Prevented(fact) => log_fact_ending(alloc, fact),
        Refusal::LongEvidence(found) => {
            let text = limit_line(alloc, "evidence", found, limit_of(Input::Evidence))?;
            Ok(Ending {
                status: 7,
                text: text.into_bytes(),
            })
        }
    }
}
