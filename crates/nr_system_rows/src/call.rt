//! The calls that words write.

/// A call of files, but for the name of its file.
#[derive(Clone, Copy, Debug, PartialEq, Eq)]
pub enum Call<'a> {
    Size,
    Read { at: u64, count: u16 },
    Write { at: u64, text: &'a str },
    Cut { len: u64 },
    Sync,
}

/// The name and the call of a word: `size:NAME:0:`, `read:NAME:AT:COUNT`, `write:NAME:AT:TEXT`, `cut:NAME:LENGTH:` or
/// `sync:NAME:0:`. None where it writes no call.
pub fn call_of(word: &str) -> Option<(&str, Call<'_>)> {
    let (kind, word) = word.split_once(':')?;
    let (name, word) = word.split_once(':')?;
    let (number, text) = word.split_once(':')?;
    let number = number.parse::<u64>().ok()?;
    let call = match kind {
        "size" => Call::Size,
        "read" => Call::Read {
            at: number,
            count: text.parse::<u16>().ok()?,
        },
        "write" => Call::Write { at: number, text },
        "cut" => Call::Cut { len: number },
        "sync" => Call::Sync,
        _ => return None,
    };
    Some((name, call))
}
