//! Where an offset of a text stands: its line and its column.

ghost use Rattle.std.specs.Prelude.{◌≡◌, ◌≤◌, length};
ghost use Rattle.std.specs.List.{count_by, suffix_len, position_or_len};
ghost use Rattle.nr_advice.specs.Places.{column_of, is_break, is_in_line, line_at, line_of};

/// Where an offset of a text stands: its line and its column, from 1, and the whole line without its line feed.
#[derive(Clone, Copy, Debug)]
pub struct Place<'a> {
    pub line: u64,
    pub column: u64,
    pub text: &'a [u8],
}

fn is_break(byte: u8) -> bool
    ensures { result ≡ is_break byte }
{
    byte == b'\n'
}

// How many line feeds there are.
fn breaks_in(bytes: &[u8]) -> usize
    ensures count { result ≡ count_by is_break bytes.now }
    ensures most { result ≤ length bytes.now }
{
    let mut count = 0;
    for byte in bytes {
        if is_break(*byte) {
            count += 1;
        }
    }
    count
}

// How many bytes stand behind the last line feed.
fn last_line_len(bytes: &[u8]) -> usize
    ensures len { result ≡ suffix_len is_in_line bytes.now }
    ensures most { result ≤ length bytes.now }
{
    let mut start = bytes.len();
    while 0 < start && !is_break(bytes[start - 1]) {
        start -= 1;
    }
    bytes.len() - start
}

// How many bytes stand before the first line feed.
fn first_line_len(bytes: &[u8]) -> usize
    ensures len { result ≡ position_or_len is_break bytes.now }
    ensures most { result ≤ length bytes.now }
{
    let mut end = 0;
    while end < bytes.len() && !is_break(bytes[end]) {
        end += 1;
    }
    end
}

/// Where an offset stands.
pub fn place_of(bytes: &[u8], at: usize) -> Place<'_>
    requires { at ≤ length bytes.now }
    ensures line { result.line ≡ line_of bytes.now at }
    ensures column { result.column ≡ column_of bytes.now at }
    ensures text { result.text.now ≡ line_at bytes.now at }
{
    let front = &bytes[..at];
    let before = last_line_len(front);
    let rest = &bytes[at - before..];
    Place {
        line: breaks_in(front) as u64 + 1,
        column: before as u64 + 1,
        text: &rest[..first_line_len(rest)],
    }
}
