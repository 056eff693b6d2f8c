/// What a token is. The keywords come first, then the symbols, and then the kinds that many texts have.
#[derive(Clone, Copy, Debug, PartialEq, Eq)]
pub enum Kind {
    Network,
    Commit,
    Neighbour,
    Group,
    Define,
    Promise,
    Grace,
    As,
    At,
    /// The keyword `root`.
    RootWord,
    /// The keyword `number`.
    NumberWord,
    Le,
    Implies,
    Or,
    And,
    Not,
    True,
    False,
    All,
    Some,
    In,
    If,
    Then,
    Else,
    /// The keyword `end`.
    EndWord,
    Sent,
    Received,
    Has,
    Crosses,
    Is,
    /// The keyword `prefix`.
    PrefixWord,
    Bits,
    Length,
    Med,
    Pref,
    Origin,
    First,
    Last,
    Hop,
    Asn,
    Semicolon,
    Comma,
    Equal,
    Unequal,
    Less,
    LessOrEqual,
    Greater,
    GreaterOrEqual,
    OpenParen,
    CloseParen,
    OpenBrace,
    CloseBrace,
    /// A word that is no keyword.
    Name,
    /// A number below 2^32, in decimal.
    Number,
    /// An IPv4 address.
    Address,
    /// An IPv4 address and a length.
    Prefix,
    /// A community: two numbers below 2^16.
    Community,
    /// `#` and 64 hexadecimal digits.
    Root,
    /// The end of the text.
    End,
    /// What begins no token. No token stands after it.
    Fault,
}

/// What stands in front of a text, with its length in bytes.
#[derive(Clone, Copy, Debug, PartialEq, Eq)]
pub enum Piece {
    /// A blank, or a comment up to the end of its line.
    Gap(usize),
    Token(Kind, usize),
}

/// The keywords. Every other word is a name.
pub const KEYWORDS: [(&[u8], Kind); 40] = [
    (b"network", Kind::Network),
    (b"commit", Kind::Commit),
    (b"neighbour", Kind::Neighbour),
    (b"group", Kind::Group),
    (b"define", Kind::Define),
    (b"promise", Kind::Promise),
    (b"grace", Kind::Grace),
    (b"as", Kind::As),
    (b"at", Kind::At),
    (b"root", Kind::RootWord),
    (b"number", Kind::NumberWord),
    (b"le", Kind::Le),
    (b"implies", Kind::Implies),
    (b"or", Kind::Or),
    (b"and", Kind::And),
    (b"not", Kind::Not),
    (b"true", Kind::True),
    (b"false", Kind::False),
    (b"all", Kind::All),
    (b"some", Kind::Some),
    (b"in", Kind::In),
    (b"if", Kind::If),
    (b"then", Kind::Then),
    (b"else", Kind::Else),
    (b"end", Kind::EndWord),
    (b"sent", Kind::Sent),
    (b"received", Kind::Received),
    (b"has", Kind::Has),
    (b"crosses", Kind::Crosses),
    (b"is", Kind::Is),
    (b"prefix", Kind::PrefixWord),
    (b"bits", Kind::Bits),
    (b"length", Kind::Length),
    (b"med", Kind::Med),
    (b"pref", Kind::Pref),
    (b"origin", Kind::Origin),
    (b"first", Kind::First),
    (b"last", Kind::Last),
    (b"hop", Kind::Hop),
    (b"asn", Kind::Asn),
];
