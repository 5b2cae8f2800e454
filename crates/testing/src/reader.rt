use crate::numbers::{integer, unsigned};

/// Reads a module's text from the front. If the text does not continue as expected, the reader fails, and reads nothing after
/// that.
#[derive(Clone, Copy)]
pub struct Reader<'a> {
    rest: &'a [u8],
    has_failed: bool,
}

// A piece of a text: a parenthesis, a keyword, number or name of an instruction, or what is between quotes.
#[derive(Clone, Copy)]
enum Token<'a> {
    Open,
    Close,
    Word(&'a str),
    Quoted(&'a [u8]),
}

fn ends_word(code: u8) -> bool {
    code.is_ascii_whitespace() || matches!(code, b'(' | b')' | b'"')
}

// Returns the word at the front, and what follows it.
fn split_word(text: &[u8]) -> Option<(Token<'_>, &[u8])> {
    let end = text
        .iter()
        .position(|code| ends_word(*code))
        .unwrap_or(text.len());
    match str::from_utf8(&text[..end]) {
        Ok(word) if end > 0 => Some((Token::Word(word), &text[end..])),
        _ => None,
    }
}

// Returns the token at the front of a text that does not begin with a blank, and what follows it.
fn split_front(text: &[u8]) -> Option<(Token<'_>, &[u8])> {
    match text {
        [b'(', rest @ ..] => Some((Token::Open, rest)),
        [b')', rest @ ..] => Some((Token::Close, rest)),
        [b'"', rest @ ..] => match rest.iter().position(|code| *code == b'"') {
            Some(end) => Some((Token::Quoted(&rest[..end]), &rest[end + 1..])),
            None => None,
        },
        _ => split_word(text),
    }
}

// Returns the byte of a type of values.
fn type_named(word: &str) -> Option<u8> {
    match word {
        "i32" => Some(0x7F),
        "i64" => Some(0x7E),
        "funcref" | "func" => Some(0x70),
        "externref" | "extern" => Some(0x6F),
        _ => None,
    }
}

// Returns the token at the front, and what follows it.
fn split_token(text: &[u8]) -> Option<(Token<'_>, &[u8])> {
    split_front(text.trim_ascii_start())
}

impl<'a> Reader<'a> {
    /// Creates a reader of this text.
    pub fn new(text: &'a [u8]) -> Reader<'a> {
        Reader {
            rest: text,
            has_failed: false,
        }
    }

    /// Makes the reader fail.
    pub fn fail(&mut self) {
        self.rest = &[];
        self.has_failed = true;
    }

    /// Returns whether all of the text was read.
    pub fn is_done(&self) -> bool {
        !self.has_failed && self.rest.trim_ascii_start().is_empty()
    }

    /// Returns whether a list is next.
    pub fn is_at_list(&self) -> bool {
        matches!(split_token(self.rest), Some((Token::Open, _)))
    }

    /// Reads the parenthesis that opens a list, if it is next. Returns whether it is.
    pub fn opens(&mut self) -> bool {
        let Some((Token::Open, rest)) = split_token(self.rest) else {
            return false;
        };
        self.rest = rest;
        true
    }

    /// Reads the parenthesis that opens a list.
    pub fn open(&mut self) {
        if !self.opens() {
            self.fail();
        }
    }

    /// Reads the parenthesis that closes a list.
    pub fn close(&mut self) {
        match split_token(self.rest) {
            Some((Token::Close, rest)) => self.rest = rest,
            _ => self.fail(),
        }
    }

    /// Reads a word, if one is next.
    pub fn next_word(&mut self) -> Option<&'a str> {
        let Some((Token::Word(word), rest)) = split_token(self.rest) else {
            return None;
        };
        self.rest = rest;
        Some(word)
    }

    /// Reads a number below the 32nd power of 2, if one is next.
    pub fn next_number(&mut self) -> Option<u64> {
        let Some((Token::Word(word), rest)) = split_token(self.rest) else {
            return None;
        };
        let Some(number) = unsigned(word) else {
            return None;
        };
        self.rest = rest;
        Some(number)
    }

    /// Reads a word with this beginning, if it is next, and returns the number after the beginning. Otherwise returns `default`.
    pub fn argument(&mut self, beginning: &str, default: u64) -> u64 {
        let Some((Token::Word(word), rest)) = split_token(self.rest) else {
            return default;
        };
        let Some(digits) = word.strip_prefix(beginning) else {
            return default;
        };
        self.rest = rest;
        match unsigned(digits) {
            Some(number) => number,
            None => {
                self.fail();
                0
            }
        }
    }

    /// Reads a quoted text, if one is next.
    pub fn next_quoted(&mut self) -> Option<&'a [u8]> {
        let Some((Token::Quoted(quoted), rest)) = split_token(self.rest) else {
            return None;
        };
        self.rest = rest;
        Some(quoted)
    }

    /// Reads a word. After a failure it is empty.
    pub fn word(&mut self) -> &'a str {
        match self.next_word() {
            Some(word) => word,
            None => {
                self.fail();
                ""
            }
        }
    }

    /// Reads this word, if it is next. Returns whether it is.
    pub fn accepts(&mut self, expected: &str) -> bool {
        match split_token(self.rest) {
            Some((Token::Word(word), rest)) if word == expected => {
                self.rest = rest;
                true
            }
            _ => false,
        }
    }

    /// Reads this word.
    pub fn keyword(&mut self, expected: &str) {
        if !self.accepts(expected) {
            self.fail();
        }
    }

    /// Reads a number below the 32nd power of 2. After a failure it is zero.
    pub fn number(&mut self) -> u64 {
        match self.next_number() {
            Some(number) => number,
            None => {
                self.fail();
                0
            }
        }
    }

    /// Reads a quoted text. After a failure it is empty.
    pub fn quoted(&mut self) -> &'a [u8] {
        match self.next_quoted() {
            Some(quoted) => quoted,
            None => {
                self.fail();
                &[]
            }
        }
    }

    /// Reads the name of a type of values, if a word is next. Returns the byte of the type, or zero after a failure.
    pub fn next_type(&mut self) -> Option<u8> {
        let Some(word) = self.next_word() else {
            return None;
        };
        match type_named(word) {
            Some(ty) => Some(ty),
            None => {
                self.fail();
                Some(0)
            }
        }
    }

    /// Reads the name of a type of values. Returns the byte of the type, or zero after a failure.
    pub fn value_type(&mut self) -> u8 {
        match self.next_type() {
            Some(ty) => ty,
            None => {
                self.fail();
                0
            }
        }
    }

    /// Reads an integer, and returns the 64 bits of it as a signed one, or zero after a failure. The integer has as many bits as
    /// twice `half` has values.
    pub fn integer(&mut self, half: u64) -> u64 {
        match integer(self.word(), half) {
            Some(number) => number,
            None => {
                self.fail();
                0
            }
        }
    }

    /// Returns how many numbers are next.
    pub fn count_numbers(&self) -> u64 {
        let mut ahead = *self;
        for count in 0..u64::MAX {
            if ahead.next_number().is_none() {
                return count;
            }
        }
        u64::MAX
    }
}
