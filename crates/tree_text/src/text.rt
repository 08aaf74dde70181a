use c_language::{Name, TagName};
use plain_data::{Bytes, Shared};
use std::alloc::{AllocError, Global};

/// A text that grows by nodes, with or without their offsets.
#[derive(Drop)]
pub struct Text {
    bytes: Bytes,
    has_places: bool,
}

fn is_plain(byte: u8) -> bool {
    32 <= byte && byte < 127 && byte != b'"' && byte != b'\\'
}

fn digit(value: u8) -> u8 {
    match value % 16 {
        value if value < 10 => b'0' + value,
        value => b'a' + (value - 10),
    }
}

impl Text {
    pub fn new(alloc: Global, has_places: bool) -> Text {
        Text {
            bytes: Bytes::new(alloc),
            has_places,
        }
    }

    pub fn into_bytes(self) -> Bytes {
        let Text {
            bytes,
            has_places: _,
        } = self;
        bytes
    }

    /// A space, unless a line begins here.
    fn gap(&mut self) -> Result<(), AllocError> {
        match self.bytes.as_slice().last() {
            None | Some(b'\n') => Ok(()),
            Some(_) => self.bytes.push(b' '),
        }
    }

    fn digits(&mut self, number: u64) -> Result<(), AllocError> {
        if 10 <= number {
            self.digits(number / 10)?;
        }
        self.bytes.push(b'0' + (number % 10) as u8)
    }

    fn place(&mut self, at: u32) -> Result<(), AllocError> {
        if !self.has_places {
            return Ok(());
        }
        self.bytes.push(b'@')?;
        self.digits(u64::from(at))
    }

    /// A word by itself.
    pub fn word(&mut self, word: &str) -> Result<(), AllocError> {
        self.gap()?;
        self.bytes.extend_from_slice(word.as_bytes())
    }

    /// A node that is a word by itself, at an offset.
    pub fn word_at(&mut self, word: &str, at: u32) -> Result<(), AllocError> {
        self.word(word)?;
        self.place(at)
    }

    /// The start of a node.
    pub fn open(&mut self, word: &str) -> Result<(), AllocError> {
        self.gap()?;
        self.bytes.push(b'(')?;
        self.bytes.extend_from_slice(word.as_bytes())
    }

    /// The start of a node with an offset.
    pub fn open_at(&mut self, word: &str, at: u32) -> Result<(), AllocError> {
        self.open(word)?;
        self.place(at)
    }

    /// The end of a node.
    pub fn close(&mut self) -> Result<(), AllocError> {
        self.bytes.push(b')')
    }

    /// The end of a line.
    pub fn end_line(&mut self) -> Result<(), AllocError> {
        self.bytes.push(b'\n')
    }

    pub fn name(&mut self, name: &Name) -> Result<(), AllocError> {
        self.gap()?;
        self.bytes.extend_from_slice(name.get().as_slice())
    }

    /// A tag, with its own offset.
    pub fn tag(&mut self, tag: &TagName) -> Result<(), AllocError> {
        self.name(&tag.name)?;
        self.place(tag.at)
    }

    /// A tag, where there is one.
    pub fn optional_tag(&mut self, tag: &Option<TagName>) -> Result<(), AllocError> {
        match tag {
            None => Ok(()),
            Some(tag) => self.tag(tag),
        }
    }

    pub fn number(&mut self, number: u64) -> Result<(), AllocError> {
        self.gap()?;
        self.digits(number)
    }

    pub fn signed(&mut self, number: i32) -> Result<(), AllocError> {
        self.gap()?;
        if number < 0 {
            self.bytes.push(b'-')?;
        }
        self.digits(u64::from(number.unsigned_abs()))
    }

    fn byte(&mut self, byte: u8) -> Result<(), AllocError> {
        if is_plain(byte) {
            return self.bytes.push(byte);
        }
        self.bytes.extend_from_slice(b"\\x")?;
        self.bytes.push(digit(byte / 16))?;
        self.bytes.push(digit(byte))
    }

    fn quoted(&mut self, bytes: &[u8]) -> Result<(), AllocError> {
        self.gap()?;
        self.bytes.push(b'"')?;
        for byte in bytes {
            self.byte(*byte)?;
        }
        self.bytes.push(b'"')
    }

    /// The pieces of adjacent string literals, each in quotes.
    pub fn pieces(&mut self, pieces: &[Shared<Bytes>]) -> Result<(), AllocError> {
        for piece in pieces {
            self.quoted(piece.get().as_slice())?;
        }
        Ok(())
    }
}
