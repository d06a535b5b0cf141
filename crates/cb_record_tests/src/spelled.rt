// Class files of the tests, written as texts.
use cb_rows::Trouble;
use std::alloc::{AllocError, Global};

/// What stands between two brackets or quotes, so far.
#[derive(Drop)]
struct Part {
    bytes: Vec<u8>,
    commas: u16,
}

/// Bytes that are being spelled: the open parts, the innermost last.
#[derive(Drop)]
struct Spelling {
    alloc: Global,
    parts: Vec<Part>,
    high: Option<u8>,
    times: Option<u16>,
    quoted: bool,
}

/// The bytes that the texts spell, one behind the other.
///
/// Two hexadecimal digits are a byte. Quotes hold a text behind its length of two bytes, in which `16*J` stands for 16
/// times J. Braces hold bytes behind their length of four bytes. Round brackets hold a table behind its count of two
/// bytes, and commas part its entries.
pub(crate) fn spelled(alloc: Global, texts: &[&str]) -> Result<Vec<u8>, Trouble> {
    let mut spelling = Spelling::new(alloc)?;
    for text in texts {
        for sign in text.as_bytes() {
            spelling.take(*sign)?;
        }
    }
    Ok(spelling.close()?.bytes)
}

impl Spelling {
    fn new(alloc: Global) -> Result<Spelling, AllocError> {
        let mut spelling = Spelling {
            alloc,
            parts: Vec::new(alloc),
            high: None,
            times: None,
            quoted: false,
        };
        spelling.open()?;
        Ok(spelling)
    }

    fn take(&mut self, sign: u8) -> Result<(), Trouble> {
        match sign {
            b'\'' => self.quote(),
            _ if self.quoted => self.letter(sign),
            b' ' => Ok(()),
            b'{' | b'(' => Ok(self.open()?),
            b'}' => self.braces(),
            b')' => self.brackets(),
            b',' => self.comma(),
            b'0'..=b'9' => self.digit(sign - b'0'),
            b'A'..=b'F' => self.digit(sign - b'A' + 10),
            _ => Err(Trouble::NotUnderstood),
        }
    }

    fn open(&mut self) -> Result<(), AllocError> {
        let part = Part {
            bytes: Vec::new(self.alloc),
            commas: 0,
        };
        Ok(self.parts.push(part)?)
    }

    fn close(&mut self) -> Result<Part, Trouble> {
        self.parts.pop().ok_or(Trouble::NotUnderstood)
    }

    fn add(&mut self, bytes: &[u8]) -> Result<(), Trouble> {
        let part = self.parts.last_mut().ok_or(Trouble::NotUnderstood)?;
        Ok(part.bytes.extend_from_slice(bytes)?)
    }

    fn quote(&mut self) -> Result<(), Trouble> {
        self.quoted = !self.quoted;
        if self.quoted {
            return Ok(self.open()?);
        }
        let text = self.close()?.bytes;
        let length = u16::try_from(text.len()).map_err(|_| Trouble::NotUnderstood)?;
        self.add(&length.to_be_bytes())?;
        self.add(&text)
    }

    fn letter(&mut self, sign: u8) -> Result<(), Trouble> {
        match sign {
            b'*' => Ok(()),
            b'0'..=b'9' => {
                let times = self.times.unwrap_or(0).saturating_mul(10);
                self.times = Some(times.saturating_add(u16::from(sign - b'0')));
                Ok(())
            }
            _ => {
                for _ in 0..self.times.unwrap_or(1) {
                    self.add(&[sign])?;
                }
                self.times = None;
                Ok(())
            }
        }
    }

    fn braces(&mut self) -> Result<(), Trouble> {
        let contents = self.close()?.bytes;
        let length = u32::try_from(contents.len()).map_err(|_| Trouble::NotUnderstood)?;
        self.add(&length.to_be_bytes())?;
        self.add(&contents)
    }

    fn brackets(&mut self) -> Result<(), Trouble> {
        let part = self.close()?;
        let is_empty = part.bytes.is_empty() && part.commas == 0;
        let count = part.commas.saturating_add(u16::from(!is_empty));
        self.add(&count.to_be_bytes())?;
        self.add(&part.bytes)
    }

    fn comma(&mut self) -> Result<(), Trouble> {
        let part = self.parts.last_mut().ok_or(Trouble::NotUnderstood)?;
        part.commas = part.commas.saturating_add(1);
        Ok(())
    }

    fn digit(&mut self, digit: u8) -> Result<(), Trouble> {
        match self.high.take() {
            Some(high) => self.add(&[high | digit]),
            None => {
                self.high = Some(digit << 4);
                Ok(())
            }
        }
    }
}
