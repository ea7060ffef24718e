//! The lines that answer a line of the script.

use itoa::Buffer;
use poly_grid::Refusal;
use poly_text::refusal_line;
use std::alloc::Global;

/// The answer to one line.
#[derive(Drop)]
pub struct Reply {
    text: Vec<u8>,
}

impl Reply {
    /// An empty answer.
    pub fn new(alloc: Global) -> Reply {
        Reply {
            text: Vec::new(alloc),
        }
    }

    /// The bytes of the answer.
    pub fn as_bytes(&self) -> &[u8] {
        self.text.as_slice()
    }

    /// Makes the answer empty.
    pub fn clear(&mut self) {
        self.text.clear();
    }

    /// Appends the text.
    pub fn text(&mut self, text: &str) {
        self.bytes(text.as_bytes());
    }

    /// Appends the bytes. Asks for memory a second time if it is refused, since the call whose answer this is has been made. If
    /// that is refused too, leaves the bytes out.
    pub fn bytes(&mut self, bytes: &[u8]) {
        let _ = self.text.reserve(bytes.len());
        let _ = self.text.extend_from_slice(bytes);
    }

    /// Appends the number in decimal digits.
    pub fn number(&mut self, number: u64) {
        let mut digits = Buffer::new();
        self.text(digits.format(number));
    }

    /// Appends the text, and then the number.
    pub fn field(&mut self, text: &str, number: u64) {
        self.text(text);
        self.number(number);
    }

    /// Appends a line with the text and the number.
    pub fn line(&mut self, text: &str, number: u64) {
        self.field(text, number);
        self.end();
    }

    /// Appends a line with the text and `yes` or `no`.
    pub fn answer(&mut self, text: &str, yes: bool) {
        self.text(text);
        self.text(if yes { " yes\n" } else { " no\n" });
    }

    /// Appends a line feed.
    pub fn end(&mut self) {
        self.text("\n");
    }

    /// Appends the refusal's line, with what the refusal counts.
    pub fn refusal(&mut self, refusal: Refusal) {
        self.text(refusal_line(refusal).trim_end());
        if let Refusal::Busy { pending } = refusal {
            self.field(" pending ", pending);
        }
        self.end();
    }
}
