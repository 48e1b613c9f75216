// Bytes as a row writes them out: a capital letter for itself, any other byte as two hexadecimal digits in lower case, spaces where
// they help to read. `PG 01 02` is 50 47 01 02.
ghost use Rattle.std.specs.Prelude.{◌≡◌, ◌≤◌, take, IfSome};

// Fixed memory: a copy of a file is cheap and cannot fail, and rows add to copies. An ArrayVec is not `Copy`.
#[derive(Clone, Copy)]
pub struct File {
    pub bytes: [u8; 700],
    pub len: usize,
    // The first digit of a byte whose second one is still to come, as its upper half.
    pub high: Option<u8>,
    // Something was no byte, or there was no room. The bytes around it stay: a row that begins with ! is about them.
    pub bad: bool,
}

impl File {
    pub fn none() -> File
        ensures { result.len ≡ 0 }
    {
        File {
            bytes: [0; 700],
            len: 0,
            high: None,
            bad: false,
        }
    }

    fn push(&mut self, b: u8) {
        if self.len < 700 {
            self.bytes[self.len] = b;
            self.len += 1;
        } else {
            self.bad = true;
        }
    }

    // A letter between the two digits of a byte is no byte.
    fn letter(&mut self, b: u8) {
        if self.high.is_some() {
            self.bad = true;
        }
        self.push(b);
    }

    fn digit(&mut self, d: u8) {
        match self.high {
            Some(high) => {
                self.high = None;
                self.push(high | d);
            }
            None => self.high = Some(d << 4),
        }
    }

    fn with(&mut self, c: u8) {
        match c {
            b' ' | b'+' => {}
            b'=' => *self = File::none(),
            b'A'..=b'Z' => self.letter(c),
            b'0'..=b'9' => self.digit(c - b'0'),
            b'a'..=b'f' => self.digit(c - b'a' + 10),
            _ => self.bad = true,
        }
    }

    pub fn add(mut self, s: &[u8]) -> File {
        for c in s {
            self.with(*c);
        }
        self
    }

    pub fn bytes(&self) -> &[u8]
        ensures { result.now ≡ take self.now.len self.now.bytes }
    {
        &self.bytes[..self.len.min(700)]
    }

    // The bytes, where all of them can be read.
    pub fn readable(&self) -> Option<&[u8]>
        ensures { IfSome result (λ b. b.now ≡ take self.now.len self.now.bytes) }
    {
        if self.bad || self.high.is_some() {
            return None;
        }
        Some(self.bytes())
    }
}
