// Reads lines of decimal numbers, byte by byte, into lent words.

// How far a line has been read: how many of its numbers are in the words, and the number that is being read. The words are lent and counted, since there is no heap.
#[derive(Clone, Copy)]
pub struct Reader {
    pub count: usize,
    open: Option<u64>,
}

impl Reader {
    // Between two numbers.
    pub fn after(count: usize) -> Reader {
        Reader { count, open: None }
    }

    // A digit more; a number that would be too large stays as it is.
    fn digit(self, d: u64) -> Reader {
        let value = self.open.unwrap_or(0);
        let most = (u64::MAX - d) / 10;
        Reader {
            count: self.count,
            open: Some(if value <= most { value * 10 + d } else { value }),
        }
    }

    // The number is over: it goes to the words, if there is room.
    pub fn ended(self, words: &mut [u64]) -> Reader {
        let Some(number) = self.open else {
            return self;
        };
        let count = self.count;
        if words.len() <= count {
            return Reader::after(count);
        }
        words[count] = number;
        Reader::after(count + 1)
    }

    // One byte more of the line.
    pub fn with(self, words: &mut [u64], byte: u8) -> Reader {
        match byte {
            b'0'..=b'9' => self.digit((byte - b'0') as u64),
            _ => self.ended(words),
        }
    }
}
