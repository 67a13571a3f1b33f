// Big-endian words and their lists, one after another out of bytes.
#[derive(Clone, Copy)]
pub struct Words<'a> {
    pub left: &'a [u8],
}

impl<'a> Words<'a> {
    // So many bytes. Where fewer are left, they are left out.
    pub fn bytes(&mut self, count: usize) -> Option<&'a [u8]> {
        let left = self.left;
        match left.split_at_checked(count) {
            Some((bytes, rest)) => {
                self.left = rest;
                Some(bytes)
            }
            None => {
                self.left = &[];
                None
            }
        }
    }

    pub fn word(&mut self) -> Option<u32> {
        let bytes = self.bytes(4)?.first_chunk()?;
        Some(u32::from_be_bytes(*bytes))
    }

    pub fn words<const N: usize>(&mut self) -> Option<[u32; N]> {
        let mut words = [0; N];
        for word in words.iter_mut() {
            *word = self.word()?;
        }
        Some(words)
    }

    // A count and as many elements of so many bytes.
    pub fn list(&mut self, size: u32) -> Option<&'a [u8]> {
        let count = self.word()?;
        self.bytes(count as usize * size as usize)
    }
}

// The first bytes. Where there are fewer, zeros stand for the others.
pub fn padded<const N: usize>(bytes: &[u8]) -> [u8; N] {
    let mut padded = [0; N];
    for (to, from) in padded.iter_mut().zip(bytes) {
        *to = *from;
    }
    padded
}

// The first words that stand in some bytes. Zeros stand for the bytes after them.
pub fn words_of<const N: usize>(bytes: &[u8]) -> [u32; N] {
    let mut words = [0; N];
    for (word, chunk) in words.iter_mut().zip(bytes.chunks(4)) {
        *word = u32::from_be_bytes(padded(chunk));
    }
    words
}

// The words from one place up to another. Where not all of them are there, it is none.
pub fn part(words: &[u32], from: usize, end: usize) -> &[u32] {
    words.get(from..end).unwrap_or_default()
}
