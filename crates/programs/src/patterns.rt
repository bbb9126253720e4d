// The patterns of bytes.

// Numbered from 0: the small letters, then digits. A table takes as many of these from the start as a book has.
pub static PATTERNS: [u8; 32] = *b"abcdefghijklmnopqrstuvwxyz012345";

// So many of them are letters.
pub const LETTERS: usize = 26;
