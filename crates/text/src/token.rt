// A word of a rule text by its kind: the whole word, a part of the text, and its byte place.
#[derive(Clone, Copy)]
pub enum Token<'a> {
    Arrow(&'a [u8], usize),
    Blank(&'a [u8], usize),
    Head(&'a [u8], usize),
    Pattern(&'a [u8], usize),
    Cost(&'a [u8], usize),
    Unknown(&'a [u8], usize),
}
