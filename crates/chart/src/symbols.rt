// How symbols are numbered: the heads, then the patterns' own symbols, then the tails.

// Symbols below this are heads. The book has its own constant, since that one is the limit of an offer.
pub(crate) const HEADS: u8 = 32;

// Symbols from this on are tails; those between are the patterns' own.
pub(crate) const TAILS: u8 = 64;
