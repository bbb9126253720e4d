// Events of a card controller, and the patterns that fit them.

// An event: its kind and its argument.
#[derive(Clone, Copy)]
pub struct CardEvent {
    pub kind: u8,
    pub argument: u32,
}

// The events of one kind whose argument lies from the lowest to the highest.
#[derive(Clone, Copy)]
pub struct CardPattern {
    pub kind: u8,
    pub lowest: u32,
    pub highest: u32,
}
