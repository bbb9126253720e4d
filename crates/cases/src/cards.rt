// Card patterns and events of stored cases.
ghost use Rattle.std.specs.Prelude.{MatchResult};
ghost use Rattle.book.specs.declared.kinds.CardEvent.{CardEvent};
ghost use Rattle.book.specs.declared.kinds.CardPattern.{CardPattern};
ghost use Rattle.cases.specs.Cards.{SaysEvent, SaysPattern};

use anyhow::Context;
use book::kinds::{CardEvent, CardPattern};

// A pattern: its kind, its lowest and its highest argument. A function and no FromStr, since the type is another crate's.
pub fn card_pattern(text: &str) -> anyhow::Result<CardPattern>
    ensures { MatchResult result (λ p. SaysPattern text.now p) (λ _. (p : CardPattern) → SaysPattern text.now p → ⊥) }
{
    let (kind, range) = text.split_once(' ').context("a pattern has no range")?;
    let (lowest, highest) = range
        .split_once(' ')
        .context("a pattern has no highest argument")?;
    Ok(CardPattern {
        kind: kind.parse::<u8>()?,
        lowest: lowest.parse::<u32>()?,
        highest: highest.parse::<u32>()?,
    })
}

// An event: its kind and its argument. A function for the same reason.
pub fn card_event(text: &str) -> anyhow::Result<CardEvent>
    ensures { MatchResult result (λ e. SaysEvent text.now e) (λ _. (e : CardEvent) → SaysEvent text.now e → ⊥) }
{
    let (kind, argument) = text.split_once(':').context("an event has no argument")?;
    Ok(CardEvent {
        kind: kind.parse::<u8>()?,
        argument: argument.parse::<u32>()?,
    })
}
