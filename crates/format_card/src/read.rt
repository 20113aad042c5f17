// The card in bytes.
ghost use Rattle.std.specs.Prelude.{◌≡◌};
ghost use Rattle.format_card.specs.Card.{card_of};
ghost use Rattle.format_card.specs.Inner.Sets.{is_card, card_with, Reads};

use crate::set::only;
use format_fields::bytes::pair_in;
use format_language::entries::KINDS;
use outcome::Reason;

// The tag of a card.
const CARD: u8 = 0x27;

// The bytes are one field of the card's tag, and nothing else.
fn is_card(card: &[u8]) -> bool
    ensures { result ≡ is_card card.now }
{
    if card.len() < 3 {
        return false;
    }
    if card[0] != CARD {
        return false;
    }
    pair_in(card, 1) == card.len() - 3
}

// The set of the kinds that a card with these contents lets be seen: 2 where a number is no kind, 3 where the kinds do not rise.
fn contents(bytes: &[u8]) -> Result<u32, Reason>
    ensures { Reads (card_with bytes.now) result }
{
    let mut kinds = 0;
    let mut least = 0;
    let mut rising = true;
    for &kind in bytes {
        if KINDS <= kind {
            return Err(Reason::BrokenField);
        }
        if kind < least {
            rising = false;
        } else {
            kinds += only(kind);
            least = kind + 1;
        }
    }
    if !rising {
        return Err(Reason::OutOfOrder);
    }
    Ok(kinds)
}

// Reads a card, to the set of the kinds that may be seen: 2 where it is broken, 3 where its kinds do not rise.
pub fn read_card(card: &[u8]) -> Result<u32, Reason>
    ensures { Reads (card_of card.now) result }
{
    if !is_card(card) {
        return Err(Reason::BrokenField);
    }
    contents(&card[3..])
}
