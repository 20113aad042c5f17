// What a production is called in an index, and where the kinds of its operands stand in the language.
ghost use Rattle.std.specs.Prelude.{◌≡◌, ◌+◌, ◌<◌, ◌≤◌, length};
ghost use Rattle.format_fields.specs.Fields.{pair_at};
ghost use Rattle.format_language.specs.Language.{production_key};
ghost use Rattle.tree_reader.specs.Inner.Index.{index_length};

use format_fields::bytes::pair_in;
use format_fields::walk;

// How many kinds there are; the classes stand first in an index, by their kinds.
pub const KINDS: usize = walk::KINDS;

// How many names the productions of a kind can have.
pub const NAMES: usize = walk::NAMES;

// The kinds of a production's operands stand in the language from `first` up to `last`.
#[derive(Clone, Copy)]
pub struct Operands {
    pub first: usize,
    pub last: usize,
}

// Where the production of a kind and a name stands in an index.
pub fn production_key(kind: usize, name: usize) -> usize
    requires { (kind < 32) × (name < 256) }
    ensures { (result ≡ production_key kind name) × (result < index_length) }
{
    KINDS + (kind * NAMES + name)
}

// Where the kinds of the operands begin, of the production whose field stands before `place`.
pub fn first_operand(place: usize) -> usize
    requires { place < 65536 }
    ensures { result ≡ place + 4 }
{
    place + 4
}

// Where they end.
pub fn last_operand(language: &[u8], place: usize) -> usize
    requires { place + 1 < length language.now }
    ensures { result ≡ place + 2 + pair_at language.now place }
{
    place + 2 + pair_in(language, place)
}

// The operands of the production whose field stands before `place`.
pub fn operands_of(language: &[u8], place: usize) -> Operands
    requires { (place < 65536) × (place + 1 < length language.now) }
    ensures { (result.first ≡ place + 4) × (result.last ≡ place + 2 + pair_at language.now place) }
{
    Operands {
        first: first_operand(place),
        last: last_operand(language, place),
    }
}

// How many operands it has: its length says them, and result and name.
pub fn operand_count(language: &[u8], place: usize) -> usize
    requires { (place + 1 < length language.now) × (2 ≤ pair_at language.now place) }
    ensures { result + 2 ≡ pair_at language.now place }
{
    pair_in(language, place) - 2
}
