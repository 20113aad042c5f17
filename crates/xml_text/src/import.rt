// The tree that a text is the export of: whether there is one, and where its text ends.
ghost use Rattle.std.specs.Prelude.{◌≡◌, ◌≢◌, ◌+◌, ◌-◌, ◌<◌, ◌≤◌, length, get_or, MatchOption};
ghost use Rattle.outcome.specs.declared.Reason.TheVariants.{TooDeep, NotAnExport};
ghost use Rattle.tree_reader.specs.Operations.{tree_levels};
ghost use Rattle.tree_reader.specs.Inner.Index.{Ready, index_length};
ghost use Rattle.xml_text.specs.Inner.Importing.{Inside, Elements, ImportsTree, place_of, row_kinds, reason_of};

use crate::scan::{closing_at, is_token, opening_at, token_at};
use outcome::Reason;
use tree_reader::node::place_at;
use tree_reader::operands::{NAMES, Operands, operands_of, production_key};
use tree_reader::read::TREE_LEVELS;

// A tree has at most 64 levels.
const LEVELS: usize = TREE_LEVELS;

// Why a text is not read: the tree has one level too many, or the text is no export.
#[derive(Clone, Copy, Debug, PartialEq, Eq)]
pub enum TextError {
    Deep,
    Broken,
}

impl From<TextError> for Reason {
    ghost from_gives = { λ error reason. reason ≡ reason_of error };

    fn from(error: TextError) -> Reason {
        match error {
            TextError::Deep => Reason::TooDeep,
            TextError::Broken => Reason::NotAnExport,
        }
    }
}

// A row that waits: the kinds that are left of it. The opening tag of the tree in it that is being read stands at `tag`, and the
// closing tag of that has `size` bytes.
#[derive(Clone, Copy)]
struct Row {
    kinds: Operands,
    tag: usize,
    size: usize,
}

// The place of a production in the index, if it has one.
fn place_of(index: &[u16], kind: u8, name: usize) -> Option<usize>
    requires { (index_length ≤ length index.now) × (kind < 32) }
    ensures { MatchOption result (place_of index.now kind name ≡ 0) (λ place. (place ≡ place_of index.now kind name) × (place ≢ 0)) }
{
    if NAMES <= name {
        return None;
    }
    let place = place_at(index, production_key(usize::from(kind), name));
    if place == 0 { None } else { Some(place) }
}

// The opening tag of an element of a kind that is no class: where the kinds of its arguments stand, and the position behind the tag.
fn element_at(
    language: &[u8],
    index: &[u16],
    kind: u8,
    text: &[u8],
    at: usize,
) -> Option<(Operands, usize)>
    requires { Ready index.now language.now kind text.now at }
    ensures { Elements language.now index.now kind text.now at result }
{
    let (name, end) = opening_at(kind, text, at)?;
    let place = place_of(index, kind, name)?;
    Some((operands_of(language, place), end))
}

// The kind at a position of the row at a depth: the outermost row is the root alone, any other stands in the language.
pub fn kind_at(language: &[u8], root: u8, depth: usize, at: usize) -> u8
    requires { at < length (row_kinds root language.now depth) }
    ensures { result ≡ get_or (row_kinds root language.now depth) at 0 }
{
    if depth == 0 {
        return root;
    }
    language[at]
}

// The tree of a kind at the front of a text: the position behind it. The rows above the one that is read wait, the outermost first.
pub fn text_at(language: &[u8], index: &[u16], root: u8, text: &[u8]) -> Result<usize, TextError>
    requires { Ready index.now language.now root text.now 0 }
    ensures { Inside text.now result
        × ImportsTree language.now index.now root text.now 0 tree_levels result }
{
    let mut rows = [Row {
        kinds: Operands { first: 0, last: 0 },
        tag: 0,
        size: 0,
    }; LEVELS];
    let mut depth = 0;
    let mut row = Operands { first: 0, last: 1 };
    let mut to = 0;
    loop {
        if row.last <= row.first {
            if depth == 0 {
                return Ok(to);
            }
            depth -= 1;
            let above = rows[depth];
            to = closing_at(text, above.tag, above.size, to).ok_or(TextError::Broken)?;
            row = above.kinds;
            continue;
        }
        let kind = kind_at(language, root, depth, row.first);
        let class = place_at(index, usize::from(kind));
        row.first += 1;
        if is_token(class, text, to) {
            (_, to) = token_at(language, class - 1, kind, text, to).ok_or(TextError::Broken)?;
            continue;
        }
        if class != 0 {
            return Err(TextError::Broken);
        }
        if depth == LEVELS {
            return Err(TextError::Deep);
        }
        let (operands, end) = element_at(language, index, kind, text, to).ok_or(TextError::Broken)?;
        rows[depth] = Row {
            kinds: row,
            tag: to,
            size: end - to + 1,
        };
        depth += 1;
        row = operands;
        to = end;
    }
}
