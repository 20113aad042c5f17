// The codes: each clause's code is of the kind that its result maps to by its number.
ghost use Rattle.std.specs.Prelude.{◌≡◌, true, [], ℕ, ◌<◌, ◌≤◌, length, get_or};
ghost use Rattle.std.proofs.Math.Option;
ghost use Rattle.std.proofs.Math.Seq.{slice};
ghost use Rattle.format_fields.specs.Inner.Places.{field_end, key_at, places_from, Skipped};
ghost use Rattle.format_fields.specs.Lists.{all, is_some};
ghost use Rattle.format_language.specs.Language.{Language, production_key};
ghost use Rattle.format_language.specs.Inner.Entries.{RisingEntries};
ghost use Rattle.tree_reader.specs.Syntax.{read as read_code, code};
ghost use Rattle.tree_reader.specs.Inner.Index.{Sound, Indexed, arguments_before};
ghost use Rattle.tree_reader.specs.Inner.Positions.{uses_in};
ghost use Rattle.format_translation.specs.Translation.{Translation};
ghost use Rattle.format_translation.specs.Running.{whole_code, code_levels};
ghost use Rattle.format_translation.specs.WellFormed.{code_fits};
ghost use Rattle.format_translation.specs.Inner.Items.{item_at};
ghost use Rattle.check_wellformed.specs.Inner.Ready.{Holds, index_of, uses_room};
ghost use Rattle.check_wellformed.specs.Inner.Tests.{is_clause_at, ClauseAt, Behind};

use super::clauses::place_of;
use super::parts::Parts;
use format_fields::copy::put;
use format_fields::walk::{MAPPING, skip_below, whole_end, whole_key};
use format_language::entries::CLASS;
use format_translation::clause::{clause_number, code_start};
use format_translation::index::mapped_by;
use tree_reader::node::USES;
use tree_reader::operands::operands_of;
use tree_reader::read::{CODE_LEVELS, read_code};

// Puts the kinds of the arguments of the production of this key behind the uses of the mappings, and says where they end.
// Entries of the source before q have lesser keys, and the one at q has not.
fn put_arguments(source: &[u8], q: usize, key: usize, uses: &mut [u8]) -> usize
    requires { ((l : Language) × Indexed (index_of source.now) source.now l) × ((k : ℕ) × (n : ℕ) × (k < 32) × (n < 256) × (key ≡ production_key k n)) × (length uses.old ≡ uses_room)
        × RisingEntries source.now × Skipped 0x11 key source.now 0 q }
    ensures { Behind uses.old uses.new (Option.get_or (arguments_before source.now (get_or (index_of source.now) key 0)) []) result }
{
    let Some(p) = place_of(source, q, key) else {
        return USES;
    };
    let arguments = operands_of(source, p + 1);
    if arguments.last <= arguments.first {
        return USES;
    }
    put(source, arguments.first, arguments.last, uses, USES).unwrap()
}

// The code from p up to e, with nothing after it, is of the kind; it has these uses.
fn code_reads(parts: &Parts, uses: &[u8], kind: u8, p: usize, e: usize) -> bool
    requires { (p ≤ e) × (e ≤ length parts.now.body.now) × (kind < 32) × Sound parts.now.targets.now parts.now.target.now }
    ensures { (l : Language) → Indexed parts.now.targets.now parts.now.target.now l
        → result ≡ is_some (whole_code (read_code code l (uses_in uses.now) code_levels kind (slice p e parts.now.body.now))) }
{
    let code = &parts.body[p..e];
    let end = read_code(
        parts.target,
        parts.targets,
        uses,
        kind,
        code,
        0,
        CODE_LEVELS,
    );
    end == Ok(e - p)
}

// The code of the clause from p up to e is of the kind that its result maps to by its number. The kinds of the arguments
// are left behind the uses of the mappings. Its production, if there is one, stands at q.
fn code_typed(parts: &Parts, q: usize, p: usize, e: usize, uses: &mut [u8]) -> bool
    requires { (e ≡ field_end parts.now.body.now p) × ClauseAt parts.now.body.now p × Skipped 0x11 (key_at 0x22 parts.now.body.now p) parts.now.source.now 0 q
        × ((f : Translation) × Holds parts.now uses.old f) }
    ensures { (f : Translation) → Holds parts.now uses.old f → (result ≡ code_fits f (item_at parts.now.body.now p)) × Holds parts.now uses.new f }
{
    let body = parts.body;
    let kind = mapped_by(uses, body[p + 3], clause_number(body, p));
    let end = put_arguments(parts.source, q, whole_key(body, p, MAPPING), uses);
    code_reads(parts, &uses[..end], kind, code_start(body, p), e)
}

// Every code fits, of the clauses from p on; the productions of the source stand from q on. Both stand by rising key, so that
// the production of a clause is found beside it. What kinds map to stays.
pub fn codes_typed(parts: &Parts, q: usize, p: usize, uses: &mut [u8]) -> bool
    requires { (all (is_clause_at parts.now.body.now) (places_from parts.now.body.now p) ≡ true) × Skipped 0x11 32 parts.now.source.now 0 q × Skipped 0x22 8192 parts.now.body.now 0 p
        × ((f : Translation) × Holds parts.now uses.old f) }
    ensures { (f : Translation) → Holds parts.now uses.old f
        → (result ≡ all (λ x. code_fits f (item_at parts.now.body.now x)) (places_from parts.now.body.now p)) × Holds parts.now uses.new f }
{
    let body = parts.body;
    let mut from = q;
    let mut to = p;
    while to < body.len() {
        from = skip_below(parts.source, from, CLASS, whole_key(body, to, MAPPING));
        let e = whole_end(body, to);
        if !code_typed(parts, from, to, e, uses) {
            return false;
        }
        to = e;
    }
    true
}
