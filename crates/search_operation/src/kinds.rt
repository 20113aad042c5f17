// What a search knows of each kind of the source: the kind that it maps to by number 0, and 32 places behind it a name below
// which none of its productions has one.
ghost use Rattle.std.specs.Prelude.{◌≡◌, ℕ, ◌+◌, ◌-◌, ◌*◌, ◌<◌, length, get_or};
ghost use Rattle.format_translation.specs.Translation.{Body};
ghost use Rattle.format_translation.specs.Inner.ItemIndex.{Mapped as UsesOf};
ghost use Rattle.search_levels.specs.Inner.Setting.{Unnamed};
ghost use Rattle.search_operation.specs.Inner.Finding.{Mapped};

use check_wellformed::check::USES_ROOM;
use format_fields::bytes::byte_at;
use run_table::table::index_at;
use search_levels::names::name_from;
use tree_reader::index::TABLE;
use tree_reader::operands::{KINDS, NAMES};

// The kind that a kind maps to by number 0, by what kinds map to; 0 where it is not mapped.
fn mapped_kind(uses: &[u8; USES_ROOM], kind: usize) -> u8
    requires { kind < 32 }
    ensures { result ≡ get_or uses.now (kind * 256) 0 - 1 }
{
    byte_at(uses, kind * NAMES).saturating_sub(1)
}

// A name below which no production of a kind has one: its lowest, where it has any.
fn lowest_name(table: &[u16; TABLE], uses: &[u8; USES_ROOM], kind: usize) -> u8
    requires { kind < 32 }
    ensures { Unnamed table.now kind 0 result }
{
    if byte_at(uses, kind * NAMES) == 0 {
        return 0;
    }
    if index_at(table, kind) != 0 {
        return 0;
    }
    match name_from(table, kind, 0) {
        Some(name) => name as u8,
        None => 0,
    }
}

// Puts both for all kinds.
pub fn put_kinds(table: &[u16; TABLE], uses: &[u8; USES_ROOM], kinds: &mut [u8])
    requires { length kinds.old ≡ 64 }
    ensures { ((b : Body) → UsesOf uses.now b → Mapped kinds.new b)
        × ((k : ℕ) → k < 32 → Unnamed table.now k 0 (get_or kinds.new (32 + k) 0)) }
{
    for kind in 0..KINDS {
        kinds[kind] = mapped_kind(uses, kind);
        kinds[KINDS + kind] = lowest_name(table, uses, kind);
    }
}
