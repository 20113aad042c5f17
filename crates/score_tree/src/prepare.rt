// What a score asks of language, table and root, before the tree is looked at.
ghost use Rattle.std.specs.Prelude.{◌≡◌, length};
ghost use Rattle.outcome.specs.Outcome.{value};
ghost use Rattle.score_tree.specs.Inner.Kept.{Small};
ghost use Rattle.score_tree.specs.Inner.Results.{settled};
ghost use Rattle.score_tree.specs.Inner.Answering.{Ground, ground_of, Prepared};

use crate::table::read_table;
use check_operations::open::is_root;
use format_language::check::check_language;
use outcome::Reason;

// 1 to 4 for the language, 18 for the table, 14 for the root. The figures of the table are kept by the positions of the
// language's bytes.
pub fn prepare(language: &[u8], root: u32, table: &[u8], figures: &mut [i32]) -> Result<(), Reason>
    requires { (length figures.old ≡ 1024) × Small figures.old }
    ensures is { result ≡ settled (ground_of language.now root table.now) }
    ensures held { (g : Ground) → ground_of language.now root table.now ≡ value g → Prepared language.now figures.new root g }
{
    check_language(language).outcome?;
    read_table(language, table, figures)?;
    if !is_root(language, root) {
        return Err(Reason::UnknownRoot);
    }
    Ok(())
}
