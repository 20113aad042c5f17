// The operations export and import.
ghost use Rattle.std.specs.Prelude.{◌≡◌};
ghost use Rattle.format_language.specs.Language.{Language};
ghost use Rattle.tree_reader.specs.Inner.Index.{Ready, Indexed};
ghost use Rattle.xml_operations.specs.Operations.{export_tree, import_tree};
ghost use Rattle.xml_operations.specs.Inner.Answering.{GivesTree, GivesWhole};

use crate::export::export_all;
use crate::measure::{Ends, measure_all};
use check_operations::open::open_language;
use outcome::{Answer, Outcome, Reason};
use tree_reader::index::INDEX;
use tree_reader::read::TREE_LEVELS;
use xml_text::contents::{has_room, write_contents};
use xml_text::import::text_at;

// The export of the tree of a kind: 15 and 16 in reading order, 17 where it is longer than the output. It is measured while the
// tree is read, and only then written.
fn export_tree(language: &[u8], index: &[u16], kind: u8, tree: &[u8], output: &mut [u8]) -> Outcome
    requires { Ready index.now language.now kind tree.now 0 × ((l : Language) × Indexed index.now language.now l) }
    ensures { GivesTree language.now index.now kind tree.now output.old output.new result }
{
    let ends = measure_all(language, index, kind, tree)?;
    if ends.tree != tree.len() {
        return Err(Reason::IllegalTree);
    }
    if output.len() < ends.text {
        return Err(Reason::OutputTooShort);
    }
    let start = Ends { tree: 0, text: 0 };
    export_all(&[kind], language, index, tree, TREE_LEVELS, output, start);
    Ok(ends.text)
}

// Export, of a language that is opened first.
fn export_opened(language: &[u8], root: u32, tree: &[u8], output: &mut [u8]) -> Outcome
    ensures { (result ≡ (export_tree language.now root tree.now output.old).outcome)
        × (output.new ≡ (export_tree language.now root tree.now output.old).output) }
{
    let mut index = [0u16; INDEX];
    open_language(language, root, &mut index)?;
    export_tree(language, &index, root as u8, tree, output)
}

// Export: 1 to 4 for the language, 14 for the root, 15 and 16 for the tree, 17 where the text is longer than the output.
pub fn export(language: &[u8], root: u32, tree: &[u8], output: &mut [u8]) -> Answer
    ensures { (result.outcome ≡ (export_tree language.now root tree.now output.old).outcome)
        × (output.new ≡ (export_tree language.now root tree.now output.old).output) }
{
    Answer::from(export_opened(language, root, tree, output))
}

// The tree of a kind whose export the text is: 16 and 20 in reading order, 17 where it is longer than the output.
fn import_text(language: &[u8], index: &[u16], kind: u8, text: &[u8], output: &mut [u8]) -> Outcome
    requires { Ready index.now language.now kind text.now 0 }
    ensures { GivesWhole language.now index.now kind text.now output.old output.new result }
{
    let end = text_at(language, index, kind, text)?;
    if end != text.len() {
        return Err(Reason::NotAnExport);
    }
    if !has_room(text, output.len()) {
        return Err(Reason::OutputTooShort);
    }
    Ok(write_contents(text, output))
}

// Import, of a language that is opened first.
fn import_opened(language: &[u8], root: u32, text: &[u8], output: &mut [u8]) -> Outcome
    ensures { (result ≡ (import_tree language.now root text.now output.old).outcome)
        × (output.new ≡ (import_tree language.now root text.now output.old).output) }
{
    let mut index = [0u16; INDEX];
    open_language(language, root, &mut index)?;
    import_text(language, &index, root as u8, text, output)
}

// Import: 1 to 4 for the language, 14 for the root, 16 and 20 in reading order, 17 where the tree is longer than the output.
pub fn import(language: &[u8], root: u32, text: &[u8], output: &mut [u8]) -> Answer
    ensures { (result.outcome ≡ (import_tree language.now root text.now output.old).outcome)
        × (output.new ≡ (import_tree language.now root text.now output.old).output) }
{
    Answer::from(import_opened(language, root, text, output))
}
