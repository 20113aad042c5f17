// Bytes that are put into the output. A position past its end says that they do not fit.
ghost use Rattle.std.specs.Prelude.{[], ◌∷◌, ◌++◌, ◌+◌, ◌≤◌, length};
ghost use Rattle.tree_reader.specs.Code as Terms;
ghost use Rattle.tree_reader.specs.Syntax as Meant;
ghost use Rattle.tree_reader.specs.Syntax.{sign, write};
ghost use Rattle.tree_reader.specs.declared.node.Syntax.TheVariants.{Code};
ghost use Rattle.tree_reader.specs.Inner.Positions.{syntax_of};
ghost use Rattle.run_table.specs.Inner.Stands.{Wrote};
ghost use Rattle.run_emit.specs.Inner.Runs.{leaf_length, code_leaf_run, LeafLow};

use crate::skip::leaf_number;
use tree_reader::node::Syntax;

// Puts bytes, of which there are few.
fn put<const N: usize>(bytes: [u8; N], output: &mut [u8], pos: usize) -> usize
    requires { (N ≤ 3) × (pos ≤ length output.old) }
    ensures { Wrote bytes.entry output.old output.new pos result }
{
    let end = pos + N;
    if output.len() < end {
        return end;
    }
    output[pos..end].copy_from_slice(&bytes);
    end
}

// Puts a production's name, with its sign in a code.
pub fn put_name(syntax: Syntax, name: u8, output: &mut [u8], pos: usize) -> usize
    requires { pos ≤ length output.old }
    ensures { Wrote (sign (syntax_of syntax) 1 ++ name ∷ []) output.old output.new pos result }
{
    match syntax {
        Syntax::Tree => put([name], output, pos),
        Syntax::Code => put([1, name], output, pos),
    }
}

// Puts two bytes, a token's, with its sign in a code.
pub fn put_token(syntax: Syntax, high: u8, low: u8, output: &mut [u8], pos: usize) -> usize
    requires { pos ≤ length output.old }
    ensures { Wrote (sign (syntax_of syntax) 2 ++ high ∷ low ∷ []) output.old output.new pos result }
{
    match syntax {
        Syntax::Tree => put([high, low], output, pos),
        Syntax::Code => put([2, high, low], output, pos),
    }
}

// Puts a use of an argument by a number into a code.
fn put_use(argument: u8, number: u8, output: &mut [u8], pos: usize) -> usize
    requires { pos ≤ length output.old }
    ensures { Wrote (write Meant.code (Terms.argument «argument» «number»)) output.old output.new pos result }
{
    if number == 0 {
        return put([3, argument], output, pos);
    }
    put([4, argument, number], output, pos)
}

// Puts the run by a number of the leaf of a code at a position: a token stays itself, an argument is used by its number and
// this one paired.
pub fn put_code_leaf(input: &[u8], at: usize, number: usize, output: &mut [u8], pos: usize) -> usize
    requires { (at + leaf_length Code input.now at ≤ length input.now) × LeafLow input.now at number × (pos ≤ length output.old) }
    ensures { Wrote (code_leaf_run input.now at number) output.old output.new pos result }
{
    if input[at] == 2 {
        return put([2, input[at + 1], input[at + 2]], output, pos);
    }
    let by = 16 * leaf_number(input, at) + number;
    put_use(input[at + 1], by as u8, output, pos)
}
