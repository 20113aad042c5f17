// The operation reduce (paper 01, "Operations and their refusals").
ghost use Rattle.std.specs.Prelude.{◌≡◌, List, [], ℕ, ◌≤◌, length, take, Ok};
ghost use Rattle.outcome.specs.Outcome.{Result, value, checked, written, output_after};
ghost use Rattle.format_translation.specs.Translation.{Translation};
ghost use Rattle.format_pack.specs.Terms.{translations};
ghost use Rattle.format_pack.specs.Pack.{pack_of, term_of};
ghost use Rattle.reduce_signs.specs.Evaluation.{constants_of, evaluate, nothing_bound};
ghost use Rattle.reduce_operation.specs.Operations as Operations;
ghost use Rattle.reduce_operation.specs.Operations.{Ready};
ghost use Rattle.reduce_operation.specs.Inner.Delivery.{file_of};
ghost use Rattle.reduce_terms.specs.Inner.Reducing.{Says};

use format_fields::copy::{clear, put};
use format_pack::check::check_pack;
use format_pack::parts::term_start;
use format_pack::term::{TERM_LEVELS, check_term};
use format_translation::parts::TRANSLATION_LIMIT;
use outcome::{Answer, Outcome, Reason};
use reduce_signs::evaluated::Evaluated;
use reduce_signs::places::nothing;
use reduce_terms::terms::translation_term;

// The least length of a workspace.
pub const WORKSPACE: usize = 65536;

// The least length of an output: any translation fits.
const OUTPUT: usize = TRANSLATION_LIMIT;

// 1 to 4, 8 and 9: the pack, its term, and the lengths of workspace and output.
fn ready(pack: &[u8], workspace: usize, output: usize) -> Outcome
    ensures { result ≡ checked (Operations.ready pack.now workspace output) }
{
    check_pack(pack)?;
    check_term(pack)?;
    if workspace < WORKSPACE {
        return Err(Reason::BuffersTooShort);
    }
    if output < OUTPUT {
        return Err(Reason::BuffersTooShort);
    }
    Ok(0)
}

// The term of a pack, evaluated over the workspace into the buffer.
fn work(pack: &[u8], workspace: &mut [u8], buffer: &mut [u8]) -> Evaluated
    requires { ((d : Ready) × (pack_of pack.now ≡ value d.pack) × (term_of d.pack ≡ value d.term))
        × (65536 ≤ length workspace.old) × (4096 ≤ length buffer.old) }
    ensures { ((d : Ready) → pack_of pack.now ≡ value d.pack → term_of d.pack ≡ value d.term
        → Says translations (evaluate (constants_of d.pack) nothing_bound d.term) pack.now [] buffer.new result)
        × (length workspace.new ≡ length workspace.old) }
{
    let start = term_start(pack);
    translation_term(pack, start, TERM_LEVELS, nothing(), workspace, 0, buffer)
}

// Writes the first n bytes to the output, and accepts that length.
fn write(bytes: &[u8], n: usize, output: &mut [u8]) -> Outcome
    requires { (n ≤ length bytes.now) × (n ≤ length output.old) }
    ensures { (result ≡ Ok n) × (output.new ≡ output_after output.old (value (take n bytes.now))) }
{
    put(bytes, 0, n, output, 0);
    Ok(n)
}

// The value, written to the output, which changes only where it is accepted.
fn deliver(evaluated: Evaluated, buffer: &[u8], output: &mut [u8]) -> Outcome
    requires { ((o : Result Translation) × ((bytes : List ℕ) × ((rest : List ℕ) × Says translations o bytes rest buffer.now evaluated))) × (4096 ≤ length output.old) }
    ensures { (o : Result Translation) (bytes rest : List ℕ) → Says translations o bytes rest buffer.now evaluated
        → (result ≡ written (file_of o)) × (output.new ≡ output_after output.old (file_of o)) }
{
    let ended = evaluated?;
    write(buffer, ended.value, output)
}

// The outcome of reduce.
fn reduce_ready(pack: &[u8], workspace: &mut [u8], output: &mut [u8]) -> Outcome
    ensures { (result ≡ (Operations.reduce pack.now workspace.old output.old).outcome)
        × (output.new ≡ (Operations.reduce pack.now workspace.old output.old).output)
        × (workspace.new ≡ (Operations.reduce pack.now workspace.old output.old).workspace) }
{
    ready(pack, workspace.len(), output.len())?;
    let mut buffer = [0u8; OUTPUT];
    let evaluated = work(pack, workspace, &mut buffer);
    let outcome = deliver(evaluated, &buffer, output);
    clear(workspace);
    outcome
}

// Reduce: the translation that the pack's term comes to, or the refusal.
pub fn reduce(pack: &[u8], workspace: &mut [u8], output: &mut [u8]) -> Answer
    ensures { (result.outcome ≡ (Operations.reduce pack.now workspace.old output.old).outcome)
        × (output.new ≡ (Operations.reduce pack.now workspace.old output.old).output)
        × (workspace.new ≡ (Operations.reduce pack.now workspace.old output.old).workspace) }
{
    Answer::from(reduce_ready(pack, workspace, output))
}
