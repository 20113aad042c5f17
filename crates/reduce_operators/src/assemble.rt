// A translation put together from its parts.
ghost use Rattle.std.specs.Prelude.{◌<◌, ◌≤◌, length, ltb};
ghost use Rattle.format_fields.specs.Fields.{field, encode_field};
ghost use Rattle.outcome.specs.Outcome.{value, refuse_if};
ghost use Rattle.outcome.specs.declared.Reason.TheVariants.{ValueTooLarge};
ghost use Rattle.format_fields.specs.Inner.Writing.{Stores};
ghost use Rattle.reduce_operators.specs.Inner.Values.{Gives};
ghost use Rattle.reduce_operators.specs.Inner.Assembled.{assembled};

use super::limit::limited;
use super::parts::Parts;
use format_fields::copy::{put, put_both, put_pair};
use format_translation::parts::{SOURCE, TARGET, TRANSLATION_LIMIT};
use outcome::Outcome;

// A field of this tag with the bytes s as its contents, into the output from n on.
fn put_field(tag: u8, s: &[u8], out: &mut [u8], n: usize) -> Option<usize>
    requires { (length s.now < 65536) × (n ≤ length out.old) }
    ensures { Stores (encode_field (field tag s.now)) out.old out.new n result }
{
    let size = s.len();
    let mut head = [tag, 0, 0];
    put_pair(size, &mut head, 1);
    put_both(&head, 0, 3, s, 0, size, out, n)
}

// The three parts behind each other: both languages as fields.
fn put_parts(parts: Parts<'_>, out: &mut [u8]) -> Option<usize>
    requires { (length parts.source.now ≤ 1024) × (length parts.target.now ≤ 1024) }
    ensures { Stores (assembled parts.entry.source.now parts.entry.target.now parts.entry.body.now) out.old out.new 0 result }
{
    let n = put_field(SOURCE, parts.source, out, 0)?;
    let n = put_field(TARGET, parts.target, out, n)?;
    put(parts.body, 0, parts.body.len(), out, n)
}

// Field 20 with the source, field 21 with the target, then the body, into the output; 11 where that is over 4,096
// bytes.
pub fn assemble(parts: Parts<'_>, out: &mut [u8]) -> Outcome
    requires { (length parts.source.now ≤ 1024) × (length parts.target.now ≤ 1024) × (4096 ≤ length out.old) }
    ensures { Gives (refuse_if (ltb 4096 (length (assembled parts.entry.source.now parts.entry.target.now parts.entry.body.now))) ValueTooLarge (value (assembled parts.entry.source.now parts.entry.target.now parts.entry.body.now))) out.old out.new result }
{
    limited(put_parts(parts, out), TRANSLATION_LIMIT)
}
