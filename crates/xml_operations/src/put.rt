// Tags and tokens, written byte by byte into an output that has room for them.
ghost use Rattle.std.specs.Prelude.{◌≡◌, [], ◌∷◌, ◌++◌, ◌+◌, ◌*◌, ◌<◌, ◌≤◌, length};
ghost use Rattle.format_fields.specs.Inner.Writing.{Written};
ghost use Rattle.format_fields.specs.Decimal.{decimal};
ghost use Rattle.xml_text.specs.Text.{node_tag, token_tag, open_node, close_node, open_token, close_token, point, tag_end};

use xml_text::tags::{END, NODE, OPEN, POINT, SLASH, TOKEN, ZERO};

// Writes a byte.
fn write_byte(byte: u8, out: &mut [u8], n: usize) -> usize
    requires { n < length out.old }
    ensures { Written (byte ∷ []) out.old out.new n result }
{
    out[n] = byte;
    n + 1
}

// Writes a digit.
fn write_digit(digit: usize, out: &mut [u8], n: usize) -> usize
    requires { (digit < 10) × (n < length out.old) }
    ensures { Written ((48 + digit) ∷ []) out.old out.new n result }
{
    out[n] = ZERO + digit as u8;
    n + 1
}

// How many digits a number has in decimal.
pub fn width(number: usize) -> usize
    requires { number < 65536 }
    ensures { (result ≡ length (decimal number)) × (result ≤ 5) }
{
    match number {
        0..=9 => 1,
        10..=99 => 2,
        100..=999 => 3,
        1000..=9999 => 4,
        _ => 5,
    }
}

// Writes a number of one or two digits.
fn write_short(number: usize, out: &mut [u8], n: usize) -> usize
    requires { (number < 100) × (n + length (decimal number) ≤ length out.old) }
    ensures { Written (decimal number) out.old out.new n result }
{
    if number < 10 {
        return write_digit(number, out, n);
    }
    let a = write_digit(number / 10, out, n);
    write_digit(number % 10, out, a)
}

// Writes a number of four or five digits.
fn write_long(number: usize, out: &mut [u8], n: usize) -> usize
    requires { (1000 ≤ number) × (number < 65536) × (n + length (decimal number) ≤ length out.old) }
    ensures { Written (decimal number) out.old out.new n result }
{
    if number < 10000 {
        let a = write_short(number / 100, out, n);
        let b = write_digit(number / 10 % 10, out, a);
        return write_digit(number % 10, out, b);
    }
    let a = write_short(number / 1000, out, n);
    let b = write_digit(number / 100 % 10, out, a);
    let c = write_digit(number / 10 % 10, out, b);
    write_digit(number % 10, out, c)
}

// Writes a number of at most three digits.
fn write_small(number: usize, out: &mut [u8], n: usize) -> usize
    requires { (number < 1000) × (n + length (decimal number) ≤ length out.old) }
    ensures { Written (decimal number) out.old out.new n result }
{
    if number < 100 {
        return write_short(number, out, n);
    }
    let a = write_short(number / 10, out, n);
    write_digit(number % 10, out, a)
}

// Writes a number in decimal.
fn write_number(number: usize, out: &mut [u8], n: usize) -> usize
    requires { (number < 65536) × (n + length (decimal number) ≤ length out.old) }
    ensures { Written (decimal number) out.old out.new n result }
{
    if number < 1000 {
        return write_small(number, out, n);
    }
    write_long(number, out, n)
}

// Writes what the tags of a production end with.
fn write_name(kind: usize, name: usize, out: &mut [u8], n: usize) -> usize
    requires { (kind < 100) × (name < 1000) × (n + length (decimal kind) + length (decimal name) + 2 ≤ length out.old) }
    ensures { Written (decimal kind ++ (point ++ (decimal name ++ tag_end))) out.old out.new n result }
{
    let a = write_short(kind, out, n);
    let b = write_byte(POINT, out, a);
    let c = write_small(name, out, b);
    write_byte(END, out, c)
}

// Writes the opening tag of a production.
pub fn write_opening(kind: usize, name: usize, out: &mut [u8], n: usize) -> usize
    requires { (kind < 100) × (name < 1000) × (n + (4 + length (decimal kind) + length (decimal name)) ≤ length out.old) }
    ensures { Written (node_tag open_node kind name) out.old out.new n result }
{
    let a = write_byte(OPEN, out, n);
    let b = write_byte(NODE, out, a);
    write_name(kind, name, out, b)
}

// Writes the closing tag of a production.
pub fn write_closing(kind: usize, name: usize, out: &mut [u8], n: usize) -> usize
    requires { (kind < 100) × (name < 1000) × (n + (5 + length (decimal kind) + length (decimal name)) ≤ length out.old) }
    ensures { Written (node_tag close_node kind name) out.old out.new n result }
{
    let a = write_byte(OPEN, out, n);
    let b = write_byte(SLASH, out, a);
    let c = write_byte(NODE, out, b);
    write_name(kind, name, out, c)
}

// Writes what the tags of a token end with.
fn write_kind(kind: usize, out: &mut [u8], n: usize) -> usize
    requires { (kind < 100) × (n + length (decimal kind) + 2 ≤ length out.old) }
    ensures { Written (116 ∷ (decimal kind ++ tag_end)) out.old out.new n result }
{
    let a = write_byte(TOKEN, out, n);
    let b = write_short(kind, out, a);
    write_byte(END, out, b)
}

// Writes a token with its tags.
pub fn write_token(kind: usize, value: usize, out: &mut [u8], n: usize) -> usize
    requires { (kind < 100) × (value < 65536)
        × (n + (7 + 2 * length (decimal kind) + length (decimal value)) ≤ length out.old) }
    ensures { Written (token_tag open_token kind ++ (decimal value ++ token_tag close_token kind)) out.old out.new n result }
{
    let a = write_byte(OPEN, out, n);
    let b = write_kind(kind, out, a);
    let c = write_number(value, out, b);
    let d = write_byte(OPEN, out, c);
    let e = write_byte(SLASH, out, d);
    write_kind(kind, out, e)
}
