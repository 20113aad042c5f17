// Text that is put into a buffer.
ghost use Rattle.std.specs.Prelude.{◌≡◌, [], ◌∷◌, ◌+◌, ◌*◌, ◌<◌, ◌≤◌, length};
ghost use Rattle.format_fields.specs.Decimal.{decimal};
ghost use Rattle.format_fields.specs.Lists.{concat_map};
ghost use Rattle.program_text.specs.Text as Text;
ghost use Rattle.program_text.specs.Inner.Putting.{Puts};

// A byte.
pub fn put(byte: u8, text: &mut [u8], at: usize) -> usize
    requires { at < length text.old }
    ensures { Puts (byte ∷ []) text.old text.new at result }
{
    text[at] = byte;
    at + 1
}

// Bytes as they are.
pub fn put_bytes(bytes: &[u8], text: &mut [u8], at: usize) -> usize
    requires { at + length bytes.now ≤ length text.old }
    ensures { Puts bytes.now text.old text.new at result }
{
    let end = at + bytes.len();
    text[at..end].copy_from_slice(bytes);
    end
}

// A number below 10,000 in decimal.
fn put_decimal(n: u64, text: &mut [u8], at: usize) -> usize
    requires { (n < 10000) × (at + 4 ≤ length text.old) }
    ensures { Puts (decimal n) text.old text.new at result × (result ≤ at + 4) }
{
    let mut digits = [0u8; 20];
    let k = io::decimal(n, &mut digits);
    put_bytes(&digits[..k], text, at)
}

// A number below 10,000 in decimal, and the byte that comes behind it.
pub fn put_number(n: u64, mark: u8, text: &mut [u8], at: usize) -> usize
    requires { (n < 10000) × (at + 5 ≤ length text.old) }
    ensures { Puts (Text.marked n mark) text.old text.new at result × (result ≤ at + 5) }
{
    let end = put_decimal(n, text, at);
    put(mark, text, end)
}

// A hexadecimal digit, in capitals.
fn capital(digit: u8) -> u8
    requires { digit < 16 }
    ensures { result ≡ Text.capital digit }
{
    if digit < 10 { 48 + digit } else { 55 + digit }
}

// A byte in two hexadecimal digits.
fn put_pair(byte: u8, text: &mut [u8], at: usize) -> usize
    requires { at + 2 ≤ length text.old }
    ensures { Puts (Text.pair_of byte) text.old text.new at result × (result ≡ at + 2) }
{
    let middle = put(capital(byte / 16), text, at);
    put(capital(byte % 16), text, middle)
}

// Bytes in hexadecimal digits, two for each.
pub fn put_hex(bytes: &[u8], text: &mut [u8], at: usize) -> usize
    requires { at + 2 * length bytes.now ≤ length text.old }
    ensures { Puts (concat_map Text.pair_of bytes.now) text.old text.new at result × (result ≡ at + 2 * length bytes.now) }
{
    let mut end = at;
    for &byte in bytes {
        end = put_pair(byte, text, end);
    }
    end
}

// The first line: a word and a number.
pub fn put_first(word: &[u8], n: u64, text: &mut [u8]) -> usize
    requires { (n < 10000) × (length word.now + 5 ≤ length text.old) }
    ensures { Puts (Text.first_line word.now n) text.old text.new 0 result × (result ≤ length word.now + 5) }
{
    let end = put_bytes(word, text, 0);
    put_number(n, b'\n', text, end)
}
