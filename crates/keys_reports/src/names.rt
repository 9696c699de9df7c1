//! Names as they are written in a line of text and in JSON.
ghost use Rattle.std.specs.Prelude.{◌≡◌, ◌<◌, ◌++◌, IfOk, OnOk, flat_map, string_bytes, encode_utf8_all};
ghost use Rattle.std.specs.Char.{digit_char};
ghost use Rattle.keys_reports.specs.Names.{byte_chars, escaped_byte, escaped_bytes, escaped_control, escaped_name};
ghost use Rattle.keys_reports.specs.Names.{json_char, json_string, line_char};

use std::alloc::{AllocError, Allocator};

/// Appends a byte as `\x` and two hexadecimal digits.
fn put_escaped_byte<A: Allocator>(text: &mut String<A>, byte: u8) -> Result<(), AllocError>
    ensures { OnOk result (string_bytes text.new ≡ string_bytes text.old ++ encode_utf8_all (escaped_byte byte)) }
{
    text.push_str("\\x")?;
    text.push(hex_digit(byte / 16))?;
    text.push(hex_digit(byte % 16))
}

/// Appends a control character as a line shows it.
fn put_control<A: Allocator>(text: &mut String<A>, c: char) -> Result<(), AllocError>
    requires small { c < 0x100 }
    ensures { OnOk result (string_bytes text.new ≡ string_bytes text.old ++ encode_utf8_all (escaped_control c)) }
{
    if c == '\t' {
        return text.push_str("\\t");
    }
    if c == '\n' {
        return text.push_str("\\n");
    }
    if c == '\r' {
        return text.push_str("\\r");
    }
    let code = c as u32 as u8;
    if code >= 128 {
        text.push_str("\\xc2")?;
    }
    put_escaped_byte(text, code)
}

/// Appends a character as a line shows it.
fn put_line_char<A: Allocator>(text: &mut String<A>, c: char) -> Result<(), AllocError>
    ensures { OnOk result (string_bytes text.new ≡ string_bytes text.old ++ encode_utf8_all (line_char c)) }
{
    if c == '\\' {
        return text.push_str("\\\\");
    }
    if c.is_control() {
        return put_control(text, c);
    }
    text.push(c)
}

/// A name with each backslash doubled and each control character escaped, so that it stays on one line, no terminal
/// obeys it, and no two names are alike: as `\n`, `\t`, `\r`, and `\x1b` and the like for the bytes of the others. Other
/// characters are as they are.
pub fn escaped_name<A: Allocator>(alloc: A, name: &str) -> Result<String<A>, AllocError>
    ensures { IfOk result (λ text. string_bytes text ≡ escaped_name name.now) }
{
    let mut text = String::new(alloc);
    for c in name.chars() {
        put_line_char(&mut text, c)?;
    }
    Ok(text)
}

/// Appends a byte of a name that isn't UTF-8.
fn put_byte<A: Allocator>(text: &mut String<A>, byte: u8) -> Result<(), AllocError>
    ensures { OnOk result (string_bytes text.new ≡ string_bytes text.old ++ encode_utf8_all (byte_chars byte)) }
{
    if byte < 128 {
        put_line_char(text, byte as char)
    } else {
        put_escaped_byte(text, byte)
    }
}

/// The bytes of a name that isn't UTF-8, each as a character or escaped.
fn spelled_bytes<A: Allocator>(alloc: A, name: &[u8]) -> Result<String<A>, AllocError>
    ensures { IfOk result (λ text. string_bytes text ≡ encode_utf8_all (flat_map byte_chars name.now)) }
{
    let mut text = String::new(alloc);
    let mut rest = name;
    while let Some((byte, others)) = rest.split_first() {
        put_byte(&mut text, *byte)?;
        rest = others;
    }
    Ok(text)
}

/// A name of any bytes. If it is UTF-8, it is as `escaped_name` has it; if not, each byte above 127 is escaped too, as
/// `\xe9` and the like. So no two names are alike.
pub fn escaped_bytes<A: Allocator>(alloc: A, name: &[u8]) -> Result<String<A>, AllocError>
    ensures { IfOk result (λ text. string_bytes text ≡ escaped_bytes name.now) }
{
    match str::from_utf8(name) {
        Ok(text) => escaped_name(alloc, text),
        Err(_) => spelled_bytes(alloc, name),
    }
}

/// A digit of lower-case hexadecimal.
fn hex_digit(number: u8) -> char
    requires { number < 16 }
    ensures { result ≡ digit_char number }
{
    if number < 10 {
        (b'0' + number) as char
    } else {
        (b'a' - 10 + number) as char
    }
}

/// Appends a character as a JSON string spells it.
fn put_json_char<A: Allocator>(text: &mut String<A>, c: char) -> Result<(), AllocError>
    ensures { OnOk result (string_bytes text.new ≡ string_bytes text.old ++ encode_utf8_all (json_char c)) }
{
    if c == '"' || c == '\\' {
        text.push('\\')?;
        return text.push(c);
    }
    if c < ' ' {
        let code = c as u32 as u8;
        text.push_str("\\u00")?;
        text.push(hex_digit(code / 16))?;
        return text.push(hex_digit(code % 16));
    }
    text.push(c)
}

/// Appends a name as a JSON string.
pub fn put_json_string<A: Allocator>(text: &mut String<A>, name: &str) -> Result<(), AllocError>
    ensures { OnOk result (string_bytes text.new ≡ string_bytes text.old ++ json_string name.now) }
{
    text.push_str("\"")?;
    for c in name.chars() {
        put_json_char(text, c)?;
    }
    text.push_str("\"")?;
    Ok(())
}
