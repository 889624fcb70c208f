// The pieces of a text.
ghost use Rattle.std.specs.Prelude.{◌≡◌, ◌<◌, ◌++◌, string_bytes, OnOk};
ghost use Rattle.sml.specs.Texts.{headline, bytes_text, letter_of, letters, word_text, words_text, quoted, elements_text, value_text, open_text, fault_text};

use frames::header::Header;
use secs::format::Format;
use std::alloc::AllocError;
use std::fmt::Write;

// Adds stream and function, and W where a reply is wanted.
pub(crate) fn push_head(text: &mut String, header: Header) -> Result<(), AllocError>
    ensures { OnOk result (string_bytes text.new ≡ string_bytes text.old ++ headline header.stream header.function header.wait) }
{
    let wait = if header.wait { " W" } else { "" };
    write!(text, "S{}F{}{wait}", header.stream, header.function)
}

// Adds each byte as a number. Each loop pushes on its own: one over a closure would hide what the closure writes.
fn push_bytes(text: &mut String, content: &[u8]) -> Result<(), AllocError>
    ensures { OnOk result (string_bytes text.new ≡ string_bytes text.old ++ bytes_text content.now) }
{
    for byte in content {
        write!(text, " {byte}")?;
    }
    Ok(())
}

// Adds one element of four bytes.
fn push_word(text: &mut String, format: Format, bits: u32) -> Result<(), AllocError>
    ensures { OnOk result (string_bytes text.new ≡ string_bytes text.old ++ word_text format bits) }
{
    match format {
        Format::I4 => write!(text, " {}", bits.cast_signed()),
        Format::F4 => write!(text, " bits {bits}"),
        _ => write!(text, " {bits}"),
    }
}

// Adds each four bytes as an element.
fn push_words(text: &mut String, format: Format, content: &[u8]) -> Result<(), AllocError>
    ensures { OnOk result (string_bytes text.new ≡ string_bytes text.old ++ words_text format content.now) }
{
    let (words, _) = content.as_chunks::<4>();
    for word in words {
        push_word(text, format, u32::from_be_bytes(*word))?;
    }
    Ok(())
}

// A byte as a letter: one that no screen shows is a point.
fn letter(byte: u8) -> u8
    ensures value { result ≡ letter_of byte }
    ensures ascii { result < 128 }
{
    if byte >= 32 && byte < 127 { byte } else { b'.' }
}

// Adds each byte as a letter.
fn push_letters(text: &mut String, content: &[u8]) -> Result<(), AllocError>
    ensures { OnOk result (string_bytes text.new ≡ string_bytes text.old ++ letters content.now) }
{
    for byte in content {
        text.push(letter(*byte) as char)?;
    }
    Ok(())
}

// Adds a text in quotes.
fn push_quoted(text: &mut String, content: &[u8]) -> Result<(), AllocError>
    ensures { OnOk result (string_bytes text.new ≡ string_bytes text.old ++ quoted content.now) }
{
    text.push_str(" \"")?;
    push_letters(text, content)?;
    text.push_str("\"")
}

// Adds the elements of an item that is no list.
fn push_elements(text: &mut String, format: Format, content: &[u8]) -> Result<(), AllocError>
    ensures { OnOk result (string_bytes text.new ≡ string_bytes text.old ++ elements_text format content.now) }
{
    match format {
        Format::List => Ok(()),
        Format::Ascii => push_quoted(text, content),
        Format::Binary | Format::U1 => push_bytes(text, content),
        Format::I4 | Format::F4 | Format::U4 => push_words(text, format, content),
    }
}

// Adds an item that is no list.
#[tactic(auto, unfolding(crate::specs::Texts::value_text))]
pub(crate) fn push_value(
    text: &mut String,
    format: Format,
    content: &[u8],
) -> Result<(), AllocError>
    ensures { OnOk result (string_bytes text.new ≡ string_bytes text.old ++ value_text format content.now) }
{
    write!(text, " <{format}")?;
    push_elements(text, format, content)?;
    text.push_str(">")
}

// Adds the beginning of a list.
pub(crate) fn push_open(text: &mut String, count: usize) -> Result<(), AllocError>
    ensures { OnOk result (string_bytes text.new ≡ string_bytes text.old ++ open_text count) }
{
    write!(text, " <L [{count}]")
}

// Adds the place of an item that cannot be read.
pub(crate) fn push_fault(text: &mut String, at: usize) -> Result<(), AllocError>
    ensures { OnOk result (string_bytes text.new ≡ string_bytes text.old ++ fault_text at) }
{
    write!(text, " <fault {at}>")
}
