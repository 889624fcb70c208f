// What a content of a format has to be, for the reader and the writer.
ghost use Rattle.std.specs.Prelude.{◌≡◌};
ghost use Rattle.secs.specs.Elements.{is_nan, all_numbers, checked};

use crate::format::Format;
use crate::item::Fault;

// Whether 32 bits are no number: the sign aside, above those of the infinity.
pub fn is_nan(bits: u32) -> bool
    ensures { result ≡ is_nan bits }
{
    bits % 0x8000_0000 > 0x7f80_0000
}

// Whether each four bytes are a number.
fn all_numbers(content: &[u8]) -> bool
    ensures { result ≡ all_numbers content.now }
{
    let (words, _) = content.as_chunks::<4>();
    words.iter().all(|word| !is_nan(u32::from_be_bytes(*word)))
}

// Whether a content can be that of a format, or the fault it has.
pub fn check_content(format: Format, content: &[u8]) -> Result<(), Fault>
    ensures { result ≡ checked format content.now }
{
    if content.len() % format.width() as usize != 0 {
        return Err(Fault::Uneven);
    }
    if format == Format::F4 && !all_numbers(content) {
        return Err(Fault::NotNumber);
    }
    Ok(())
}
