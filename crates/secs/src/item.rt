// An item as the reader gives it, and what can be wrong with one.
use crate::format::Format;

// `begin` is the place of the content, `next` the place after the item. A list has no content of its own: its
// length counts items, and both places are that of its first element.
#[derive(Clone, Copy, Debug)]
pub struct Item<'a> {
    pub format: Format,
    pub begin: usize,
    pub length: usize,
    pub content: &'a [u8],
    pub next: usize,
}

#[derive(Clone, Copy, PartialEq, Eq, Debug)]
pub enum Fault {
    // the format byte says that no length byte follows
    NoLength,
    // no format has this code
    UnknownFormat,
    // the format byte, the length or the content is past the end
    PastEnd,
    // the length is no multiple of the element's width
    Uneven,
    // an element of an F4 is not a number
    NotNumber,
}
