// The primitives by their names, and how many arguments each takes.
ghost use Rattle.std.specs.Prelude.{◌≡◌};
ghost use Rattle.lq_text_scope.specs.Known.{primitive, array_primitive, map_primitive, primitive_in, text_of};

use lq_base_names::{Name, NameTable};

/// The text of a name; a name that isn't in the table has none.
pub fn text_of(names: &NameTable, name: Name) -> &[u8]
    ensures { result.now ≡ text_of names.now name.0 }
{
    if name.0 < names.len() {
        names.text(name).as_bytes()
    } else {
        b""
    }
}

/// How many arguments the primitive of this name takes.
pub(crate) fn primitive(text: &[u8]) -> Option<usize>
    ensures { result ≡ primitive text.now }
{
    if text == b"read_int".as_slice() || text == b"print_int".as_slice() {
        Some(1)
    } else {
        None
    }
}

fn array_primitive(text: &[u8]) -> Option<usize>
    ensures { result ≡ array_primitive text.now }
{
    if text == b"make".as_slice() {
        Some(2)
    } else if text == b"length".as_slice() {
        Some(1)
    } else {
        None
    }
}

fn map_primitive(text: &[u8]) -> Option<usize>
    ensures { result ≡ map_primitive text.now }
{
    if text == b"empty".as_slice() {
        Some(0)
    } else if text == b"add".as_slice() {
        Some(3)
    } else if text == b"find".as_slice() {
        Some(2)
    } else {
        None
    }
}

/// The same of one with an upper name and a dot before it.
pub(crate) fn primitive_in(front: &[u8], text: &[u8]) -> Option<usize>
    ensures { result ≡ primitive_in front.now text.now }
{
    if front == b"Array".as_slice() {
        array_primitive(text)
    } else if front == b"Map".as_slice() {
        map_primitive(text)
    } else {
        None
    }
}
