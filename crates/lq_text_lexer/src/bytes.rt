// The kinds of bytes.
ghost use Rattle.std.specs.Prelude.{◌≡◌, ◌≤◌, length};
ghost use Rattle.lq_text_lexer.specs.Bytes.{is_blank, is_digit, begins_lower, begins_upper, is_letter, is_name_byte, is_number_byte};
ghost use Rattle.lq_text_lexer.specs.Front.{run};

pub(crate) fn is_blank(b: u8) -> bool
    ensures { result ≡ is_blank b }
{
    b == b' ' || b == b'\t' || b == b'\n' || b == b'\r'
}

pub(crate) fn is_digit(b: u8) -> bool
    ensures { result ≡ is_digit b }
{
    b'0' <= b && b <= b'9'
}

pub(crate) fn is_letter(b: u8) -> bool
    ensures { result ≡ is_letter b }
{
    (b'a' <= b && b <= b'z') || (b'A' <= b && b <= b'Z')
}

pub(crate) fn begins_lower(b: u8) -> bool
    ensures { result ≡ begins_lower b }
{
    (b'a' <= b && b <= b'z') || b == b'_'
}

pub(crate) fn begins_upper(b: u8) -> bool
    ensures { result ≡ begins_upper b }
{
    b'A' <= b && b <= b'Z'
}

fn is_name_byte(b: u8) -> bool
    ensures { result ≡ is_name_byte b }
{
    is_letter(b) || is_digit(b) || b == b'_' || b == b'\''
}

fn is_number_byte(b: u8) -> bool
    ensures { result ≡ is_number_byte b }
{
    is_digit(b) || b == b'_'
}

// How many bytes of a name stand at the front.
pub(crate) fn name_len(text: &[u8]) -> usize
    ensures len { result ≡ run is_name_byte text.now }
    ensures bound { result ≤ length text.now }
{
    text.iter().take_while(|b| is_name_byte(**b)).count()
}

// How many bytes of a number stand at the front.
pub(crate) fn number_len(text: &[u8]) -> usize
    ensures len { result ≡ run is_number_byte text.now }
    ensures bound { result ≤ length text.now }
{
    text.iter().take_while(|b| is_number_byte(**b)).count()
}
