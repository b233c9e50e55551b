// Comments, which nest.
ghost use Rattle.std.specs.Prelude.{◌≡◌, ◌+◌, ◌≤◌, List, ℕ, length, drop, IfSome, IfNone};
ghost use Rattle.lq_text_lexer.specs.Comments.{mark_of, mark_len, EndsComment};
ghost use Rattle.lq_text_lexer.specs.Places.{StandsAt};
ghost use Rattle.lq_text_lexer.specs.declared.limits.TheConstants.{TEXT_LIMIT};

use crate::cursor::Cursor;

#[derive(Clone, Copy)]
pub(crate) enum Mark {
    Opening,
    Closing,
    Other,
    End,
}

#[tactic(auto, unfolding(crate::specs::Comments::mark_of))]
fn mark_of(text: &[u8]) -> Mark
    ensures mark { result ≡ mark_of text.now }
    ensures within { mark_len result ≤ length text.now }
{
    match text {
        [b'(', b'*', ..] => Mark::Opening,
        [b'*', b')', ..] => Mark::Closing,
        [_, ..] => Mark::Other,
        [] => Mark::End,
    }
}

// The bytes from this offset on.
pub(crate) fn rest_from(text: &[u8], at: usize) -> &[u8]
    requires { at ≤ length text.now }
    ensures rest { result.now ≡ drop at text.now }
    ensures len { at + length result.now ≡ length text.now }
{
    &text[at..]
}

fn mark_at(text: &[u8], at: usize) -> Mark
    requires { at ≤ length text.now }
    ensures mark { result ≡ mark_of (drop at text.now) }
    ensures within { at + mark_len result ≤ length text.now }
{
    mark_of(rest_from(text, at))
}

// From behind the opening of a comment to behind its end, where it has one.
pub(crate) fn behind_comment(text: &[u8], from: Cursor) -> Option<Cursor>
    requires small { length text.now ≤ TEXT_LIMIT }
    requires stands { StandsAt text.now from }
    ensures stands { IfSome result (StandsAt text.now) }
    ensures further { IfSome result (λ c. from.at ≤ c.at) }
    ensures ends { IfSome result (λ c. EndsComment (drop from.at text.now) (drop c.at text.now)) }
    ensures open { IfNone result ((rest : List ℕ) → EndsComment (drop from.at text.now) rest → ⊥) }
{
    let mut cursor = from;
    let mut depth = 1usize;
    'nested: while depth > 0 {
        match mark_at(text, cursor.at) {
            Mark::Opening => {
                cursor = cursor.behind(text, 2);
                depth += 1;
            }
            Mark::Closing => {
                cursor = cursor.behind(text, 2);
                depth -= 1;
            }
            Mark::Other => cursor = cursor.next(text),
            Mark::End => return None,
        }
    }
    Some(cursor)
}
