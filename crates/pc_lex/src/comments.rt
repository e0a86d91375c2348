//! Comments, and where they end.
ghost use Rattle.std.specs.Prelude.{◌≡◌, ◌<◌, ◌≤◌, ◌+◌, ◌==◌, ◌&&◌, length, drop, slice_index, IfSome};
ghost use Rattle.std.specs.Option.{option_map};
ghost use Rattle.pc_lex.specs.Reading as reading;

/// Whether these two bytes are at a place.
fn has_pair(text: &[u8], at: usize, first: u8, second: u8) -> bool
    requires { at + 1 < length text.now }
    ensures { result ≡ (slice_index text.now at == first && slice_index text.now (at + 1) == second) }
{
    text[at] == first && text[at + 1] == second
}

/// The number of bytes from after its `/*` to the end of a comment, if it ends. Comments nest.
#[tactic(auto, using(crate::proofs::CommentSteps::behind_step, crate::proofs::CommentSteps::behind_none, crate::proofs::CommentSteps::behind_all))]
pub fn block_len(text: &[u8]) -> Option<usize>
    ensures value { option_map (λ n. drop n text.now) result ≡ reading.behind 1 text.now }
    ensures within { IfSome result (λ n. n ≤ length text.now) }
{
    let mut at: usize = 0;
    let mut depth: usize = 1;
    while at + 1 < text.len() {
        if has_pair(text, at, b'/', b'*') {
            depth += 1;
            at += 2;
        } else if has_pair(text, at, b'*', b'/') {
            depth -= 1;
            at += 2;
            if depth == 0 {
                return Some(at);
            }
        } else {
            at += 1;
        }
    }
    None
}
