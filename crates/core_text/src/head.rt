ghost use Rattle.std.specs.Prelude.{◌≡◌, ◌≤◌, length};
ghost use Rattle.core_text.specs.Heads.{head_of, shared};

use crate::CoreTextStop;

const HEAD: &[u8] = b"elim 1\nprelude\n";

const HEAD_WITH_K: &[u8] = b"elim 1\nprelude k\n";

/// Reads the two head lines: whether K is on, and the offset after them. Without `k` a head with K is refused. Takes
/// no memory.
pub fn read_head(text: &[u8], k: bool) -> Result<(bool, u32), CoreTextStop>
    ensures { result ≡ head_of k text.now }
{
    let plain = shared_len(text, HEAD);
    if plain == HEAD.len() {
        return Ok((false, HEAD.len() as u32));
    }
    if !k {
        return Err(CoreTextStop::NotCoreText(plain as u32));
    }
    let with_k = shared_len(text, HEAD_WITH_K);
    if with_k == HEAD_WITH_K.len() {
        return Ok((true, HEAD_WITH_K.len() as u32));
    }
    Err(CoreTextStop::NotCoreText(plain.max(with_k) as u32))
}

#[tactic(auto, using(crate::proofs::Sharing::shared_past))]
/// How many bytes the texts share at their beginning.
pub fn shared_len(text: &[u8], other: &[u8]) -> usize
    ensures shared { result ≡ shared text.now other.now }
    ensures within { result ≤ length text.now }
    ensures short { result ≤ length other.now }
{
    let mut len = 0;
    while len < text.len() && len < other.len() && text[len] == other[len] {
        len += 1;
    }
    len
}
