// Numbers in bytes, little-endian. A byte past the end is read as 0, so that no caller has an index to prove.
ghost use Rattle.std.specs.Prelude.{◌≡◌, ◌<◌, get_or};
ghost use Rattle.cases.specs.Bytes.{half, word_at, half_bytes, word_bytes};

pub(crate) fn byte_at(s: &[u8], i: usize) -> u8
    ensures { result ≡ get_or s.now i 0 }
{
    s.get(i).copied().unwrap_or(0)
}

#[tactic(auto, unfolding(crate::specs::Bytes::half))]
pub(crate) fn half_at(s: &[u8], i: usize) -> u16
    requires { i < 16 }
    ensures { result ≡ half s.now i }
{
    u16::from_le_bytes([byte_at(s, i), byte_at(s, i + 1)])
}

#[tactic(auto, unfolding(crate::specs::Bytes::word_at, crate::specs::Bytes::half))]
pub(crate) fn word_at(s: &[u8], i: usize) -> u32
    requires { i < 12 }
    ensures { result ≡ word_at s.now i }
{
    u32::from_le_bytes([
        byte_at(s, i),
        byte_at(s, i + 1),
        byte_at(s, i + 2),
        byte_at(s, i + 3),
    ])
}

#[tactic(auto, unfolding(crate::specs::Bytes::half_bytes))]
pub(crate) fn half_bytes(n: u16) -> [u8; 2]
    ensures { result ≡ half_bytes n }
{
    n.to_le_bytes()
}

#[tactic(auto, unfolding(crate::specs::Bytes::word_bytes))]
pub(crate) fn word_bytes(n: u32) -> [u8; 4]
    ensures { result ≡ word_bytes n }
{
    n.to_le_bytes()
}
