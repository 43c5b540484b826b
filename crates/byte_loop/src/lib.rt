// The test for same bytes one byte at a time, for callers in Rust: bench/ measures `same_bytes` against it.
#![tactic(auto)]

ghost use Rattle.std.specs.Prelude.{◌≡◌};
ghost use Rattle.same_bytes.specs.Same.{same_bytes};

#[unsafe(no_mangle)]
pub extern "C" fn ruzhtylen_same_singly(a: &[u8], b: &[u8]) -> bool
    ensures { result ≡ same_bytes a.now b.now }
{
    same_bytes::same_singly(a, b)
}
