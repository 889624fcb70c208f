// Bytes at a place of a lent buffer. Numbers are written and read with the highest byte first (specs/Big.antt).
#![tactic(auto)]

ghost use Rattle.std.specs.Prelude.{◌≡◌, ℕ, ◌+◌, ◌≤◌, length, if◌then◌else◌, nat_le};
ghost use Rattle.octets.specs.Places.{placed};

// Copies `bytes` into `out` from `at` on. Where they do not fit, nothing is written and the answer is false: a bool, since
// that is all there is to say.
pub fn copy_at(out: &mut [u8], at: usize, bytes: &[u8]) -> bool
    ensures fits { result ≡ nat_le (at + length bytes.now) (length out.old) }
    ensures after { out.new ≡ (if result then placed out.old at bytes.now else out.old) }
{
    if at > out.len() || bytes.len() > out.len() - at {
        return false;
    }
    out[at..at + bytes.len()].copy_from_slice(bytes);
    true
}
