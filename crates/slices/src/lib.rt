// Bytes in lent slices: numbers of eight bytes, and copies.
#![tactic(auto)]

ghost use Rattle.std.specs.Prelude.{◌≡◌, ◌++◌, ◌+◌, ◌≤◌, length, take, drop};
ghost use Rattle.std.proofs.Math.Seq.{paste};
ghost use Rattle.slices.specs.Bytes.{Read64, little_endian};

// The number of the eight bytes from `at` on, the lowest first: the compiler makes one load of it.
pub fn read_le64(s: &[u8], at: usize) -> u64
    requires { at + 8 ≤ length s.now }
    ensures { Read64 s.now at result }
{
    u64::from_le_bytes([
        s[at],
        s[at + 1],
        s[at + 2],
        s[at + 3],
        s[at + 4],
        s[at + 5],
        s[at + 6],
        s[at + 7],
    ])
}

// The eight bytes of a number, the lowest first, go to `s`, from `at` on.
pub fn write_le64(s: &mut [u8], at: usize, n: u64)
    requires { at + 8 ≤ length s.old }
    ensures { s.new ≡ take at s.old ++ little_endian 8 n ++ drop (at + 8) s.old }
{
    s[at..at + 8].copy_from_slice(&n.to_le_bytes());
}

// n bytes of `from`, from `at` on, go to `to`, from `off` on.
pub fn copy(from: &[u8], at: usize, to: &mut [u8], off: usize, n: usize)
    requires { (at + n ≤ length from.now) × (off + n ≤ length to.old) }
    ensures { to.new ≡ paste to.old off (drop at from.now) n }
{
    to[off..off + n].copy_from_slice(&from[at..at + n]);
}
