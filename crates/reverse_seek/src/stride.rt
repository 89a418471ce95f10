//! The distance between the counts of which a snapshot is kept.

ghost use Rattle.std.specs.Prelude.{◌≡◌, ◌≤◌, ◌^◌};
ghost use Rattle.reverse_seek.specs.Stride.{stride_of as stride_to, IsLeastStride};

/// The least doubling of 1000 turns at which at most 32 counts, from 0 to the last, are kept.
pub fn stride_of(last: u64) -> u64
    requires { last ≤ 2 ^ 40 }
    ensures stride { result ≡ stride_to last }
    ensures least { IsLeastStride last result }
    ensures some { 1000 ≤ result }
{
    let mut stride = 1000;
    while last / stride >= 32 {
        stride *= 2;
    }
    stride
}
