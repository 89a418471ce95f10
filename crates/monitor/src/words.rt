//! A line, word by word.

ghost use Rattle.std.specs.Prelude.{◌≡◌, IfSome, IfNone, Some, None};
ghost use Rattle.monitor.specs.Words.{split as split_of};

/// The first word, and what follows the space after it.
pub fn split(line: &[u8]) -> (&[u8], Option<&[u8]>)
    ensures rest { IfSome result.1 (λ rest. split_of line.now ≡ (result.0.now, Some rest.now)) }
    ensures last { IfNone result.1 (split_of line.now ≡ (result.0.now, None)) }
{
    for i in 0..line.len() {
        if line[i] == b' ' {
            return (&line[..i], Some(&line[i + 1..]));
        }
    }
    (line, None)
}
