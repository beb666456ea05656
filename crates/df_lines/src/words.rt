// The words of a line: what stands before a space, and what stands after it.
ghost use Rattle.std.specs.Prelude.{◌≡◌, IfSome, IfNone};
ghost use Rattle.df_lines.specs.Words.{Cuts, HasNoSpace, space_in};

/// The bytes before the first space and the bytes after it, or None where there is no space.
pub fn cut(line: &[u8]) -> Option<(&[u8], &[u8])>
    ensures found { IfSome result (λ parts. Cuts line.now parts.0.now parts.1.now) }
    ensures none { IfNone result (HasNoSpace line.now) }
{
    let at = first_space(line)?;
    Some((&line[..at], &line[at + 1..]))
}

fn first_space(line: &[u8]) -> Option<usize>
    ensures { result ≡ space_in line.now }
{
    line.iter().position(|byte| *byte == b' ')
}
