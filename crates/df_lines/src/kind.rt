// What a reader has to know of a kind of line: what a line says, and how it is read.
ghost use Rattle.std.specs.Prelude.{◌≤◌, ◌*◌, length, IfSome, IfNone};
ghost use Rattle.df_lines.specs.Kind.{Grammar};

/// A kind of line. What was read of a line is a value, but for its body, which stands in a buffer.
pub trait LineKind: Sized {
    /// What a line says, and what was read of it.
    ghost grammar: { Grammar Self };

    /// What the line says, with its decoded body at the front of `body`; None where it says nothing. After None `body` holds any bytes.
    /// The line is given without its byte 10.
    fn parse(line: &[u8], body: &mut [u8]) -> Option<Self>
        requires { length line.now ≤ 2 * length body.old }
        ensures found { IfSome result (λ l. grammar.says line.now (grammar.said_with body.new l)) }
        ensures none { IfNone result ((said : grammar.Said) → grammar.says line.now said → ⊥) }
        ensures size { IfSome result (λ l. grammar.body_length l ≤ length body.new) };
}
