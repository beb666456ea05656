// The names of layouts: two of their own, and any five numbers that are within the limits.
ghost use Rattle.std.specs.{Prelude.{◌≡◌, ◌<◌, ◌^◌, ℕ, List, ◌∷◌, ◌++◌, decimal}, Prelude.{IfSome, IfNone}};
ghost use Rattle.df_layout.specs.declared.layout.Layout.{Layout};
ghost use Rattle.df_program.specs.Names.{NamesLayout, OneLayout, numbers_of};

use df_layout::Layout;
use df_lines::u32_of;

/// The layout of this name, or None where it is the name of none: `small`, `large`, or the slots, the bytes of a message, the clients,
/// the bytes of a block and the blocks, in decimal with commas between them. A number has no zero before it, `0` itself aside.
pub fn layout_named(name: &str) -> Option<Layout>
    ensures found { IfSome result (NamesLayout name.now) }
    ensures none { IfNone result ((layout : Layout) → NamesLayout name.now layout → ⊥) }
{
    if name == "small" {
        return Some(Layout::small());
    }
    if name == "large" {
        return Some(Layout::large());
    }
    layout_of_numbers(name)
}

// The layout of five numbers with commas between them.
fn layout_of_numbers(name: &str) -> Option<Layout>
    ensures found { IfSome result (λ layout. name.now ≡ numbers_of layout) }
    ensures none { IfNone result ((layout : Layout) → name.now ≡ numbers_of layout → ⊥) }
{
    let (slots, rest) = number_before_comma(name)?;
    let (message_size, rest) = number_before_comma(rest)?;
    let (clients, rest) = number_before_comma(rest)?;
    let (block_size, rest) = number_before_comma(rest)?;
    let blocks = u32_of(rest.as_bytes())?;
    Layout::new(slots, message_size, clients, block_size, blocks).ok()
}

// The number before the first comma and the text after it, or None where no number below 2^32 stands before one.
fn number_before_comma(text: &str) -> Option<(u32, &str)>
    ensures found { IfSome result (λ parts. text.now ≡ decimal parts.0 ++ (44 ∷ parts.1.now)) }
    ensures fits { IfSome result (λ parts. parts.0 < 2 ^ 32) }
    ensures none { IfNone result ((n : ℕ) (rest : List ℕ) → n < 2 ^ 32
        → text.now ≡ decimal n ++ (44 ∷ rest) → ⊥) }
{
    let (digits, rest) = text.split_once(',')?;
    Some((u32_of(digits.as_bytes())?, rest))
}

/// A name is of one layout at most.
pub fn a_name_is_of_one_layout()
    ensures { OneLayout }
{}
