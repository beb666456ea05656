// The superblock of a new file.
ghost use Rattle.std.specs.Prelude.{◌≡◌, ◌<◌, IfSome, IfNone};
ghost use Rattle.df_opening.specs.Below.{first_super};

use df_format::{Super, SuperFields, test_fields};
use df_layout::Layout;

// Its fields: sequence 1, and no checkpoint.
#[tactic(auto, unfolding(df_format::specs::First::first_super))]
fn first_fields(layout: &Layout, cluster: u128) -> SuperFields
    ensures { result ≡ first_super layout.now cluster }
{
    SuperFields {
        sequence: 1,
        ..SuperFields::of(layout, cluster)
    }
}

/// The superblock of a new file. None where the cluster is 0, which no file has.
#[tactic(auto, using(crate::proofs::FirstSuper::no_fault))]
pub(crate) fn first_superblock(layout: &Layout, cluster: u128) -> Option<Super>
    ensures content { IfSome result (λ content. content ≡ first_super layout.now cluster) }
    ensures some { IfSome result (λ _. 0 < cluster) }
    ensures none { IfNone result (cluster ≡ 0) }
{
    if cluster == 0 {
        return None;
    }
    match test_fields(&first_fields(layout, cluster)) {
        Ok(content) => Some(content),
        Err(_) => unreachable!(),
    }
}
