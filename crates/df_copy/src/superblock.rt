// The copy's superblock: the source's, with the new layout and the new trailer.
ghost use Rattle.std.specs.Prelude.{◌≡◌, ◌≤◌, List, true, length};
ghost use Rattle.df_format.specs.{Message.{Message}, Spelling.{IsCheck}, declared.reference.Reference.{Reference}};
ghost use Rattle.df_opening.specs.Below.{memory};
ghost use Rattle.df_copy.specs.{Acts.{IsTrailerWritten}, Planning.{IsCopyPlan}, Targets.{fields_in, superblock_of}, Tests.{is_at_rest, needed, references}, Trailers.{IsLastOf, with_trailer}};

use crate::plan::Plan;
use crate::target::Target;
use df_base::Check;
use df_format::{NO_CHECKSUM, Reference, Super, SuperFields, test_fields};
use df_replica::Replica;

// The last block of the copy's trailer, or none of it.
fn last_block(target: &Target) -> Reference
    ensures last { IsLastOf target.now.grid result }
{
    match target.grid.trailer() {
        Some(last) => last,
        None => Reference {
            address: 0,
            checksum: NO_CHECKSUM,
        },
    }
}

// The source's fields, with the numbers of the layout. The source is at rest, so its head and its replies are its checkpoint's op.
fn fields_for(fields: &SuperFields, target: &Target) -> SuperFields
    ensures { result ≡ fields_in target.now.layout fields.now target.now.checks }
{
    let checks = target.checks;
    let op_checksum = fields.op_checksum;
    SuperFields {
        slots: target.layout.slots,
        message_size: target.layout.message_size,
        clients: target.layout.clients,
        block_size: target.layout.block_size,
        blocks: target.layout.blocks,
        head: fields.op,
        head_checksum: op_checksum,
        replies: fields.op,
        reply_checksums: checks,
        ..*fields
    }
}

// A checksum has sixteen bytes, as its type says.
fn as_check(check: Check) -> Check
    ensures value { result ≡ check }
    ensures check { IsCheck result }
{
    check
}

// And with a trailer that ends with this block.
fn with_trailer(fields: SuperFields, last: Reference, size: u64) -> SuperFields
    ensures fields { result ≡ with_trailer last size fields }
    ensures check { IsCheck last.checksum }
{
    let trailer_checksum = as_check(last.checksum);
    SuperFields {
        trailer_address: last.address,
        trailer_checksum,
        trailer_size: size,
        ..fields
    }
}

/// The superblock of a target whose other units are all written.
pub(crate) fn copied_superblock(replica: &Replica, target: &Target, plan: Plan) -> Super
    requires rest { is_at_rest (memory replica.now) ≡ true }
    requires plan { IsCopyPlan target.now.layout replica.now plan }
    requires fits { length replica.now.table.sessions ≤ target.now.layout.clients }
    requires room { needed target.now.layout (memory replica.now) ≤ target.now.layout.blocks }
    requires written { (rs : List Message) × (bs : List Message) × IsTrailerWritten target.now.layout replica.now rs bs target.now
        × (length rs ≡ length replica.now.table.sessions) × (length bs ≡ length (references (memory replica.now))) }
    ensures { (rs bs : List Message) → IsTrailerWritten target.now.layout replica.now rs bs target.now → (length bs ≡ length (references (memory replica.now)))
        → result ≡ superblock_of target.now.layout replica.now rs bs }
{
    let fields = fields_for(replica.fields(), target);
    match test_fields(&with_trailer(fields, last_block(target), plan.size)) {
        Ok(content) => content,
        Err(_) => unreachable!(),
    }
}
