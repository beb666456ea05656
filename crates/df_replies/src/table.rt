// The table of replies: what the slots show, place by place, for an open to look at.
ghost use Rattle.std.specs.Prelude.{◌≡◌, ◌↔◌, ◌<◌, ◌≤◌, List, ℕ, Some, Err, length, replicate, slice_get, IfOk, IfSome, OnOk};
ghost use Rattle.df_replies.specs.{Below.{HasCause, Blank, IsReplies, last_mark, Content, Message, Units, content_of, content_with}, Answers.{HasClass, Lacks}, Counts.{RepliesWithin, in_boot}};
ghost use Rattle.df_replies.specs.Shown.{AreRepliesScanned, AreSeenReplies, ShowsReplies};

use crate::Lacking;
use crate::answers::{lacks, op_in, with_reply};
use crate::slot::reply_place;
use df_base::{Failed, OutOfMemory};
use df_buffers::Reply;
use df_disk::Disk;
use df_format::{Header, SuperFields};
use df_layout::{Class, Layout};
use df_places::Shelf;
use df_sessions::SessionTable;
use df_stamps::Counters;
use std::alloc::Global;
use std::marker::Model;

/// For each reply slot of a layout the header of the reply that is valid there, or the class of what is shown. Contracts see
/// the list of them.
#[derive(Drop)]
pub struct ReplyTable {
    replies: Vec<Result<Header, Class>>,
}

impl Model for ReplyTable {
    ghost use Rattle.std.specs.Prelude.{List, Result};
    ghost use Rattle.df_format.specs.declared.header.Header.{Header};
    ghost use Rattle.df_layout.specs.declared.damage.Class.{Class};

    ghost Value = { List (Result Header Class) };

    ghost view = { λ t. t.replies.items };
}

// Fills the list with what the slots show, also those that no session has yet.
fn scan_replies<D: Disk>(
    disk: &mut D,
    layout: &Layout,
    cluster: u128,
    replies: &mut [Result<Header, Class>],
    shelf: &mut Shelf<Reply>,
) -> Result<(), Failed>
    requires replies { length replies.old ≡ layout.now.clients }
    requires shelf { shelf.old.layout ≡ layout.now }
    ensures seen { OnOk result (AreSeenReplies layout.now cluster (D.told disk.old) layout.now.clients replies.new) }
    ensures count { length replies.new ≡ length replies.old }
    ensures shelf { shelf.new.layout ≡ layout.now }
    ensures same { D.told disk.new ≡ D.told disk.old }
    ensures cause { HasCause (D.faults disk.old) (D.faults disk.new) result }
{
    let mut place = 0;
    while place < layout.clients {
        replies[place as usize] = shelf.see(disk, cluster, reply_place(place))?;
        place += 1;
    }
    Ok(())
}

impl ReplyTable {
    /// A table of blank slots, as a new file has them, or the refusal of its memory.
    pub fn reserve(alloc: Global, layout: &Layout) -> Result<ReplyTable, OutOfMemory>
        ensures { IfOk result (λ table. table ≡ replicate layout.now.clients (Err Blank)) }
    {
        let blank: Result<Header, Class> = Err(Class::Blank);
        let replies = vec![in alloc; blank; layout.clients as usize]?;
        Ok(ReplyTable { replies })
    }

    /// What the slot of a place shows.
    pub fn get(&self, place: u32) -> Result<Header, Class>
        requires { place < length self.now }
        ensures { slice_get self.now place ≡ Some result }
    {
        self.replies[place as usize]
    }

    /// Reads each slot of the layout once, also those that no session has yet, onto the shelf, and keeps what they show. After an
    /// error the table holds any entries.
    pub fn scan<D: Disk>(
        &mut self,
        disk: &mut D,
        layout: &Layout,
        cluster: u128,
        shelf: &mut Shelf<Reply>,
    ) -> Result<(), Failed>
        requires size { length self.old ≡ layout.now.clients }
        requires shelf { shelf.old.layout ≡ layout.now }
        ensures scanned { OnOk result (AreRepliesScanned layout.now cluster (D.told disk.old) self.new) }
        ensures size { length self.new ≡ length self.old }
        ensures shelf { shelf.new.layout ≡ layout.now }
        ensures same { D.told disk.new ≡ D.told disk.old }
        ensures cause { HasCause (D.faults disk.old) (D.faults disk.new) result }
    {
        scan_replies(disk, layout, cluster, &mut self.replies, shelf)
    }

    /// The counters of the rings with those of the replies: none is above a number exactly where no reply is; the op and the mark
    /// of a reply count in this boot alone.
    pub fn count(&self, rings: &Counters, boot: u64) -> Counters
        ensures rings { result.ring_op ≡ rings.now.ring_op }
        ensures checkpoint { (image : Units) (n : ℕ) → ShowsReplies image self.now
            → (result.checkpoint ≤ n) ↔ ((rings.now.checkpoint ≤ n) × RepliesWithin image (λ h. h.checkpoint) n) }
        ensures boot { (image : Units) (n : ℕ) → ShowsReplies image self.now
            → (result.boot ≤ n) ↔ ((rings.now.boot ≤ n) × RepliesWithin image (λ h. h.boot) n) }
        ensures top { (image : Units) (n : ℕ) → ShowsReplies image self.now
            → (result.reply_top ≤ n) ↔ ((rings.now.reply_top ≤ n) × RepliesWithin image (in_boot boot (λ h. h.op)) n × RepliesWithin image (in_boot boot (λ h. h.mark)) n) }
    {
        let mut seen = *rings;
        for reply in &self.replies {
            seen = with_reply(&seen, reply, boot);
        }
        seen
    }

    /// The number of replies: the greatest of the superblock's, the mark of the tail's last prepare, and the ops of the replies of
    /// this boot.
    pub fn replies(&self, superblock: u64, mark: u64, boot: u64) -> u64
        ensures { (image : Units) (c : Content) (tail : List Message) → ShowsReplies image self.now → c.boot ≡ boot → c.replies ≡ superblock → last_mark 0 tail ≡ mark
            → IsReplies image c tail result }
    {
        let mut top = superblock.max(mark);
        for reply in &self.replies {
            top = top.max(op_in(reply, boot));
        }
        top
    }

    /// The first session, by place, whose op is at most `stored` and whose slot doesn't show the reply to its last request: of those
    /// that the superblock names the one with the checksum that it has for the place, and else one of its boot.
    pub fn first_lacking(
        &self,
        sessions: &SessionTable,
        stored: u64,
        fields: &SuperFields,
    ) -> Option<Lacking>
        requires { sessions.now.max ≡ length self.now }
        ensures lacks { (image : Units) → ShowsReplies image self.now → Lacks image (content_of (content_with fields.now)) sessions.now.sessions stored result }
        ensures class { IfSome result (HasClass self.now) }
        ensures within { IfSome result (λ lacking. lacking.place < length self.now) }
    {
        let mut place = 0;
        while place < sessions.len() {
            let session = sessions.get(place)?;
            let reply = &self.replies[place as usize];
            if let Some(class) = lacks(fields, place, &session, stored, reply) {
                return Some(Lacking { place, class });
            }
            place += 1;
        }
        None
    }
}
