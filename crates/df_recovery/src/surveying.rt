// The survey of a file of either version: what it shows is read, its state is found, and what is to be mended is listed. Nothing is
// written.
ghost use Rattle.std.specs.Prelude.{◌≡◌, ◌≤◌, ◌+◌, length, IfOk, IfErr};
ghost use Rattle.df_recovery.specs.{Below.{IsBlamed, Told, is_open_fault}, Checkpoints.{AreOfCheckpoint}, Finding.{IsDamage, IsOfFile, read_of}, Found.{Syncs}, Scanning.{base_scanned, without_rooms}};
ghost use Rattle.df_recovery.specs.Surveying.{AreAfter, EndsBehind, IsLawfulScan, IsPlannedFor, IsReadOf, IsWellFound, KeepsRead, KeepsScannedFile, TellsPlannedMends, TellsSurveyAs, found_or_refused};
ghost use Rattle.df_recovery.specs.{Surveys.{SurveysAs}, Waiting.{waiting_at, waiting_in}};

use crate::finding::{Traces, find_state, store_replies};
use crate::planning::plan;
use crate::scanning::scan_file;
use crate::{OpenError, Scanned};
use arrayvec::ArrayVec;
use df_base::Check;
use df_disk::Disk;
use df_format::NO_CHECKSUM;
use df_headers::HeaderTable;
use df_journal::SlotTable;
use df_layout::Layout;
use df_rooms::Rooms;

/// A file that was surveyed: what was read of it, with the sessions and their stored replies after the tail, and in its rooms the
/// header that each slot of the header ring is to have and the list of what is to be mended; where the tail ends, how many replies
/// are stored, and the checksums of the prepares that wait for theirs.
#[derive(Drop)]
pub struct Surveyed {
    pub scanned: Scanned,
    pub traces: Traces,
    pub waiting: ArrayVec<Check, 8>,
}

// The checksum of the prepare with an op: after the checkpoint by the header table, and else by what its slot showed, zeros where it
// showed none.
#[tactic(auto, unfolding(df_format::specs::Spelling::no_checksum))]
fn waiting_at(
    layout: &Layout,
    slots: &SlotTable,
    headers: &HeaderTable,
    base: u64,
    op: u64,
) -> Check
    requires slots { length slots.now.slots ≡ layout.now.slots }
    requires headers { length headers.now ≡ layout.now.slots }
    requires base { base ≡ slots.now.start.op }
    ensures { result ≡ waiting_at layout.now.slots slots.now headers.now op }
{
    let slot = (op % u64::from(layout.slots)) as u32;
    if base < op {
        return headers.get(slot).checksum;
    }
    match slots.prepare(slot) {
        Some(header) => {
            if header.op == op {
                header.checksum
            } else {
                NO_CHECKSUM
            }
        }
        None => NO_CHECKSUM,
    }
}

/// The checksums of the prepares above the stored replies, up to the head, in order of op. That of an op above the checkpoint's
/// is the one in the header table; that of any other op is the one of the prepare with it that its slot showed, and zeros where
/// the slot showed none.
#[tactic(auto, using(crate::proofs::Waits::waiting_count, crate::proofs::Waits::waiting_more, crate::proofs::Waits::waiting_none))]
pub fn waiting_of(
    layout: &Layout,
    slots: &SlotTable,
    headers: &HeaderTable,
    base: u64,
    replies: u64,
    head: u64,
) -> ArrayVec<Check, 8>
    requires slots { length slots.now.slots ≡ layout.now.slots }
    requires headers { length headers.now ≡ layout.now.slots }
    requires base { base ≡ slots.now.start.op }
    requires order { replies ≤ head }
    requires few { head ≤ replies + 8 }
    ensures { result.items ≡ waiting_in layout.now.slots slots.now headers.now replies head }
{
    let mut waiting = ArrayVec::new();
    let mut op = replies;
    while op < head {
        op += 1;
        waiting.push(waiting_at(layout, slots, headers, base, op));
    }
    waiting
}

// The survey of a file whose state was found: of what was read, with the sessions after the tail and their stored replies.
fn with_plan(traces: &Traces, scanned: Scanned) -> Surveyed
    requires scanned { IsLawfulScan scanned }
    requires tail { EndsBehind scanned.file.layout scanned.copies.found.content traces.now }
    requires sessions { AreAfter traces.now scanned.sessions.sessions }
    ensures found { IsWellFound result }
    ensures planned { IsPlannedFor result }
    ensures traces { result.traces ≡ traces.now }
    ensures kept { KeepsRead scanned result.scanned }
    ensures waiting { result.waiting.items ≡ waiting_in scanned.file.layout.slots scanned.rooms.log.slots result.scanned.rooms.log.headers traces.now.replies traces.now.tail.op }
{
    let mut scanned = scanned;
    let file = scanned.file;
    let copies = scanned.copies;
    let members = copies.found.chosen.members;
    let head = traces.tail.op;
    let rooms = &mut scanned.rooms;
    let log = &mut rooms.log;
    let layout = log.layout;
    plan(
        &layout,
        file.cluster,
        &log.slots,
        head,
        &copies.slots,
        &members,
        &mut log.headers,
        &mut log.mends,
    );
    let waiting = waiting_of(
        &layout,
        &log.slots,
        &log.headers,
        copies.found.content.fields().op,
        traces.replies,
        head,
    );
    Surveyed {
        scanned,
        traces: *traces,
        waiting,
    }
}

// The survey of a file that was read: its state is found, and the mending planned.
fn settle(scanned: Scanned) -> Result<Surveyed, (Rooms, OpenError)>
    requires scanned { IsLawfulScan scanned }
    requires sessions { AreOfCheckpoint scanned.copies.found.content scanned.sessions.sessions }
    ensures found { IfOk result IsWellFound }
    ensures planned { IfOk result IsPlannedFor }
    ensures answer { (t : Told) → IsOfFile t scanned.file (read_of scanned) (base_scanned scanned) → SurveysAs scanned.file.version scanned.file.layout t.shown (found_or_refused result) }
    ensures kept { IfOk result (λ s. KeepsScannedFile scanned s.scanned) }
    ensures given_back { IfErr result (λ refused. refused.0.layout ≡ scanned.file.layout) }
    ensures refusal { IfErr result (λ refused. IsDamage refused.1) }
{
    let mut scanned = scanned;
    let layout = scanned.file.layout;
    let copies = scanned.copies;
    let read = &mut scanned;
    let rooms = &read.rooms;
    let found = find_state(
        &layout,
        &copies.found,
        &rooms.log.slots,
        &rooms.log.replies,
        &mut read.sessions,
    );
    match found {
        Ok(traces) => {
            store_replies(&mut read.sessions, traces.replies, &rooms.log.replies);
            Ok(with_plan(&traces, scanned))
        }
        Err(refusal) => Err((scanned.rooms.into_rooms(), refusal)),
    }
}

/// What a file shows where this version is asked for, 1 or 2: its state, and what is to be mended before calls may work on it; or the
/// first refusal of the order of open, and the rooms. It syncs once, then reads each copy of the superblock once, each block of the
/// trailer that it names twice, and each sector of the header ring, each slot of the ring of prepares and each reply slot once, and
/// writes nothing.
pub fn survey_version<D: Disk>(
    disk: &mut D,
    rooms: Rooms,
    version: u32,
) -> Result<Surveyed, (Rooms, OpenError)>
    ensures found { IfOk result IsWellFound }
    ensures layout { IfOk result (λ s. s.scanned.file.layout ≡ rooms.layout) }
    ensures version { IfOk result (λ s. s.scanned.file.version ≡ version) }
    ensures given_back { IfErr result (λ refused. refused.0.layout ≡ rooms.layout) }
    ensures answer { TellsSurveyAs version rooms.layout (D.told disk.old) (found_or_refused result) }
    ensures read { IfOk result (λ s. IsReadOf version rooms.layout (D.told disk.old) s.scanned) }
    ensures mends { IfOk result (TellsPlannedMends rooms.layout (D.told disk.old)) }
    ensures planned { IfOk result IsPlannedFor }
    ensures barrier { Syncs (D.told disk.old) (D.told disk.new) (without_rooms result) }
    ensures cause { IsBlamed is_open_fault (D.faults disk.old) (D.faults disk.new) (without_rooms result) }
{
    match scan_file(disk, rooms, version) {
        Ok(scanned) => settle(scanned),
        Err(refused) => Err(refused),
    }
}
