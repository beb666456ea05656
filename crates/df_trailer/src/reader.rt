// The reader of a text that comes in pieces. It keeps what it needs of the text and nothing else: the head, the bits and the checksums.
ghost use Rattle.std.specs.Prelude.{◌≡◌, ◌≢◌, ◌↔◌, ◌++◌, IsOk, IfSome, IfNone, ◌+◌, ◌-◌, ◌*◌, ◌/◌, ◌<◌, ℕ, List, Option, [], None, length, vec_len};
ghost use Rattle.df_base.specs.declared.TheConstants.{GREATEST};
ghost use Rattle.df_layout.specs.declared.layout.Layout.{Layout as FileLayout};
ghost use Rattle.df_units.specs.Meaning.{layout_of};
ghost use Rattle.df_trailer.specs.{Rooms.{byte_in_checks, byte_in_words}, Text.{answer, refusal_in}};

use crate::bitmap::{failing_bits, failing_end, is_set, put_byte};
use crate::fault::{Cause, Failing};
use crate::head::{Front, failing_head};
use crate::parts::{CHECK, put_check_byte, root_in, sessions_in, spread};
use crate::{Fault, Parts};
use df_base::Check;
use df_layout::Layout;

/// A reader of one text.
#[derive(Drop)]
pub struct Reader {
    layout: Layout,
    op: u64,
    front: Front,
    parts: Parts,
    /// How many bytes came after the head.
    behind: u64,
    ghost bits_room: { vec_len parts.bits ≡ (layout.blocks + 63) / 64 },
    ghost checks_room: { vec_len parts.checks ≡ layout.blocks },
}

impl Reader {
    ghost use Rattle.df_trailer.specs.{Reading.{failing_before_end}, Rooms.{AreParts, number_in}, Text.{fault, parts_of, refusal}, Sessions.{AreReadSessions}};
    ghost use Rattle.df_trailer.specs.{Reading.{HasBit, HasRead, IsRestTaken, bytes_read, failing_in, kept_at, referenced_below}, Spelling.{is_referenced}};

    /// A reader that was fed nothing, of the trailer of a checkpoint of this op.
    pub fn new(layout: Layout, op: u64, parts: Parts) -> Reader
        requires bits { vec_len parts.bits ≡ (layout.blocks + 63) / 64 }
        requires checks { vec_len parts.checks ≡ layout.blocks }
        ensures fresh { HasRead layout op result [] }
        ensures size { bytes_read result ≡ 0 }
        ensures layout { result.layout ≡ layout }
    {
        Reader {
            layout,
            op,
            front: Front::new(),
            parts,
            behind: 0,
        }
    }

    /// Takes one byte after the head.
    fn take_byte(&mut self, byte: u8)
        requires { self.old.behind < GREATEST }
        ensures size { self.new.behind ≡ self.old.behind + 1 }
        ensures bits { (place : ℕ) → place < (self.old.layout.blocks + 7) / 8 → place ≢ self.old.behind → byte_in_words self.new.parts.bits.items place ≡ byte_in_words self.old.parts.bits.items place }
        ensures bit { self.old.behind < (self.old.layout.blocks + 7) / 8 → byte_in_words self.new.parts.bits.items self.old.behind ≡ byte }
        ensures checks { (place : ℕ) → place < 16 * self.old.layout.blocks → (self.old.layout.blocks + 7) / 8 + place ≢ self.old.behind → byte_in_checks self.new.parts.checks.items place ≡ byte_in_checks self.old.parts.checks.items place }
        ensures check { (place : ℕ) → place < 16 * self.old.layout.blocks → (self.old.layout.blocks + 7) / 8 + place ≡ self.old.behind → byte_in_checks self.new.parts.checks.items place ≡ byte }
        ensures front { self.new.front ≡ self.old.front }
        ensures layout { self.new.layout ≡ self.old.layout }
        ensures op { self.new.op ≡ self.old.op }
    {
        let place = self.behind;
        let bits = u64::from(self.layout.blocks.div_ceil(8));
        self.behind += 1;
        if place < bits {
            put_byte(&mut self.parts.bits, place as usize, byte);
        } else if place - bits < CHECK * u64::from(self.layout.blocks) {
            put_check_byte(&mut self.parts.checks, (place - bits) as usize, byte);
        }
    }

    /// Takes bytes after the head.
    fn take_rest(&mut self, piece: &[u8])
        requires { self.old.behind + length piece.now < GREATEST }
        ensures size { self.new.behind ≡ self.old.behind + length piece.now }
        ensures rest { IsRestTaken self.old self.new piece.now }
        ensures front { self.new.front ≡ self.old.front }
        ensures layout { self.new.layout ≡ self.old.layout }
        ensures op { self.new.op ≡ self.old.op }
    {
        for byte in piece {
            self.take_byte(*byte);
        }
    }

    /// The first part of head and bits that fails in what came so far.
    fn failing_before_end(&self) -> Option<Failing>
        requires { bytes_read self.now < GREATEST }
        ensures { result ≡ failing_before_end self.now }
    {
        match failing_head(&self.front.head, self.layout.clients, self.op) {
            Some(failing) => Some(failing),
            None => failing_bits(
                self.layout.blocks,
                self.front.head.len() as u64,
                &self.parts.bits,
                self.behind,
            ),
        }
    }

    /// The first part that fails in what came so far.
    fn failing(&self) -> Option<Failing>
        requires { bytes_read self.now < GREATEST }
        ensures { result ≡ failing_in self.now }
    {
        match self.failing_before_end() {
            Some(failing) => Some(failing),
            None => failing_end(
                self.layout.blocks,
                self.front.head.len() as u64,
                &self.parts.bits,
                self.behind,
            ),
        }
    }

    /// What fails in what came so far, whatever comes after it: more of a text can still mend its end, so that isn't tested.
    fn refused(&self) -> Result<(), Fault>
        requires { bytes_read self.now < GREATEST }
        ensures { result ≡ answer (refusal_in (failing_in self.now)) }
    {
        match self.failing_before_end() {
            None => Ok(()),
            Some(failing) => match failing.cause {
                Cause::Ends => Ok(()),
                Cause::Says => Err(failing.fault),
            },
        }
    }

    /// Takes the next piece of the text. It refuses exactly where the text so far says what it may not say, whatever
    /// comes after it; a refusal stays for every later piece.
    pub fn feed(&mut self, piece: &[u8]) -> Result<(), Fault>
        requires { bytes_read self.old + length piece.now < GREATEST }
        ensures kept { (layout : FileLayout) (op : ℕ) (text : List ℕ) → HasRead layout op self.old text → HasRead layout op self.new (text ++ piece.now) }
        ensures refusal { (layout : FileLayout) (op : ℕ) (text : List ℕ) → HasRead layout op self.old text → result ≡ answer (refusal (layout_of layout) op (text ++ piece.now)) }
        ensures size { bytes_read self.new ≡ bytes_read self.old + length piece.now }
        ensures layout { self.new.layout ≡ self.old.layout }
    {
        let head = self.front.take(piece);
        self.take_rest(&piece[head..]);
        self.refused()
    }

    /// Answers the first part that fails in the whole text, which is what was fed.
    pub fn end(&self) -> Result<(), Fault>
        requires { bytes_read self.now < GREATEST }
        ensures fault { (layout : FileLayout) (op : ℕ) (text : List ℕ) → HasRead layout op self.now text → result ≡ answer (fault (layout_of layout) op text) }
        ensures whole { IsOk result ↔ (failing_in self.now ≡ None) }
    {
        match self.failing() {
            None => Ok(()),
            Some(failing) => Err(failing.fault),
        }
    }

    /// The checksum of the block at an address of the grid, None exactly where the text doesn't refer to it, once `end` has answered Ok.
    /// The caller counts how many lower addresses the text refers to: their checksums stand before.
    pub fn reference(&self, address: u64, before: u64) -> Option<Check>
        requires inside { HasBit self.now address }
        requires before { before ≡ referenced_below self.now address }
        ensures value { number_in result ≡ kept_at self.now address }
        ensures said { (layout : FileLayout) (op : ℕ) (text : List ℕ) → failing_in self.now ≡ None → HasRead layout op self.now text → number_in result ≡ (parts_of (layout_of layout) text).references address }
        ensures more { IfSome result (λ check. referenced_below self.now (address + 1) ≡ before + 1) }
        ensures same { IfNone result (referenced_below self.now (address + 1) ≡ before) }
        ensures few { before < address }
    {
        if is_set(&self.parts.bits, address - 1) {
            Some(self.parts.checks[before as usize])
        } else {
            None
        }
    }

    /// Tells whether the text refers to the block at an address of the grid, once `end` has answered Ok.
    pub fn refers(&self, address: u64) -> bool
        requires inside { HasBit self.now address }
        ensures { result ≡ is_referenced (kept_at self.now address) }
    {
        is_set(&self.parts.bits, address - 1)
    }

    /// The parts of the text, in the rooms that the reader was given, once `end` has answered Ok.
    pub fn into_parts(self) -> Parts
        requires { failing_in self ≡ None }
        ensures bits { (layout : FileLayout) (op : ℕ) (text : List ℕ) → HasRead layout op self text → vec_len result.bits ≡ (layout.blocks + 63) / 64 }
        ensures checks { (layout : FileLayout) (op : ℕ) (text : List ℕ) → HasRead layout op self text → vec_len result.checks ≡ layout.blocks }
        ensures parts { (layout : FileLayout) (op : ℕ) (text : List ℕ) → HasRead layout op self text → AreParts (layout_of layout) result (parts_of (layout_of layout) text) }
        ensures sessions { (layout : FileLayout) (op : ℕ) (text : List ℕ) → HasRead layout op self text → AreReadSessions layout.clients op result.sessions.items }
    {
        let Reader {
            layout,
            front,
            mut parts,
            ..
        } = self;
        parts.root = root_in(&front.head);
        parts.sessions = sessions_in(&front.head);
        spread(&parts.bits, &mut parts.checks, layout.blocks);
        parts
    }

    /// Gives the rooms for bits and checksums back, with anything in them, whatever `feed` and `end` have answered.
    pub fn into_room(self) -> (Vec<u64>, Vec<Check>)
        ensures bits { vec_len result.0 ≡ (self.layout.blocks + 63) / 64 }
        ensures checks { vec_len result.1 ≡ self.layout.blocks }
    {
        (self.parts.bits, self.parts.checks)
    }
}
