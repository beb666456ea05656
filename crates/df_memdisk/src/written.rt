// One write in the past of a disk: whole sectors, from a sector on.
ghost use Rattle.std.specs.Prelude.{◌≡◌, ◌≤◌, ◌+◌, ◌-◌, ◌*◌, ◌%◌, length, option_copied, IfSome, IsTrue};
ghost use Rattle.df_base.specs.{declared.TheConstants.{SECTOR}, Image.{covers}, Log.{Write}};
ghost use Rattle.df_memdisk.specs.Newest.{given_by};

use df_base::SECTOR;

/// The bytes of whole sectors that were written from sector `at` on.
#[derive(Drop)]
pub struct Written {
    pub at: u64,
    pub bytes: Vec<u8>,
    ghost whole: { length bytes.items % SECTOR ≡ 0 },
}

impl Written {
    /// Whether the write has bytes for this sector.
    pub fn covers(&self, sector: u64) -> bool
        ensures answer { result ≡ covers self.now.at self.now.bytes.items sector }
        ensures from { IsTrue result → self.now.at ≤ sector }
        ensures to { IsTrue result → SECTOR * (sector - self.now.at) + SECTOR ≤ length self.now.bytes.items }
    {
        self.at <= sector && sector - self.at < (self.bytes.as_slice().len() / SECTOR) as u64
    }

    /// The bytes that the write gave this sector.
    pub fn bytes_for(&self, sector: u64) -> Option<&[u8]>
        ensures bytes { option_copied result ≡ given_by (Write self.now.at self.now.bytes.items) sector }
        ensures size { IfSome result (λ b. length b.now ≡ SECTOR) }
    {
        if !self.covers(sector) {
            return None;
        }
        let from = SECTOR * (sector - self.at) as usize;
        Some(&self.bytes[from..from + SECTOR])
    }
}
