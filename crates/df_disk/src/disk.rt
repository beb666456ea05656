// The device: reads and writes of whole sectors, and the barrier between writes.
ghost use Rattle.std.specs.Prelude.{◌≡◌, ◌⊎◌, Option, ℕ, length, OnErr, OnOk};
ghost use Rattle.df_base.specs.{Causes.{HasCause}, Log.{Write, Sync}};
ghost use Rattle.df_disk.specs.Told.{Told, after, AreSectors, Shows};

use df_base::Failed;

/// A device of sectors of 4096 bytes, numbered from 0. Its one atomic step is a `write` or a `sync`.
pub trait Disk {
    /// The log of what it was asked to do and what a read gives, where the disk tells them.
    ghost told: { Self → Option Told };

    /// How often a call has failed. One that fails counts once, no other call counts, and the count stops at `u64::MAX`.
    ghost faults: { Self → ℕ };

    /// Reads whole sectors from sector `at` on. A sector that was never written holds zeros.
    /// After an error the buffer holds any bytes.
    fn read(&mut self, at: u64, into: &mut [u8]) -> Result<(), Failed>
        requires { AreSectors at (length into.old) }
        ensures bytes { OnOk result (Shows (told self.old) at into.new) }
        ensures same { told self.new ≡ told self.old }
        ensures cause { HasCause (faults self.old) (faults self.new) result };

    /// Writes whole sectors from sector `at` on. Until the next sync they may hold any bytes after
    /// a stop. A write that fails adds its event or nothing.
    fn write(&mut self, at: u64, bytes: &[u8]) -> Result<(), Failed>
        requires { AreSectors at (length bytes.now) }
        ensures ok { OnOk result (told self.new ≡ after (Write at bytes.now) (told self.old)) }
        ensures err { OnErr result ((told self.new ≡ told self.old) ⊎ (told self.new ≡ after (Write at bytes.now) (told self.old))) }
        ensures cause { HasCause (faults self.old) (faults self.new) result };

    /// Makes all that was written durable.
    fn sync(&mut self) -> Result<(), Failed>
        ensures ok { OnOk result (told self.new ≡ after Sync (told self.old)) }
        ensures err { OnErr result (told self.new ≡ told self.old) }
        ensures cause { HasCause (faults self.old) (faults self.new) result };
}
