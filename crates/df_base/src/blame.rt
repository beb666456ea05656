// Errors of which one case blames the device: the answer of a call that is more than `Failed`, since it may
// also refuse.
ghost use Rattle.std.specs.Prelude.{◌≡◌, Bool};

/// An error of a call on a device: one case says that the device failed, all others are refusals.
pub trait BlamesDisk {
    /// The case that blames the device.
    ghost is_fault: { Self → Bool };

    /// Whether the device is blamed.
    fn is_fault(&self) -> bool
        ensures { result ≡ is_fault self.now };
}
