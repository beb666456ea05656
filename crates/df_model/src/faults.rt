// Which error of each call blames the device.
ghost use Rattle.std.specs.Prelude.{◌≡◌};
ghost use Rattle.df_model.specs.Faults.{is_format_fault, is_open_fault, is_mend_fault, is_append_fault, is_flush_fault, is_reply_fault, is_block_fault, is_step_fault, is_prepare_fault, is_lookup_fault, is_read_fault};

use crate::{
    AppendError, BlockError, FlushError, FormatError, LookupError, MendError, OpenError,
    PrepareError, ReadError, ReplyError, StepError,
};
use df_base::BlamesDisk;

impl BlamesDisk for FormatError {
    ghost is_fault = { is_format_fault };

    fn is_fault(&self) -> bool
        ensures { result ≡ is_format_fault self.now }
    {
        *self == FormatError::DiskFault
    }
}

impl BlamesDisk for OpenError {
    ghost is_fault = { is_open_fault };

    fn is_fault(&self) -> bool
        ensures { result ≡ is_open_fault self.now }
    {
        *self == OpenError::DiskFault
    }
}

impl BlamesDisk for MendError {
    ghost is_fault = { is_mend_fault };

    fn is_fault(&self) -> bool
        ensures { result ≡ is_mend_fault self.now }
    {
        *self == MendError::DiskFault
    }
}

impl BlamesDisk for AppendError {
    ghost is_fault = { is_append_fault };

    fn is_fault(&self) -> bool
        ensures { result ≡ is_append_fault self.now }
    {
        *self == AppendError::DiskFault
    }
}

impl BlamesDisk for FlushError {
    ghost is_fault = { is_flush_fault };

    fn is_fault(&self) -> bool
        ensures { result ≡ is_flush_fault self.now }
    {
        *self == FlushError::DiskFault
    }
}

impl BlamesDisk for ReplyError {
    ghost is_fault = { is_reply_fault };

    fn is_fault(&self) -> bool
        ensures { result ≡ is_reply_fault self.now }
    {
        *self == ReplyError::DiskFault
    }
}

impl BlamesDisk for BlockError {
    ghost is_fault = { is_block_fault };

    fn is_fault(&self) -> bool
        ensures { result ≡ is_block_fault self.now }
    {
        *self == BlockError::DiskFault
    }
}

impl BlamesDisk for StepError {
    ghost is_fault = { is_step_fault };

    fn is_fault(&self) -> bool
        ensures { result ≡ is_step_fault self.now }
    {
        *self == StepError::DiskFault
    }
}

impl BlamesDisk for PrepareError {
    ghost is_fault = { is_prepare_fault };

    fn is_fault(&self) -> bool
        ensures { result ≡ is_prepare_fault self.now }
    {
        *self == PrepareError::DiskFault
    }
}

impl BlamesDisk for LookupError {
    ghost is_fault = { is_lookup_fault };

    fn is_fault(&self) -> bool
        ensures { result ≡ is_lookup_fault self.now }
    {
        *self == LookupError::DiskFault
    }
}

impl BlamesDisk for ReadError {
    ghost is_fault = { is_read_fault };

    fn is_fault(&self) -> bool
        ensures { result ≡ is_read_fault self.now }
    {
        *self == ReadError::DiskFault
    }
}
