// The lines that say why a command is refused: the name of the cause and its numbers. A failing disk has no line.
ghost use Rattle.std.specs.Prelude.{◌≡◌};
ghost use Rattle.df_script_model.specs.Texts.{append_refusal, begin_refusal_line, block_refusal, flush_refusal, lookup_refusal, prepare_refusal, read_refusal, reply_refusal, step_refusal};

use crate::line::{Line, damaged_line, number_line, text_line, two_numbers_line};
use df_model::{
    AppendError, BeginError, BlockError, FlushError, LookupError, PrepareError, ReadError,
    ReplyError, StepError,
};

/// Why a prepare isn't appended.
pub(crate) fn append_refusal(error: AppendError) -> Line
    ensures { result.items ≡ append_refusal error }
{
    match error {
        AppendError::ClientZero => text_line("refused ClientZero\n"),
        AppendError::BodyTooLong { max } => number_line("refused BodyTooLong max", u128::from(max)),
        AppendError::ClientsFull { max } => number_line("refused ClientsFull max", u128::from(max)),
        AppendError::Repeated { op } => number_line("refused Repeated op", u128::from(op)),
        AppendError::ReplyPending { op } => number_line("refused ReplyPending op", u128::from(op)),
        AppendError::RequestOrder { expected } => {
            number_line("refused RequestOrder expected", u128::from(expected))
        }
        AppendError::PipelineFull { waiting } => {
            number_line("refused PipelineFull waiting", u128::from(waiting))
        }
        AppendError::WalFull { op, checkpoint_op } => {
            two_numbers_line("refused WalFull op", op, "checkpoint_op", checkpoint_op)
        }
        AppendError::OpsSpent => text_line("refused OpsSpent\n"),
        AppendError::DiskFault => text_line(""),
        AppendError::Staged { count } => number_line("refused Staged count", u128::from(count)),
    }
}

/// Why what is staged isn't appended.
pub(crate) fn flush_refusal(error: FlushError) -> Line
    ensures { result.items ≡ flush_refusal error }
{
    match error {
        FlushError::NothingStaged => text_line("refused NothingStaged\n"),
        FlushError::DiskFault => text_line(""),
    }
}

/// Why a reply isn't stored.
pub(crate) fn reply_refusal(error: ReplyError) -> Line
    ensures { result.items ≡ reply_refusal error }
{
    match error {
        ReplyError::NothingPending { head } => {
            number_line("refused NothingPending head", u128::from(head))
        }
        ReplyError::ReplyOrder { expected } => {
            number_line("refused ReplyOrder expected", u128::from(expected))
        }
        ReplyError::BodyTooLong { max } => number_line("refused BodyTooLong max", u128::from(max)),
        ReplyError::DiskFault => text_line(""),
    }
}

/// Why a block isn't written.
pub(crate) fn block_refusal(error: BlockError) -> Line
    ensures { result.items ≡ block_refusal error }
{
    match error {
        BlockError::KindZero => text_line("refused KindZero\n"),
        BlockError::BodyTooLong { max } => number_line("refused BodyTooLong max", u128::from(max)),
        BlockError::GridFull { blocks } => {
            number_line("refused GridFull blocks", u128::from(blocks))
        }
        BlockError::DiskFault => text_line(""),
    }
}

/// Why a checkpoint isn't begun.
pub(crate) fn begin_refusal(error: BeginError) -> Line
    ensures { result.items ≡ begin_refusal_line error }
{
    match error {
        BeginError::Running { left } => number_line("refused Running left", u128::from(left)),
        BeginError::RootTooLong { max } => number_line("refused RootTooLong max", u128::from(max)),
        BeginError::GridFull { needed, free } => two_numbers_line(
            "refused GridFull needed",
            needed,
            "free",
            free,
        ),
        BeginError::SequenceSpent => text_line("refused SequenceSpent\n"),
    }
}

/// Why a step of a checkpoint isn't done.
pub(crate) fn step_refusal(error: StepError) -> Line
    ensures { result.items ≡ step_refusal error }
{
    match error {
        StepError::NotRunning => text_line("refused NotRunning\n"),
        StepError::Damaged { place, class } => damaged_line(place, class),
        StepError::DiskFault => text_line(""),
    }
}

/// Why a prepare isn't read.
pub(crate) fn prepare_refusal(error: PrepareError) -> Line
    ensures { result.items ≡ prepare_refusal error }
{
    match error {
        PrepareError::NotKept { first, last } => two_numbers_line(
            "refused NotKept first",
            first,
            "last",
            last,
        ),
        PrepareError::Damaged { place, class } => damaged_line(place, class),
        PrepareError::DiskFault => text_line(""),
    }
}

/// Why a client's reply isn't read.
pub(crate) fn lookup_refusal(error: LookupError) -> Line
    ensures { result.items ≡ lookup_refusal error }
{
    match error {
        LookupError::NoClient => text_line("refused NoClient\n"),
        LookupError::ReplyPending { op } => number_line("refused ReplyPending op", u128::from(op)),
        LookupError::Damaged { place, class } => damaged_line(place, class),
        LookupError::DiskFault => text_line(""),
    }
}

/// Why a block isn't read.
pub(crate) fn read_refusal(error: ReadError) -> Line
    ensures { result.items ≡ read_refusal error }
{
    match error {
        ReadError::NotLive => text_line("refused NotLive\n"),
        ReadError::Damaged { place, class } => damaged_line(place, class),
        ReadError::DiskFault => text_line(""),
    }
}
