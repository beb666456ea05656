// The draw: one number after the other, each of which stands for a body.
ghost use Rattle.std.specs.Prelude.{◌≡◌, ◌<◌, ◌^◌, take};
ghost use Rattle.df_workload.specs.{Asking.{number_body}, Draw.{body_length, drawn_body, first_number, next_number}};

use df_base::put_u64;

/// No drawn body has this many bytes.
pub(crate) const ROOM: usize = 2048;

/// The number before the first draw.
pub(crate) fn first_number(seed: u64) -> u64
    ensures value { result ≡ first_number seed }
    ensures fits { result < 2 ^ 31 }
{
    seed % (1 << 31)
}

/// The next draw.
pub(crate) fn next_number(number: u64) -> u64
    requires { number < 2 ^ 31 }
    ensures value { result ≡ next_number number }
    ensures fits { result < 2 ^ 31 }
{
    (number * 1_103_515_245 + 12_345) % (1 << 31)
}

/// How many bytes the body of a draw has.
pub(crate) fn body_length(number: u64) -> usize
    ensures value { result ≡ body_length number }
    ensures fits { result < 2048 }
{
    (number / 65_536 % 2048) as usize
}

/// Fills the front of a room with the body of a draw.
pub(crate) fn fill(room: &mut [u8; ROOM], number: u64)
    ensures { take (body_length number) room.new ≡ drawn_body number }
{
    let byte = (number % 256) as u8;
    room[..body_length(number)].fill(byte);
}

/// A number as 8 bytes, the lowest byte first.
pub fn number_body(number: u64) -> [u8; 8]
    ensures { result ≡ number_body number }
{
    let mut body = [0; 8];
    put_u64(&mut body, 0, number);
    body
}
