ghost use Rattle.std.specs.Prelude.{◌≡◌, ◌+◌, ◌≤◌, ◌++◌, length};
ghost use Rattle.my_reply.specs.Fields.{length_encoded, status_flags};

use crate::short_buf::ShortBuf;

/// How many bytes a number takes, length-encoded.
pub(crate) fn encoded_len(n: u64) -> usize
    ensures len { result ≡ length (length_encoded n) }
    ensures most { result ≤ 9 }
{
    match n {
        0..=250 => 1,
        251..=0xffff => 3,
        0x1_0000..=0xff_ffff => 4,
        _ => 9,
    }
}

/// Adds a number, length-encoded.
pub(crate) fn push_encoded(buf: &mut ShortBuf, n: u64)
    requires { length buf.old + 9 ≤ 525 }
    ensures { buf.new ≡ buf.old ++ length_encoded n }
{
    if n < 251 {
        return buf.push(&[n as u8]);
    }
    if n < 0x1_0000 {
        let [low, high] = (n as u16).to_le_bytes();
        return buf.push(&[0xfc, low, high]);
    }
    if n < 0x100_0000 {
        let [low, middle, high, _] = (n as u32).to_le_bytes();
        return buf.push(&[0xfd, low, middle, high]);
    }
    buf.push(&[0xfe]);
    buf.push(&n.to_le_bytes());
}

/// The status flags of an OK.
pub(crate) fn status_flags(tx: bool, auto: bool) -> u16
    ensures { result ≡ status_flags tx auto }
{
    u16::from(tx) + 2 * u16::from(auto)
}
