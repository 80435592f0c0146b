//! What the line of an entry has. It is written from its end to its start, into room on the stack.
ghost use Rattle.std.specs.Prelude.{◌≡◌, ◌+◌, ◌*◌, ◌<◌, ◌≤◌, ◌++◌, OnOk, codes, drop, length};
ghost use Rattle.std.specs.Prelude.{slice_index, take};
ghost use Rattle.std.specs.Fmt.{decimal, signed_decimal};
ghost use Rattle.hex.specs.Hex.{encode_lower, lower_digits};
ghost use Rattle.replay_report.specs.Report.{data_text, entry_outcome, posting};
ghost use Rattle.replay_report.specs.Heads.{head_text, ring_text};

use std::alloc::AllocError;

/// How many bytes of a reply are shown.
pub(crate) const SHOWN: usize = 32;

/// Room for a number.
const NUMBER: usize = 20;

/// Room for how a line begins: four numbers, a sign, and 18 bytes of words.
const HEAD: usize = 4 * NUMBER + 19;

/// Room for the bytes that are shown, with the word ahead of them.
const DATA: usize = 2 * SHOWN + 6;

/// Room for what follows: a word of 6 bytes, the bytes that are shown, and a sign.
const OUTCOME: usize = DATA + 7;

const ROOM: usize = HEAD + OUTCOME;

/// How a line begins: the place of the entry, its ring where that is told, its name for its
/// caller, and its result.
#[derive(Clone, Copy)]
pub(crate) struct Head {
    pub place: u32,
    pub ring: Option<u32>,
    pub user_data: u64,
    pub res: i32,
}

/// What each line of an entry has, without a line feed.
pub(crate) fn push_facts(
    text: &mut Vec<u8>,
    head: Head,
    posted: bool,
    bytes: &[u8],
) -> Result<(), AllocError>
    ensures { OnOk result (text.new.items
        ≡ text.old.items ++ (head_text head ++ entry_outcome posted bytes.now)) }
{
    let mut line = [0; ROOM];
    let end = put_outcome(&mut line, ROOM, posted, bytes);
    let start = put_head(&mut line, end, head);
    text.extend_from_slice(&line[start..])
}

// Each of these writes a text so that it ends at `end`, and returns where it starts.

/// How the line of an entry begins.
fn put_head(line: &mut [u8], end: usize, head: Head) -> usize
    requires room { HEAD ≤ end }
    requires within { end ≤ length line.old }
    ensures within { result ≤ length line.new }
    ensures written { drop result line.new ≡ head_text head ++ drop end line.old }
{
    let end = put_text(line, end, b" ");
    let end = put_signed(line, end, head.res);
    let end = put_text(line, end, b" res=");
    let end = put_number(line, end, head.user_data);
    let end = put_text(line, end, b" user=");
    let end = put_ring(line, end, head.ring);
    put_number(line, end, u64::from(head.place))
}

/// The ring of an entry, where it is told.
fn put_ring(line: &mut [u8], end: usize, ring: Option<u32>) -> usize
    requires room { NUMBER + 6 ≤ end }
    requires within { end ≤ length line.old }
    ensures room { end ≤ result + (NUMBER + 6) }
    ensures within { result ≤ length line.new }
    ensures written { drop result line.new ≡ ring_text ring ++ drop end line.old }
{
    match ring {
        None => end,
        Some(ring) => {
            let end = put_number(line, end, u64::from(ring));
            put_text(line, end, b" ring=")
        }
    }
}

/// Whether a completion is posted, and what was read.
fn put_outcome(line: &mut [u8], end: usize, posted: bool, bytes: &[u8]) -> usize
    requires room { OUTCOME ≤ end }
    requires within { end ≤ length line.old }
    ensures within { result ≤ length line.new }
    ensures room { end ≤ result + OUTCOME }
    ensures written { drop result line.new ≡ entry_outcome posted bytes.now ++ drop end line.old }
{
    let end = put_data(line, end, bytes);
    put_posting(line, end, posted)
}

fn put_posting(line: &mut [u8], end: usize, posted: bool) -> usize
    requires room { 6 ≤ end }
    requires within { end ≤ length line.old }
    ensures room { end ≤ result + 6 }
    ensures within { result ≤ length line.new }
    ensures written { drop result line.new ≡ posting posted ++ drop end line.old }
{
    if posted {
        put_text(line, end, b"posted")
    } else {
        put_text(line, end, b"silent")
    }
}

/// The bytes of a reply that has some, or the first of them.
fn put_data(line: &mut [u8], end: usize, bytes: &[u8]) -> usize
    requires room { DATA + 1 ≤ end }
    requires within { end ≤ length line.old }
    ensures within { result ≤ length line.new }
    ensures room { end ≤ result + (DATA + 1) }
    ensures written { drop result line.new ≡ data_text bytes.now ++ drop end line.old }
{
    if bytes.is_empty() {
        return end;
    }
    if bytes.len() <= SHOWN {
        return put_shown(line, end, bytes);
    }
    let end = put_text(line, end, b"+");
    put_shown(line, end, first_bytes(bytes))
}

/// Bytes in hexadecimal, with the word ahead of them.
fn put_shown(line: &mut [u8], end: usize, bytes: &[u8]) -> usize
    requires few { length bytes.now ≤ SHOWN }
    requires room { DATA ≤ end }
    requires within { end ≤ length line.old }
    ensures within { result ≤ length line.new }
    ensures room { end ≤ result + DATA }
    ensures written { drop result line.new
        ≡ codes " data=" ++ encode_lower bytes.now ++ drop end line.old }
{
    let end = put_hexadecimal(line, end, bytes);
    put_text(line, end, b" data=")
}

fn first_bytes(bytes: &[u8]) -> &[u8]
    requires { SHOWN ≤ length bytes.now }
    ensures few { length result.now ≤ SHOWN }
    ensures front { result.now ≡ take SHOWN bytes.now }
{
    &bytes[..SHOWN]
}

fn put_hexadecimal(line: &mut [u8], end: usize, bytes: &[u8]) -> usize
    requires room { 2 * length bytes.now ≤ end }
    requires within { end ≤ length line.old }
    ensures start { result + 2 * length bytes.now ≡ end }
    ensures written { drop result line.new ≡ encode_lower bytes.now ++ drop end line.old }
{
    let start = end - 2 * bytes.len();
    write_hexadecimal(&mut line[start..end], bytes);
    start
}

/// Two digits for each byte, high half first.
fn write_hexadecimal(digits: &mut [u8], bytes: &[u8])
    requires { length digits.old ≡ 2 * length bytes.now }
    ensures { digits.new ≡ encode_lower bytes.now }
{
    'bytes: for i in 0..bytes.len() {
        let byte = bytes[i];
        digits[2 * i] = digit(byte >> 4);
        digits[2 * i + 1] = digit(byte & 0x0f);
    }
}

/// The digit of half a byte. Digits are computed and not looked up, and without a branch: so many
/// are made at once.
pub(crate) fn digit(half: u8) -> u8
    requires { half < 16 }
    ensures value { result ≡ slice_index lower_digits half }
    ensures ascii { result < 128 }
{
    b'0' + half + if half < 10 { 0 } else { b'a' - 10 - b'0' }
}

/// A number with its sign.
fn put_signed(line: &mut [u8], end: usize, number: i32) -> usize
    requires room { NUMBER + 1 ≤ end }
    requires within { end ≤ length line.old }
    ensures room { end ≤ result + (NUMBER + 1) }
    ensures within { result ≤ length line.new }
    ensures written { drop result line.new ≡ signed_decimal number ++ drop end line.old }
{
    let start = put_number(line, end, number.unsigned_abs() as u64);
    if number >= 0 {
        return start;
    }
    put_text(line, start, b"-")
}

fn put_number(line: &mut [u8], end: usize, number: u64) -> usize
    requires room { NUMBER ≤ end }
    requires within { end ≤ length line.old }
    ensures room { end ≤ result + NUMBER }
    ensures within { result ≤ length line.new }
    ensures written { drop result line.new ≡ decimal number ++ drop end line.old }
{
    itoa::write_digits(number, line, end)
}

fn put_text<const N: usize>(line: &mut [u8], end: usize, text: &[u8; N]) -> usize
    requires room { N ≤ end }
    requires within { end ≤ length line.old }
    ensures start { result + N ≡ end }
    ensures written { drop result line.new ≡ text.now ++ drop end line.old }
{
    let start = end - N;
    put_first(&mut line[start..], text);
    start
}

/// Puts a text over the first bytes. Its length is a constant, so that it takes a store or two.
fn put_first<const N: usize>(bytes: &mut [u8], text: &[u8; N])
    requires { N ≤ length bytes.old }
    ensures { bytes.new ≡ text.now ++ drop N bytes.old }
{
    if let Some(first) = bytes.first_chunk_mut() {
        *first = *text;
    }
}
