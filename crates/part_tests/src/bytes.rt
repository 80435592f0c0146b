//! Lists of bytes over shared pages.
ghost use Rattle.std.specs.Prelude.{◌≡◌, length, IfOk};

use extent_bytes::{Extents, MAX_LEN, ReadBytes};
use std::alloc::{AllocError, Global};
use std::sync::Arc;
use std::test::Fail;

/// The ten digits, in a box: a test that owns one is proved in less time.
fn digits(alloc: Global) -> Result<Box<Extents>, AllocError>
    ensures { IfOk result (λ list. length list.value ≡ 10) }
{
    let mut list = Box::new(alloc, Extents::new(alloc))?;
    list.write(0, b"0123456789")?;
    Ok(list)
}

/// Whether a list has these bytes from a place on.
fn shows(list: &Extents, at: u64, bytes: &[u8]) -> Result<bool, AllocError> {
    let end = at.saturating_add(bytes.len() as u64);
    if end > list.len() {
        return Ok(false);
    }
    Ok(list.read(at, end)?.as_slice() == bytes)
}

/// Whether a list of many pages, cut out whole, written to and put back, has what was written.
fn cut_and_write(list: &mut Extents) -> Result<bool, AllocError>
    requires { length list.old ≡ 20003 }
    ensures { IfOk result (λ _. length list.new ≡ 20003) }
{
    let mut part = list.cut(0, 20_003)?;
    part.write(9_000, b"y")?;
    let zeros_left = shows(list, 9_000, b"\0\0")?;
    list.put_back(0, part)?;
    Ok(zeros_left && shows(list, 9_000, b"y\0")?)
}

/// Whether a list that shares what was written keeps it when the other is shortened.
fn share_and_shorten(list: &mut Extents) -> Result<bool, AllocError>
    requires { length list.old ≡ 20003 }
{
    let shared = list.share(0, 20_003)?;
    list.set_len(9_000)?;
    list.set_len(20_003)?;
    Ok(shows(list, 9_000, b"\0\0")? && shows(&shared, 9_000, b"y\0")?)
}

/// Whether a list that shares the whole of another, of many pages, keeps what that loses.
fn keeps_all(list: &mut Extents) -> Result<bool, AllocError>
    requires { length list.old ≡ 10 }
{
    list.write(9_000, b"x")?;
    list.write(20_000, b"abc")?;
    let shared = list.share(0, 20_003)?;
    let moved = cut_and_write(list)? && share_and_shorten(list)?;
    Ok(moved && shows(&shared, 9_000, b"x\0")? && shows(&shared, 20_000, b"abc")?)
}

// A list of many pages and two that share its map: none sees what another writes.
#[test]
fn moves_whole_lists(rt: HostRuntime) -> Result<(), Fail> {
    let mut list = digits(rt.alloc())?;
    assert!(rt; keeps_all(&mut list)?);
    Ok(())
}

/// Whether a list of the greatest length, cut in two, written to at its end and put back, has just
/// those bytes that are written last.
fn cut_and_zero(list: &mut Extents) -> Result<bool, AllocError>
    requires { length list.old ≡ 10 }
{
    list.set_len(MAX_LEN)?;
    let mut part = list.cut(4, MAX_LEN)?;
    part.write(1_099_511_627_770, b"xy")?;
    list.zero(1, MAX_LEN)?;
    list.put_back(4, part)?;
    Ok(shows(list, 0, b"0\0\0\0456789\0")? && shows(list, 1_099_511_627_772, b"\0\0xy")?)
}

// Were zeros stored, these lists would not fit into any memory.
#[test]
fn stores_no_zeros(rt: HostRuntime) -> Result<(), Fail> {
    let mut list = digits(rt.alloc())?;
    assert!(rt; cut_and_zero(&mut list)?);
    Ok(())
}

/// Whether pages behind a hole stay, and a page is there that is written into it, in a list whose
/// pages are written from the last one back.
fn keeps_pages_behind(list: &mut Extents) -> Result<bool, AllocError>
    requires { length list.old ≡ 10 }
{
    list.write(16_384, b"e")?;
    list.write(8_192, b"c")?;
    list.write(4_096, b"b")?;
    list.zero(4_096, 12_288)?;
    let taken_away = shows(list, 4_096, b"\0\0")? && shows(list, 8_192, b"\0\0")?;
    list.write(8_192, b"d")?;
    list.write(4_096, b"f")?;
    let written = shows(list, 4_096, b"f\0")? && shows(list, 8_192, b"d\0")?;
    Ok(taken_away && written && shows(list, 8, b"89\0")? && shows(list, 16_384, b"e")?)
}

// Pages in front of a list and behind a gap, and how they change places.
#[test]
fn takes_pages_away(rt: HostRuntime) -> Result<(), Fail> {
    let mut list = digits(rt.alloc())?;
    assert!(rt; keeps_pages_behind(&mut list)?);
    Ok(())
}

/// Whether ten bytes are those of a list that has them in another place of a page.
fn is_part(list: &Extents, other: &Extents) -> Result<bool, AllocError>
    requires { length list.now ≡ 4100 }
{
    Ok(list.share(4_090, 4_100)?.same(other))
}

/// Whether two lists are equal just where their lengths and bytes are, whatever was written there
/// before, and also where these lie in other places of a page.
fn lengths_and_bytes_tell(list: &mut Extents, other: &mut Extents) -> Result<bool, AllocError>
    requires list { length list.old ≡ 10 }
    requires other { length other.old ≡ 10 }
{
    list.write(4_090, b"0123456789")?;
    let other_place = is_part(list, other)?;
    list.set_len(MAX_LEN)?;
    list.write(50_000, b"\0\0")?;
    other.write(4_089, b"00123456789")?;
    let unlike_lengths = !list.same(other);
    other.set_len(MAX_LEN)?;
    let unlike_bytes = !list.same(other) && !other.same(list);
    other.write(4_089, b"\0")?;
    let told_apart = unlike_lengths && unlike_bytes;
    Ok(other_place && told_apart && list.same(other) && other.same(list))
}

#[test]
fn compares_bytes(rt: HostRuntime) -> Result<(), Fail> {
    let mut list = digits(rt.alloc())?;
    let mut other = digits(rt.alloc())?;
    assert!(rt; lengths_and_bytes_tell(&mut list, &mut other)?);
    Ok(())
}

/// Whether bytes 2 to 5 of the digits, and all from 2 on, stay what they were where the list is
/// written to, so that these are no longer what is read then.
fn stay(
    alloc: Global,
    list: &mut Extents,
    few: &ReadBytes,
    many: &ReadBytes,
) -> Result<bool, AllocError>
    requires { length list.old ≡ MAX_LEN }
{
    list.write(3, b"x")?;
    if many.len() != 1_099_511_627_774 || few.front(64) != b"2345".as_slice() {
        return Ok(false);
    }
    let later = ReadBytes::of(alloc, list, 2, MAX_LEN)?;
    let told_apart = !many.same(&later) && !many.same(few);
    Ok(told_apart && many.read(alloc, 0, 10)?.as_slice() == b"23456789\0\0".as_slice())
}

/// Whether few bytes that were read, and many, stay where the list is written to.
fn reads_stay(alloc: Global, list: &mut Extents) -> Result<bool, AllocError>
    requires { length list.old ≡ 10 }
{
    list.set_len(MAX_LEN)?;
    let few = ReadBytes::of(alloc, list, 2, 6)?;
    let many = ReadBytes::of(alloc, list, 2, MAX_LEN)?;
    stay(alloc, list, &few, &many)
}

#[test]
fn keeps_bytes_that_were_read(rt: HostRuntime) -> Result<(), Fail> {
    let mut list = digits(rt.alloc())?;
    assert!(rt; reads_stay(rt.alloc(), &mut list)?);
    Ok(())
}

/// Whether both are the same bytes, whichever is asked.
fn alike(some: &ReadBytes, others: &ReadBytes) -> bool {
    some.same(others) && others.same(some)
}

/// Whether all of few bytes are these.
fn are(few: &ReadBytes, bytes: &[u8]) -> bool {
    match few.few() {
        Some(few) => few == bytes,
        None => false,
    }
}

/// Whether few bytes within a stored page are the same as those across two, and zeros there the
/// same as those of a page that is not stored, and all of them stay where the list is written to.
fn few_are_alike(alloc: Global, list: &mut Extents) -> Result<bool, AllocError>
    requires { length list.old ≡ 10 }
{
    list.write(4_094, b"2345")?;
    list.set_len(MAX_LEN)?;
    let within = ReadBytes::of(alloc, list, 2, 6)?;
    let across = ReadBytes::of(alloc, list, 4_094, 4_098)?;
    let zeros_within = ReadBytes::of(alloc, list, 20, 24)?;
    let zeros = ReadBytes::of(alloc, list, 50_000, 50_004)?;
    list.write(0, b"xxxxxxxxxxxxxxxxxxxxxxxx")?;
    let stay = are(&within, b"2345") && are(&zeros_within, b"\0\0\0\0");
    let told_apart = !alike(&within, &zeros) && !alike(&across, &zeros_within);
    Ok(stay && told_apart && alike(&within, &across) && alike(&zeros_within, &zeros))
}

#[test]
fn few_bytes_are_the_same_anywhere(rt: HostRuntime) -> Result<(), Fail> {
    let mut list = digits(rt.alloc())?;
    assert!(rt; few_are_alike(rt.alloc(), &mut list)?);
    Ok(())
}

/// A text of many x, one y at 9,999, and then many z.
fn marked_text(alloc: Global) -> Result<Arc<Vec<u8>>, AllocError> {
    let mut bytes = Vec::new(alloc);
    bytes.resize(9_999, b'x')?;
    bytes.push(b'y')?;
    bytes.resize(20_000, b'z')?;
    Ok(Arc::new(alloc, bytes)?)
}

/// Whether a list has the bytes of a text from 100 on, of which it shares pages, and leaves the text
/// as it is where it is written to.
fn shares_a_text(alloc: Global, text: &Arc<Vec<u8>>) -> Result<bool, AllocError> {
    if text.len() != 20_000 {
        return Ok(false);
    }
    let mut list = Extents::of_text(alloc, text, 100, 19_000, 4_095)?;
    let shared = shows(&list, 9_898, b"xyz")? && shows(&list, 18_999, b"z")?;
    list.write(9_899, b"!")?;
    Ok(shared && shows(&list, 9_898, b"x!z")? && text[9_999] == b'y')
}

#[test]
fn a_list_shares_a_text(rt: HostRuntime) -> Result<(), Fail> {
    let text = marked_text(rt.alloc())?;
    assert!(rt; shares_a_text(rt.alloc(), &text)?);
    Ok(())
}
