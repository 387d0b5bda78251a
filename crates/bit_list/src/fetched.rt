// Bits that are fetched ahead, several units at once.
ghost use Rattle.std.specs.Prelude.{◌≡◌, ◌+◌, ◌-◌, ◌^◌, ◌<◌, ◌≤◌, ◌≢◌, Ok, Err, length, slice_index_or, IfSome, IfOk, IfErr};
ghost use Rattle.bit_list.specs.Bits.{low_bits};
ghost use Rattle.bit_list.specs.Units.{unit_at, bits_at};
ghost use Rattle.bit_list.specs.BitsInside.{cursor_of, cursor_of_fetched, place_before, ArePlain, IsFetched, IsWindow};
ghost use Rattle.bit_list.specs.Peeked.{peeked};

use crate::bit_buffer::may_have_full_byte;
use crate::fault::BitFault;
use crate::window::{Window, fill, first_bits, split, unit};

/// Bits that were fetched ahead, and the places of their units.
#[derive(Clone, Copy)]
pub(crate) struct Fetched {
    // The bits are its low ones.
    pub(crate) word: u64,
    // How many they are.
    pub(crate) count: u8,
    // How many bits of the next unit are left out, if there are no bits.
    pub(crate) skip: u8,
    // Which of the last eight units that were fetched have two bytes, the last one in the lowest bit. Bits are kept of
    // eight at most.
    pub(crate) stuffed: u8,
    // The place of the unit of the last bit before the unit at `first`.
    pub(crate) last: usize,
    // The place of the first unit that was fetched.
    pub(crate) first: usize,
    // The place after the units that were fetched.
    pub(crate) end: usize,
}

// The place before the last `n` units that were fetched, if there are that many.
#[inline(always)]
fn before(at: &Fetched, n: u8) -> usize
    requires { n ≤ 8 }
    ensures { result ≡ place_before at.now.end at.now.stuffed n }
{
    let stuffed = u32::from(at.stuffed) & ((1 << n) - 1);
    at.end
        .saturating_sub(usize::from(n) + stuffed.count_ones() as usize)
}

/// What is left of the unit begun, and the places.
#[inline(always)]
pub(crate) fn begun(bytes: &[u8], at: Fetched) -> Window
    requires { IsFetched bytes.now at }
    ensures cursor { cursor_of result ≡ cursor_of_fetched at }
    ensures kept { IsWindow result }
    ensures short { result.count ≤ 7 }
{
    let units = at.count / 8;
    let next = before(&at, units);
    let last = if at.first < next {
        before(&at, units + 1)
    } else {
        at.last
    };
    Window {
        number: ((at.word >> (8 * units)) & ((1 << (at.count % 8)) - 1)) as u8,
        count: at.count % 8,
        skip: at.skip,
        last,
        next,
    }
}

// A window that holds no whole unit, as fetched bits.
#[inline(always)]
fn alone(bytes: &[u8], at: Window) -> Fetched
    requires window { IsWindow at }
    requires short { at.count ≤ 7 }
    ensures cursor { cursor_of_fetched result ≡ cursor_of at }
    ensures kept { IsFetched bytes.now result }
{
    let _ = bytes;
    Fetched {
        word: u64::from(at.number),
        count: at.count,
        skip: at.skip,
        stuffed: 0,
        last: at.last,
        first: at.next,
        end: at.next,
    }
}

// Fetches one unit more.
#[tactic(auto, using(crate::proofs::Spanning::unit_spans))]
#[inline(always)]
fn fetch(bytes: &[u8], at: &mut Fetched, byte: u8, next: usize)
    requires kept { IsFetched bytes.now at.old }
    requires fresh { at.old.skip ≡ 0 }
    requires room { at.old.count ≤ 55 }
    requires unit { unit_at bytes.now at.old.end ≡ Ok (byte, next) }
    ensures cursor { cursor_of_fetched at.new ≡ cursor_of_fetched at.old }
    ensures kept { IsFetched bytes.now at.new }
    ensures fresh { at.new.skip ≡ 0 }
    ensures count { at.new.count ≡ at.old.count + 8 }
    ensures end { at.new.end ≡ next }
    ensures last { at.new.last ≡ at.old.last }
    ensures first { at.new.first ≡ at.old.first }
{
    let _ = bytes;
    at.word = (at.word << 8) + u64::from(byte);
    at.count += 8;
    at.stuffed = (at.stuffed << 1) + (next - at.end - 1) as u8;
    at.end = next;
}

// Fetches one unit more, which is one byte.
#[inline(always)]
fn fetch_plain(bytes: &[u8], at: &mut Fetched)
    requires kept { IsFetched bytes.now at.old }
    requires fresh { at.old.skip ≡ 0 }
    requires room { at.old.count ≤ 55 }
    requires within { at.old.end < length bytes.now }
    requires plain { slice_index_or bytes.now at.old.end 0 ≢ 255 }
    ensures cursor { cursor_of_fetched at.new ≡ cursor_of_fetched at.old }
    ensures kept { IsFetched bytes.now at.new }
    ensures fresh { at.new.skip ≡ 0 }
    ensures count { at.new.count ≡ at.old.count + 8 }
    ensures end { at.new.end ≡ at.old.end + 1 }
    ensures last { at.new.last ≡ at.old.last }
    ensures first { at.new.first ≡ at.old.first }
{
    let place = at.end;
    fetch(bytes, at, bytes[place], place + 1);
}

// The six bytes at a place as a number, the first one highest, if two more follow and none of the six is 0xff. Eight are
// loaded at once.
#[inline(always)]
fn plain_six(bytes: &[u8], place: usize) -> Option<u64>
    ensures { IfSome result (ArePlain bytes.now place) }
{
    if place >= bytes.len() || bytes.len() - place < 8 {
        return None;
    }
    let six = u64::from_be_bytes([
        bytes[place],
        bytes[place + 1],
        bytes[place + 2],
        bytes[place + 3],
        bytes[place + 4],
        bytes[place + 5],
        bytes[place + 6],
        bytes[place + 7],
    ]) >> 16;
    if may_have_full_byte(six) {
        return None;
    }
    Some(six)
}

// Fetches six units more, which are one byte each.
#[inline(always)]
fn fetch_six(bytes: &[u8], at: &mut Fetched, six: u64)
    requires kept { IsFetched bytes.now at.old }
    requires fresh { at.old.skip ≡ 0 }
    requires room { at.old.count ≤ 15 }
    requires plain { ArePlain bytes.now at.old.end six }
    ensures cursor { cursor_of_fetched at.new ≡ cursor_of_fetched at.old }
    ensures kept { IsFetched bytes.now at.new }
{
    let _ = bytes;
    at.word = (at.word << 48) + six;
    at.count += 48;
    at.stuffed <<= 6;
    at.end += 6;
}

/// A copy without the padding, which in a copy of the whole takes room of its own.
#[inline(always)]
pub(crate) fn by_fields(at: &Fetched) -> Fetched
    ensures { result ≡ at.now }
{
    Fetched {
        word: at.word,
        count: at.count,
        skip: at.skip,
        stuffed: at.stuffed,
        last: at.last,
        first: at.first,
        end: at.end,
    }
}

/// Fetches six units, if they are one byte each, or else as many as there are and there is room for.
#[inline(always)]
pub(crate) fn refill(bytes: &[u8], at: &mut Fetched)
    requires kept { IsFetched bytes.now at.old }
    requires room { at.old.count ≤ 15 }
    ensures cursor { cursor_of_fetched at.new ≡ cursor_of_fetched at.old }
    ensures kept { IsFetched bytes.now at.new }
{
    if at.skip == 0 {
        if let Some(six) = plain_six(bytes, at.end) {
            fetch_six(bytes, at, six);
            return;
        }
    }
    refill_apart(bytes, at);
}

// The places that fetching more doesn't change stay as they are, so that nothing is stored for them. The rest is
// `filled_of`.
#[inline(always)]
fn refill_apart(bytes: &[u8], at: &mut Fetched)
    requires { IsFetched bytes.now at.old }
    ensures cursor { cursor_of_fetched at.new ≡ cursor_of_fetched at.old }
    ensures kept { IsFetched bytes.now at.new }
{
    let filled = filled_of(bytes, by_fields(at));
    at.word = filled.word;
    at.count = filled.count;
    at.stuffed = filled.stuffed;
    at.end = filled.end;
}

// What changes of fetched bits if more are fetched.
#[derive(Clone, Copy)]
struct Filled {
    word: u64,
    end: usize,
    count: u8,
    stuffed: u8,
}

// With units fetched one by one. By value, so that no address of a local reader is passed on.
#[cold]
#[inline(never)]
fn filled_of(bytes: &[u8], begin: Fetched) -> Filled
    requires { IsFetched bytes.now begin }
    ensures cursor { cursor_of_fetched (record begin {
      word = result.word;
      count = result.count;
      stuffed = result.stuffed;
      end = result.end;
    }) ≡ cursor_of_fetched begin }
    ensures kept { IsFetched bytes.now (record begin {
      word = result.word;
      count = result.count;
      stuffed = result.stuffed;
      end = result.end;
    }) }
{
    let more = refilled(bytes, begin);
    Filled {
        word: more.word,
        end: more.end,
        count: more.count,
        stuffed: more.stuffed,
    }
}

// With units fetched one by one, if none is begun whose first bits are left out.
#[inline(always)]
fn refilled(bytes: &[u8], begin: Fetched) -> Fetched
    requires { IsFetched bytes.now begin }
    ensures cursor { cursor_of_fetched result ≡ cursor_of_fetched begin }
    ensures kept { IsFetched bytes.now result }
    ensures skip { result.skip ≡ begin.skip }
    ensures last { result.last ≡ begin.last }
    ensures first { result.first ≡ begin.first }
{
    if begin.skip != 0 {
        return begin;
    }
    let mut at = begin;
    fetch_up_to(bytes, &mut at);
    at
}

// Fetches them one by one.
#[inline(always)]
fn fetch_up_to(bytes: &[u8], at: &mut Fetched)
    requires kept { IsFetched bytes.now at.old }
    requires fresh { at.old.skip ≡ 0 }
    ensures cursor { cursor_of_fetched at.new ≡ cursor_of_fetched at.old }
    ensures kept { IsFetched bytes.now at.new }
    ensures fresh { at.new.skip ≡ 0 }
    ensures last { at.new.last ≡ at.old.last }
    ensures first { at.new.first ≡ at.old.first }
{
    while at.count <= 55 {
        let place = at.end;
        if place < bytes.len() && bytes[place] != 0xff {
            fetch_plain(bytes, at);
        } else {
            let Ok((byte, next)) = unit(bytes, place) else {
                return;
            };
            fetch(bytes, at, byte, next);
        }
    }
}

/// `fetch_and_take`, so placed that the room for its answer is cleared only if it is called, and not for each symbol.
#[inline(always)]
pub(crate) fn take_apart(bytes: &[u8], begin: &Fetched, n: u8) -> Result<(u16, Fetched), BitFault>
    requires kept { IsFetched bytes.now begin.now }
    requires few { n ≤ 16 }
    ensures below { IfOk result (λ r. r.0 < 2 ^ n) }
    ensures bits { IfOk result
        (λ r. bits_at n bytes.now (cursor_of_fetched begin.now)
        ≡ Ok (low_bits n r.0, cursor_of_fetched r.1)) }
    ensures kept { IfOk result (λ r. IsFetched bytes.now r.1) }
    ensures err { IfErr result
        (λ e. bits_at n bytes.now (cursor_of_fetched begin.now) ≡ Err e) }
{
    match fetch_and_take(bytes, by_fields(begin), n) {
        Ok((number, after)) => Ok((number, by_fields(&after))),
        Err(fault) => Err(fault),
    }
}

// The next bits as a number, and what follows them, if a unit must be fetched first.
#[cold]
#[inline(never)]
fn fetch_and_take(bytes: &[u8], begin: Fetched, n: u8) -> Result<(u16, Fetched), BitFault>
    requires kept { IsFetched bytes.now begin }
    requires few { n ≤ 16 }
    ensures below { IfOk result (λ r. r.0 < 2 ^ n) }
    ensures bits { IfOk result
        (λ r. bits_at n bytes.now (cursor_of_fetched begin)
        ≡ Ok (low_bits n r.0, cursor_of_fetched r.1)) }
    ensures kept { IfOk result (λ r. IsFetched bytes.now r.1) }
    ensures err { IfErr result
        (λ e. bits_at n bytes.now (cursor_of_fetched begin) ≡ Err e) }
{
    by_units(bytes, refilled(bytes, begin), n)
}

// The next bits as a number, and what follows them, unit by unit.
fn by_units(bytes: &[u8], begin: Fetched, n: u8) -> Result<(u16, Fetched), BitFault>
    requires kept { IsFetched bytes.now begin }
    requires few { n ≤ 16 }
    ensures below { IfOk result (λ r. r.0 < 2 ^ n) }
    ensures bits { IfOk result
        (λ r. bits_at n bytes.now (cursor_of_fetched begin)
        ≡ Ok (low_bits n r.0, cursor_of_fetched r.1)) }
    ensures kept { IfOk result (λ r. IsFetched bytes.now r.1) }
    ensures err { IfErr result
        (λ e. bits_at n bytes.now (cursor_of_fetched begin) ≡ Err e) }
{
    if n <= begin.count {
        let number = top_bits(bytes, &begin, n);
        let count = begin.count - n;
        return Ok((number, Fetched { count, ..begin }));
    }
    let (number, window) = first_bits(bytes, begun(bytes, begin), n)?;
    Ok((number, alone(bytes, window)))
}

/// The first of the fetched bits as a number.
#[inline(always)]
pub(crate) fn top_bits(bytes: &[u8], at: &Fetched, n: u8) -> u16
    requires kept { IsFetched bytes.now at.now }
    requires few { n ≤ 16 }
    requires there { n ≤ at.now.count }
    ensures below { result < 2 ^ n }
    ensures bits { bits_at n bytes.now (cursor_of_fetched at.now)
        ≡ Ok (low_bits n result, cursor_of_fetched (record at.now { count = at.now.count - n })) }
    ensures kept { IsFetched bytes.now (record at.now { count = at.now.count - n }) }
{
    let _ = bytes;
    ((at.word >> (at.count - n)) & ((1 << n) - 1)) as u16
}

/// The next nine bits as a number, unit by unit, zeros for those that no unit gives.
#[cold]
#[inline(never)]
pub(crate) fn peek_by_units(bytes: &[u8], begin: Fetched) -> u16
    requires { IsFetched bytes.now begin }
    ensures bits { low_bits 9 result ≡ peeked 9 bytes.now (cursor_of_fetched begin) }
    ensures below { result < 512 }
{
    let mut at = begun(bytes, begin);
    let mut number = 0u16;
    let mut wanted = 9u8;
    while wanted > 0 {
        match fill(bytes, at) {
            Ok(filled) => {
                let count = wanted.min(filled.count);
                let (first, rest) = split(filled, count);
                number = (number << count) + u16::from(first);
                at = rest;
                wanted -= count;
            }
            Err(_) => return number << wanted,
        }
    }
    number
}
