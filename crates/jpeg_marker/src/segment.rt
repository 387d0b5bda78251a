// Marker segments (ITU-T T.81, B.1.1).
ghost use Rattle.std.specs.Prelude.{◌≡◌, ◌≢◌, ◌≤◌, ◌<◌, ◌+◌, ◌-◌, ◌^◌, ◌++◌, IsTrue, replicate, length, slice_index, IfOk, OnOk};
ghost use Rattle.jpeg_marker.specs.HeaderRefusals.{fault_in};
ghost use Rattle.jpeg_marker.specs.MarkerSegments.{two_bytes, is_known};
ghost use Rattle.jpeg_marker.specs.GoodSegments.{stuck_at, stuck_after, code_fault, length_fault};
ghost use Rattle.jpeg_marker.specs.StandingSegments.{Stands};

use crate::number::number_at;
use crate::refusal::HeaderRefusal;

/// A whole segment: its code, the place of its length, what the length counts, and what follows.
#[derive(Drop)]
pub(crate) struct MarkerSegment<'a> {
    pub(crate) code: u8,
    pub(crate) at: usize,
    pub(crate) body: &'a [u8],
    pub(crate) rest: &'a [u8],
}

/// The segment at a place, from its first byte on.
pub(crate) fn segment_at(bytes: &[u8], place: usize) -> Result<MarkerSegment<'_>, HeaderRefusal>
    requires { place + length bytes.now < 2 ^ 64 }
    ensures fault { fault_in result ≡ stuck_at place bytes.now }
    ensures whole { IfOk result (λ w. Stands bytes.now place w.code w.at w.body.now w.rest.now) }
{
    let [first, after @ ..] = bytes else {
        return Err(HeaderRefusal::HeaderCut);
    };
    if *first != 0xff {
        return Err(HeaderRefusal::MarkerBad { place });
    }
    let (marked, place) = skip_fill(after, place + 1);
    let [code, bytes @ ..] = marked else {
        return Err(HeaderRefusal::HeaderCut);
    };
    check_code(*code, place)?;
    let (body, rest) = body_at(bytes, place + 1)?;
    Ok(MarkerSegment {
        code: *code,
        at: place + 1,
        body,
        rest,
    })
}

// The bytes after the fill bytes of 0xff, and their place.
fn skip_fill(bytes: &[u8], place: usize) -> (&[u8], usize)
    requires { place + length bytes.now < 2 ^ 64 }
    ensures stuck { stuck_after result.1 result.0.now ≡ stuck_after place bytes.now }
    ensures fill { bytes.now ≡ replicate (result.1 - place) 255 ++ result.0.now }
    ensures after { place ≤ result.1 }
    ensures room { result.1 + length result.0.now ≡ place + length bytes.now }
    ensures ended { slice_index result.0.now 0 ≢ 255 }
{
    let mut here = place;
    let mut rest = bytes;
    while let [0xff, tail @ ..] = rest {
        here += 1;
        rest = tail;
    }
    (rest, here)
}

// Checks that a code at a place is one of a header.
fn check_code(code: u8, place: usize) -> Result<(), HeaderRefusal>
    ensures fault { fault_in result ≡ code_fault place code }
    ensures known { OnOk result (IsTrue (is_known code)) }
{
    match code {
        0xc0 | 0xc4 | 0xda | 0xdb | 0xdd | 0xe0..=0xef | 0xfe => Ok(()),
        0xc1..=0xcf | 0xdc | 0xde | 0xdf => Err(HeaderRefusal::NotBaseline { code }),
        _ => Err(HeaderRefusal::MarkerBad { place }),
    }
}

// What the length in the first two bytes counts, and what follows; the length stands at place `at`.
fn body_at(bytes: &[u8], at: usize) -> Result<(&[u8], &[u8]), HeaderRefusal>
    ensures fault { fault_in result ≡ length_fault at bytes.now }
    ensures text { IfOk result
        (λ r. bytes.now ≡ two_bytes (length r.0.now + 2) ++ r.0.now ++ r.1.now) }
    ensures fits { IfOk result (λ r. length r.0.now + 2 < 2 ^ 16) }
{
    if bytes.len() < 2 {
        return Err(HeaderRefusal::HeaderCut);
    }
    let counted = usize::from(number_at(bytes));
    if counted < 2 {
        return Err(HeaderRefusal::LengthBad { place: at });
    }
    if bytes.len() < counted {
        return Err(HeaderRefusal::HeaderCut);
    }
    Ok((&bytes[2..counted], &bytes[counted..]))
}
