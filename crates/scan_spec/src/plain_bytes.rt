// The plain program for a whole scan: interval after interval, first its bits and then its bytes.
ghost use Rattle.std.specs.Prelude.{◌≡◌, ◌+◌, ◌*◌, ◌%◌, ◌<◌, ◌≤◌, ◌++◌, ◌∷◌, ◌==◌, [], length, Ok, Err, IfOk, OnOk, IsErrOf};
ghost use Rattle.std.specs.List.{All};
ghost use Rattle.bit_list.specs.Bits.{number_of, bytes_after, stuffed};
ghost use Rattle.scan_spec.specs.Scans.{mcus_bits, padded, interval_bytes, scan_bytes};
ghost use Rattle.scan_spec.specs.PlainScans.{shape_with, mcus_in, slots_times, marker_between};

use crate::plain::{PlainError, plain_blocks};
use crate::slot::Slot;
use crate::stop::WriteStop;
use coef_block::Block;
use std::alloc::{AllocError, Global};

/// The bytes of a scan (ITU-T T.81, B.2.1, E.1.4, F.1.2.3): the definition as a program. `slots` are those of one MCU,
/// `blocks` those of all `mcus` MCUs, one MCU after the other; `interval` is in MCUs, 0 if there are no restarts.
pub fn plain_scan(
    alloc: Global,
    slots: &[Slot],
    mcus: u32,
    interval: u32,
    blocks: &[Block],
    pad: bool,
) -> Result<Vec<u8>, PlainError>
    requires long { length blocks.now ≡ mcus * length slots.now }
    requires slots { All (λ slot. slot.component < 4) slots.now }
    ensures bytes { IfOk result (λ bytes. scan_bytes (shape_with slots.now mcus interval) (λ n. pad)
        (mcus_in (length slots.now) mcus blocks.now) ≡ Ok bytes.items) }
    ensures stop { (stop : WriteStop) → IsErrOf result (PlainError.Stop stop)
        → scan_bytes (shape_with slots.now mcus interval) (λ n. pad)
        (mcus_in (length slots.now) mcus blocks.now) ≡ Err stop }
{
    let mut bytes = Vec::new(alloc);
    let mut rest = blocks;
    let mut done = 0;
    let mut number = 0;
    'intervals: while done < mcus {
        let count = next_count(mcus, interval, done);
        let (these, later) = rest.split_at(count as usize * slots.len());
        let bits = interval_bits(alloc, slots, count, these)?;
        put_interval(bits, pad, &mut bytes)?;
        done += count;
        put_between(done == mcus, number, &mut bytes)?;
        number += 1;
        rest = later;
    }
    Ok(bytes)
}

// How many MCUs the next interval has, `done` being how many there are before it (B.2.4.4).
fn next_count(mcus: u32, interval: u32, done: u32) -> u32
    requires { done < mcus }
    ensures some { 1 ≤ result }
    ensures within { done + result ≤ mcus }
    ensures all { interval ≡ 0 → done + result ≡ mcus }
    ensures most { 0 < interval → result ≤ interval }
    ensures last { result < interval → done + result ≡ mcus }
{
    let left = mcus - done;
    if interval == 0 || left < interval {
        left
    } else {
        interval
    }
}

// The bits of an interval's MCUs.
fn interval_bits(
    alloc: Global,
    slots: &[Slot],
    mcus: u32,
    blocks: &[Block],
) -> Result<Vec<bool>, PlainError>
    requires long { length blocks.now ≡ mcus * length slots.now }
    requires slots { All (λ slot. slot.component < 4) slots.now }
    ensures bits { IfOk result (λ bits.
        mcus_bits slots.now (mcus_in (length slots.now) mcus blocks.now) ≡ Ok bits.items) }
    ensures stop { (stop : WriteStop) → IsErrOf result (PlainError.Stop stop)
        → mcus_bits slots.now (mcus_in (length slots.now) mcus blocks.now) ≡ Err stop }
{
    let all = repeated(alloc, slots, mcus)?;
    let all = all.as_slice();
    plain_blocks(alloc, all, [0; 4], blocks)
}

// The slots of one MCU, again and again.
fn repeated(alloc: Global, slots: &[Slot], count: u32) -> Result<Vec<Slot>, AllocError>
    ensures { IfOk result (λ all. all.items ≡ slots_times count slots.now) }
{
    let mut all = Vec::new(alloc);
    for i in 0..count {
        put_slots(slots, &mut all)?;
    }
    Ok(all)
}

fn put_slots(slots: &[Slot], all: &mut Vec<Slot>) -> Result<(), AllocError>
    ensures { OnOk result (all.new.items ≡ all.old.items ++ slots.now) }
{
    for slot in slots {
        all.push(*slot)?;
    }
    Ok(())
}

fn put_interval(bits: Vec<bool>, pad: bool, out: &mut Vec<u8>) -> Result<(), AllocError>
    ensures { OnOk result (out.new.items ≡ out.old.items ++ interval_bytes pad bits.items) }
{
    let mut bits = bits;
    pad_up(&mut bits, pad)?;
    put_bytes(bits.as_slice(), out)
}

// Puts pad bits up to a whole byte (B.1.1.5).
fn pad_up(bits: &mut Vec<bool>, pad: bool) -> Result<(), AllocError>
    ensures { OnOk result (bits.new.items ≡ padded bits.old.items pad) }
{
    let begun = bits.len() % 8;
    for i in 0..(8 - begun) % 8 {
        bits.push(pad)?;
    }
    Ok(())
}

// Puts the bytes that bits complete (F.1.2.3).
fn put_bytes(bits: &[bool], out: &mut Vec<u8>) -> Result<(), AllocError>
    ensures { OnOk result
        (out.new.items ≡ out.old.items ++ stuffed (bytes_after [] bits.now)) }
{
    let mut rest = bits;
    while rest.len() >= 8 {
        let (byte, later) = rest.split_at(8);
        put_byte(number_of(byte), out)?;
        rest = later;
    }
    Ok(())
}

// The number that the bits of a byte spell, the highest bit first.
fn number_of(bits: &[bool]) -> u8
    requires { length bits.now ≤ 8 }
    ensures { result ≡ number_of bits.now }
{
    let mut number = 0;
    for bit in bits {
        number = 2 * number + u8::from(*bit);
    }
    number
}

// Puts a byte, and a zero after 0xff.
fn put_byte(byte: u8, out: &mut Vec<u8>) -> Result<(), AllocError>
    ensures { OnOk result (out.new.items ≡ out.old.items ++ stuffed (byte ∷ [])) }
{
    out.push(byte)?;
    if byte == 0xff {
        out.push(0)?;
    }
    Ok(())
}

// Puts the marker between an interval and the next one.
fn put_between(last: bool, number: u32, out: &mut Vec<u8>) -> Result<(), AllocError>
    ensures { OnOk result (out.new.items ≡ out.old.items ++ marker_between last number) }
{
    if last {
        return Ok(());
    }
    out.push(0xff)?;
    out.push(0xd0 + (number % 8) as u8)?;
    Ok(())
}
