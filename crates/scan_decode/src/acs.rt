// The AC coefficients of a block.
ghost use Rattle.std.specs.Prelude.{◌≡◌, ◌≤◌, ◌<◌, ◌-◌, List, ℤ, ◌∷◌, [], true, false, length, replicate, pos, Result, Err, IfOk, IfErr, IfSome, IfNone};
ghost use Rattle.bit_list.specs.Units.{Cursor};
ghost use Rattle.scan_spec.specs.BlockBits.{coefficient_at, ac_values, in_zigzag};
ghost use Rattle.scan_spec.specs.ScanReading.{prefixed_values, acs_at};
ghost use Rattle.scan_spec.specs.ScanSymbols.{symbol_of};
ghost use Rattle.scan_decode.specs.ReadResults.{values_at_cursor};
ghost use Rattle.scan_decode.specs.ReadWords.{AreReads};
ghost use Rattle.scan_decode.specs.BlockSteps.{IsGoing, step_symbol};
ghost use Rattle.scan_spec.specs.declared.refusal.ScanRefusal.{ScanRefusal as Refusal};

use crate::read_word::{BITS, END, ReadWord};
use crate::target::Target;
use crate::values::{extended, symbol};
use bit_list::BitIn;
use coef_block::Block;
use huff_table::Codes;
use scan_spec::ScanRefusal;

// What a symbol says, by how many coefficients are left.
enum Step {
    Value { zeros: u8, size: u8 },
    Sixteen,
    End,
    Past,
    Loose,
    Unknown,
}

/// The next zigzag index, and whether sixteen zeros were the last.
#[derive(Clone, Copy)]
pub(crate) struct At {
    pub(crate) index: usize,
    pub(crate) loose: bool,
}

#[inline(always)]
fn step_of(left: usize, loose: bool, symbol: u8) -> Step
    ensures { step_symbol result ≡ symbol_of left loose symbol }
{
    let zeros = symbol / 16;
    let size = symbol % 16;
    if size == 0 {
        if zeros == 0 {
            return if loose { Step::Loose } else { Step::End };
        }
        if zeros == 15 {
            return if left <= 16 {
                Step::Past
            } else {
                Step::Sixteen
            };
        }
        return Step::Unknown;
    }
    if size > 10 {
        return Step::Unknown;
    }
    if left <= usize::from(zeros) {
        return Step::Past;
    }
    Step::Value { zeros, size }
}

/// Reads the next symbol, and puts its value into `out` if it has one. Answers where the next one is.
#[inline(always)]
pub(crate) fn go_on<T: Target>(
    codes: &Codes,
    input: &mut BitIn,
    out: &mut T,
    at: At,
) -> Result<At, ScanRefusal>
    requires some { 0 < at.index }
    requires left { at.index < 64 }
    ensures ok { IfOk result
        (λ next. (whole : Result (List ℤ × Cursor) Refusal)
        → IsGoing (T.holds out.old) whole codes.now input.old.bytes at.index at.loose
        input.old.cursor
        → IsGoing (T.holds out.new) whole codes.now input.old.bytes next.index next.loose
        input.new.cursor) }
    ensures some { IfOk result (λ next. (0 < next.index) × (next.index ≤ 64)) }
    ensures more { IfOk result (λ next. at.index < next.index) }
    ensures err { IfErr result
        (λ refusal. (whole : Result (List ℤ × Cursor) Refusal)
        → IsGoing (T.holds out.old) whole codes.now input.old.bytes at.index at.loose
        input.old.cursor
        → whole ≡ Err refusal) }
    ensures bytes { input.new.bytes ≡ input.old.bytes }
{
    let symbol = symbol(codes, input)?;
    match step_of(64 - at.index, at.loose, symbol) {
        Step::Value { zeros, size } => {
            let value = extended(size, input)?;
            let index = at.index + usize::from(zeros);
            out.put(index, value as i16);
            Ok(At {
                index: index + 1,
                loose: false,
            })
        }
        Step::Sixteen => Ok(At {
            index: at.index + 16,
            loose: true,
        }),
        Step::End => Ok(At {
            index: 64,
            loose: false,
        }),
        Step::Past => Err(ScanRefusal::RunPast {
            place: input.place(),
        }),
        Step::Loose => Err(ScanRefusal::LooseZeros {
            place: input.place(),
        }),
        Step::Unknown => Err(ScanRefusal::SymbolBad {
            place: input.place(),
        }),
    }
}

/// The AC coefficients of a block that has none yet (ITU-T T.81, F.2.2.2).
#[inline(always)]
pub(crate) fn acs(
    words: &[ReadWord],
    codes: &Codes,
    input: &mut BitIn,
    out: &mut Block,
) -> Result<(), ScanRefusal>
    requires words { AreReads codes.now words.now }
    requires long { length out.old ≡ 64 }
    requires zeros { ac_values out.old ≡ replicate 63 (pos 0) }
    ensures is { values_at_cursor result (in_zigzag out.new) input.new.cursor
        ≡ prefixed_values (coefficient_at out.old 0 ∷ [])
        (acs_at 63 codes.now 63 false input.old.bytes input.old.cursor) }
    ensures bytes { input.new.bytes ≡ input.old.bytes }
{
    let mut at = At {
        index: 1,
        loose: false,
    };
    while at.index < 64 {
        at = next_symbol(words, codes, input, out, at)?;
    }
    Ok(())
}

// Reads the next symbol and its value: by ten bits, or else one after the other.
#[inline(always)]
fn next_symbol(
    words: &[ReadWord],
    codes: &Codes,
    input: &mut BitIn,
    out: &mut Block,
    at: At,
) -> Result<At, ScanRefusal>
    requires words { AreReads codes.now words.now }
    requires some { 0 < at.index }
    requires left { at.index < 64 }
    ensures ok { IfOk result
        (λ next. (whole : Result (List ℤ × Cursor) Refusal)
        → IsGoing (λ block. out.old ≡ block) whole codes.now input.old.bytes at.index at.loose
        input.old.cursor
        → IsGoing (λ block. out.new ≡ block) whole codes.now input.old.bytes next.index next.loose
        input.new.cursor) }
    ensures some { IfOk result (λ next. (0 < next.index) × (next.index ≤ 64)) }
    ensures more { IfOk result (λ next. at.index < next.index) }
    ensures err { IfErr result
        (λ refusal. (whole : Result (List ℤ × Cursor) Refusal)
        → IsGoing (λ block. out.old ≡ block) whole codes.now input.old.bytes at.index at.loose
        input.old.cursor
        → whole ≡ Err refusal) }
    ensures bytes { input.new.bytes ≡ input.old.bytes }
{
    if let Some(index) = by_ten_bits(words, codes, input, out, at) {
        return Ok(At {
            index,
            loose: false,
        });
    }
    go_on(codes, input, out, at)
}

// Reads what the next ten bits begin with, if a word has it and its bits are there. Answers the next zigzag index.
#[inline(always)]
fn by_ten_bits(
    words: &[ReadWord],
    codes: &Codes,
    input: &mut BitIn,
    out: &mut Block,
    at: At,
) -> Option<usize>
    requires words { AreReads codes.now words.now }
    requires some { 0 < at.index }
    requires left { at.index < 64 }
    ensures is { IfSome result
        (λ next. (whole : Result (List ℤ × Cursor) Refusal)
        → IsGoing (λ block. out.old ≡ block) whole codes.now input.old.bytes at.index at.loose
        input.old.cursor
        → IsGoing (λ block. out.new ≡ block) whole codes.now input.old.bytes next false
        input.new.cursor) }
    ensures some { IfSome result (λ next. (at.index < next) × (next ≤ 64)) }
    ensures none { IfNone result ((input.new ≡ input.old) × (out.new ≡ out.old)) }
    ensures bytes { input.new.bytes ≡ input.old.bytes }
{
    let _ = codes;
    input.ready();
    let seen = usize::from(input.look(BITS)?);
    if seen >= words.len() {
        return None;
    }
    let word = words[seen];
    let index = at.index + usize::from(word.zeros);
    if index > 63 {
        if word.zeros != END || at.loose || !input.advance(word.bits) {
            return None;
        }
        return Some(64);
    }
    if !input.advance(word.bits) {
        return None;
    }
    out.put_in_zigzag(index, word.value);
    Some(index + 1)
}
